//! Why a login with OpenID Connect returned no user.

use crate::login_refusal::RefusedOpenIdLogin;
use oauth2_openid::{ClaimsError, IdTokenReadError};
use oauth2_types::display::write_display;
use oauth2_wire::RequestTokenError;
use std::fmt;

/// Why a login returned no user. If a token response was read, no error holds any part of it. The
/// body of a response that could not be read is in `Token`, as in each `RequestTokenError`.
#[derive(Drop)]
pub enum OpenIdLoginError<RE, T> {
    /// The token endpoint is not secure, the provider, the client, the called URL or the redirect is
    /// not this login's, the redirect has no code, or memory ran out before the code was sent. The
    /// HTTP client was not called.
    Refused(RefusedOpenIdLogin),
    /// The token request failed.
    Token(RequestTokenError<RE, T>),
    /// The token response has another token type than `Bearer` (section 3.1.3.3).
    OtherTokenType,
    /// The token response has no ID token.
    NoIdToken,
    /// The text is not that of an ID token. Out of memory is reported as `Memory` instead.
    Read(IdTokenReadError),
    /// The ID token does not meet this rule.
    Claims(ClaimsError),
    /// Memory ran out while the ID token was read.
    Memory,
}

impl<RE, T: fmt::Display> fmt::Display for OpenIdLoginError<RE, T> {
    ghost use Rattle.oauth2_openid_login.specs.End.{openid_login_error_text};

    ghost output = { openid_login_error_text T.output };

    ghost styled_output = { λ error _. openid_login_error_text T.output error };

    fn fmt<W: fmt::Write>(&self, f: &mut fmt::Formatter<W>) -> fmt::Result {
        match self {
            OpenIdLoginError::Refused(refused) => write_display(f, refused),
            OpenIdLoginError::Token(error) => write_display(f, error),
            OpenIdLoginError::OtherTokenType => f.write_str("token type is not Bearer"),
            OpenIdLoginError::NoIdToken => f.write_str("token response has no ID token"),
            OpenIdLoginError::Read(error) => write_display(f, format_args!("ID token: {error}")),
            OpenIdLoginError::Claims(error) => write_display(f, format_args!("ID token: {error}")),
            OpenIdLoginError::Memory => f.write_str("Out of memory"),
        }
    }
}

impl<RE, T> std::error::Error for OpenIdLoginError<RE, T>
where
    RE: fmt::Debug + Drop,
    T: fmt::Debug + fmt::Display + Drop,
{}

impl<RE, T> From<RefusedOpenIdLogin> for OpenIdLoginError<RE, T> {
    ghost use Rattle.std.specs.Prelude.{◌≡◌};
    ghost use Rattle.oauth2_openid_login.specs.declared.login_error.OpenIdLoginError.TheVariants.{
      Refused,
    };

    ghost from_gives = { λ refused error. error ≡ Refused refused };

    fn from(refused: RefusedOpenIdLogin) -> OpenIdLoginError<RE, T> {
        OpenIdLoginError::Refused(refused)
    }
}

impl<RE, T> fmt::Debug for OpenIdLoginError<RE, T> {
    ghost use Rattle.std.specs.Prelude.{Some};
    ghost use Rattle.std.specs.Fmt.{DisplaysOnOk, WritesStyledOnOk};
    ghost use Rattle.oauth2_openid_login.specs.End.{openid_login_error_debug};

    ghost debug_output = { λ error. Some (openid_login_error_debug error) };

    fn fmt<W: fmt::Write>(&self, f: &mut fmt::Formatter<W>) -> fmt::Result
        ensures writes { DisplaysOnOk W.write_str_gives f.old result
            (Some (openid_login_error_debug self.now)) f.new }
        // The same for all options of the formatter, for example `{:#?}`.
        ensures styled { WritesStyledOnOk W.write_str_gives f.old result
            (openid_login_error_debug self.now) f.new }
    {
        f.write_str(match self {
            OpenIdLoginError::Refused(_) => "Refused([redacted])",
            OpenIdLoginError::Token(_) => "Token([redacted])",
            OpenIdLoginError::OtherTokenType => "OtherTokenType",
            OpenIdLoginError::NoIdToken => "NoIdToken",
            OpenIdLoginError::Read(_) => "Read([redacted])",
            OpenIdLoginError::Claims(_) => "Claims([redacted])",
            OpenIdLoginError::Memory => "Memory",
        })
    }
}
