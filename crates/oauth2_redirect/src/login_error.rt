//! Why a login returned no token.

use crate::login_refusal::RefusedLogin;
use oauth2_types::display::write_display;
use oauth2_wire::RequestTokenError;
use std::fmt;

/// Why a login returned no token.
#[derive(Drop)]
pub enum LoginError<RE, T> {
    /// The redirect, the client or the called URL is not this login's, the redirect has no code, or
    /// memory ran out before the token request. The HTTP client was not called.
    Refused(RefusedLogin),
    /// The token request failed.
    Token(RequestTokenError<RE, T>),
}

impl<RE, T: fmt::Display> fmt::Display for LoginError<RE, T> {
    ghost use Rattle.oauth2_redirect.specs.End.{login_error_text};

    ghost output = { login_error_text T.output };

    ghost styled_output = { λ error _. login_error_text T.output error };

    fn fmt<W: fmt::Write>(&self, f: &mut fmt::Formatter<W>) -> fmt::Result {
        match self {
            LoginError::Refused(refused) => write_display(f, &refused.error),
            LoginError::Token(error) => write_display(f, error),
        }
    }
}

impl<RE, T> std::error::Error for LoginError<RE, T>
where
    RE: fmt::Debug + Drop,
    T: fmt::Debug + fmt::Display + Drop,
{}

impl<RE, T> From<RefusedLogin> for LoginError<RE, T> {
    ghost use Rattle.std.specs.Prelude.{◌≡◌};
    ghost use Rattle.oauth2_redirect.specs.declared.login_error.LoginError.TheVariants.{Refused};

    ghost from_gives = { λ refused e. e ≡ Refused refused };

    fn from(refused: RefusedLogin) -> LoginError<RE, T> {
        LoginError::Refused(refused)
    }
}

impl<RE, T> From<RequestTokenError<RE, T>> for LoginError<RE, T> {
    ghost use Rattle.std.specs.Prelude.{◌≡◌};
    ghost use Rattle.oauth2_redirect.specs.declared.login_error.LoginError.TheVariants.{Token};

    ghost from_gives = { λ error e. e ≡ Token error };

    fn from(error: RequestTokenError<RE, T>) -> LoginError<RE, T> {
        LoginError::Token(error)
    }
}

impl<RE, T> fmt::Debug for LoginError<RE, T> {
    ghost use Rattle.std.specs.Prelude.{Some};
    ghost use Rattle.std.specs.Fmt.{DisplaysOnOk, WritesStyledOnOk};
    ghost use Rattle.oauth2_redirect.specs.End.{login_error_debug};

    ghost debug_output = { λ error. Some (login_error_debug error) };

    fn fmt<W: fmt::Write>(&self, f: &mut fmt::Formatter<W>) -> fmt::Result
        ensures writes { DisplaysOnOk W.write_str_gives f.old result
            (Some (login_error_debug self.now)) f.new }
        // The same for all options of the formatter, for example `{:#?}`.
        ensures styled { WritesStyledOnOk W.write_str_gives f.old result
            (login_error_debug self.now) f.new }
    {
        f.write_str(match self {
            LoginError::Refused(_) => "Refused([redacted])",
            LoginError::Token(_) => "Token([redacted])",
        })
    }
}
