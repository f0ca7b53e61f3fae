//! Why a login returned no user with a verified ID token.

use crate::login_end::UnverifiedLogin;
use oauth2_openid_login::OpenIdLoginError;
use oauth2_types::display::write_display;
use std::fmt;

/// Why a login returned no user.
#[derive(Drop)]
pub enum VerifiedLoginError<TR, RE, T> {
    /// The login failed before its signature was checked: the error of
    /// `OpenIdLogin::finish_without_signature`.
    Login(OpenIdLoginError<RE, T>),
    /// The ID token meets every rule for its claims, but its signature is refused. The tokens are
    /// in this error.
    Signature(UnverifiedLogin<TR>),
}

impl<TR, RE, T: fmt::Display> fmt::Display for VerifiedLoginError<TR, RE, T> {
    ghost use Rattle.oauth2_verified_login.specs.End.{verified_login_error_text};

    ghost output = { verified_login_error_text T.output };

    ghost styled_output = { λ error _. verified_login_error_text T.output error };

    fn fmt<W: fmt::Write>(&self, f: &mut fmt::Formatter<W>) -> fmt::Result {
        match self {
            VerifiedLoginError::Login(error) => write_display(f, error),
            VerifiedLoginError::Signature(unverified) => write_display(f, unverified),
        }
    }
}

impl<TR, RE, T> std::error::Error for VerifiedLoginError<TR, RE, T>
where
    TR: Drop,
    RE: fmt::Debug + Drop,
    T: fmt::Debug + fmt::Display + Drop,
{}

impl<TR, RE, T> From<UnverifiedLogin<TR>> for VerifiedLoginError<TR, RE, T> {
    ghost use Rattle.std.specs.Prelude.{◌≡◌};
    ghost use Rattle.oauth2_verified_login.specs.declared.login_error.VerifiedLoginError.TheVariants.{
      Signature,
    };

    ghost from_gives = { λ unverified error. error ≡ Signature unverified };

    fn from(unverified: UnverifiedLogin<TR>) -> VerifiedLoginError<TR, RE, T> {
        VerifiedLoginError::Signature(unverified)
    }
}

impl<TR, RE, T> fmt::Debug for VerifiedLoginError<TR, RE, T> {
    ghost use Rattle.std.specs.Prelude.{Some};
    ghost use Rattle.std.specs.Fmt.{DisplaysOnOk, WritesStyledOnOk};
    ghost use Rattle.oauth2_verified_login.specs.End.{verified_login_error_debug};

    ghost debug_output = { λ error. Some (verified_login_error_debug error) };

    fn fmt<W: fmt::Write>(&self, f: &mut fmt::Formatter<W>) -> fmt::Result
        ensures writes { DisplaysOnOk W.write_str_gives f.old result
            (Some (verified_login_error_debug self.now)) f.new }
        // The same for all options of the formatter, for example `{:#?}`.
        ensures styled { WritesStyledOnOk W.write_str_gives f.old result
            (verified_login_error_debug self.now) f.new }
    {
        f.write_str(match self {
            VerifiedLoginError::Login(_) => "Login([redacted])",
            VerifiedLoginError::Signature(_) => "Signature([redacted])",
        })
    }
}
