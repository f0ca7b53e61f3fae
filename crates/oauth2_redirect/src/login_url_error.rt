//! Why a login has no URL.

use crate::login_request::LoginRequest;
use oauth2_types::display::write_display;
use std::alloc::AllocError;
use std::fmt;

/// Why a login has no URL.
#[derive(Clone, Copy, Debug, PartialEq, Eq)]
pub enum LoginUrlFault {
    /// Neither the client nor the login has a redirect URI.
    NoRedirectUri,
    /// The URL would be longer than a `Url` can be.
    TooLong,
    /// Memory ran out.
    Memory,
}

impl fmt::Display for LoginUrlFault {
    ghost use Rattle.oauth2_redirect.specs.Start.{url_fault_text};

    ghost output = { url_fault_text };

    ghost styled_output = { λ fault _. url_fault_text fault };

    fn fmt<W: fmt::Write>(&self, f: &mut fmt::Formatter<W>) -> fmt::Result {
        f.write_str(match self {
            LoginUrlFault::NoRedirectUri => "login has no redirect URI",
            LoginUrlFault::TooLong => "authorization URL is too long",
            LoginUrlFault::Memory => "Out of memory",
        })
    }
}

impl std::error::Error for LoginUrlFault {}

impl From<AllocError> for LoginUrlFault {
    ghost use Rattle.std.specs.Prelude.{◌≡◌};
    ghost use Rattle.oauth2_redirect.specs.declared.login_url_error.LoginUrlFault.TheVariants.{
      Memory,
    };

    ghost from_gives = { λ _ fault. fault ≡ Memory };

    fn from(_: AllocError) -> LoginUrlFault {
        LoginUrlFault::Memory
    }
}

/// Why a login has no URL, and the login itself.
#[derive(Drop)]
pub struct LoginUrlError<'a> {
    /// Why there is no URL.
    pub error: LoginUrlFault,
    /// The login as it was.
    pub request: LoginRequest<'a>,
}

impl fmt::Display for LoginUrlError<'_> {
    ghost use Rattle.oauth2_redirect.specs.Start.{url_fault_text};

    ghost output = { λ refused. url_fault_text refused.error };

    ghost styled_output = { λ refused _. url_fault_text refused.error };

    fn fmt<W: fmt::Write>(&self, f: &mut fmt::Formatter<W>) -> fmt::Result {
        write_display(f, &self.error)
    }
}

impl std::error::Error for LoginUrlError<'_> {}

impl From<LoginUrlError<'_>> for LoginUrlFault {
    ghost use Rattle.std.specs.Prelude.{◌≡◌};

    ghost from_gives = { λ refused fault. fault ≡ refused.error };

    fn from(refused: LoginUrlError<'_>) -> LoginUrlFault {
        refused.error
    }
}

impl fmt::Debug for LoginUrlError<'_> {
    ghost use Rattle.std.specs.Prelude.{Some, codes};
    ghost use Rattle.std.specs.Fmt.{DisplaysOnOk, WritesStyledOnOk};

    ghost debug_output = { λ _. Some (codes "LoginUrlError([redacted])") };

    fn fmt<W: fmt::Write>(&self, f: &mut fmt::Formatter<W>) -> fmt::Result
        ensures writes { DisplaysOnOk W.write_str_gives f.old result
            (Some (codes "LoginUrlError([redacted])")) f.new }
        // The same for all options of the formatter, for example `{:#?}`.
        ensures styled { WritesStyledOnOk W.write_str_gives f.old result
            (codes "LoginUrlError([redacted])") f.new }
    {
        f.write_str("LoginUrlError([redacted])")
    }
}
