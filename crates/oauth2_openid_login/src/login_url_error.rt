//! Why a login with OpenID Connect has no URL.

use crate::login_request::OpenIdLoginRequest;
use oauth2_types::display::write_display;
use std::alloc::AllocError;
use std::fmt;

/// Why a login has no URL.
#[derive(Clone, Copy, Debug, PartialEq, Eq)]
pub enum OpenIdLoginUrlFault {
    /// Neither the client nor the login has a redirect URI, which is required (section 3.1.2.1).
    NoRedirectUri,
    /// The URL would be longer than a `Url` can be.
    TooLong,
    /// Memory ran out.
    Memory,
}

impl fmt::Display for OpenIdLoginUrlFault {
    ghost use Rattle.oauth2_openid_login.specs.Start.{url_fault_text};

    ghost output = { url_fault_text };

    ghost styled_output = { λ fault _. url_fault_text fault };

    fn fmt<W: fmt::Write>(&self, f: &mut fmt::Formatter<W>) -> fmt::Result {
        f.write_str(match self {
            OpenIdLoginUrlFault::NoRedirectUri => "login has no redirect URI",
            OpenIdLoginUrlFault::TooLong => "authorization URL is too long",
            OpenIdLoginUrlFault::Memory => "Out of memory",
        })
    }
}

impl std::error::Error for OpenIdLoginUrlFault {}

impl From<AllocError> for OpenIdLoginUrlFault {
    ghost use Rattle.std.specs.Prelude.{◌≡◌};
    ghost use Rattle.oauth2_openid_login.specs.declared.login_url_error.OpenIdLoginUrlFault.TheVariants.{
      Memory,
    };

    ghost from_gives = { λ _ fault. fault ≡ Memory };

    fn from(_: AllocError) -> OpenIdLoginUrlFault {
        OpenIdLoginUrlFault::Memory
    }
}

/// Why a login has no URL, and the login itself.
#[derive(Drop)]
pub struct OpenIdLoginUrlError<'a> {
    /// Why there is no URL.
    pub error: OpenIdLoginUrlFault,
    /// The login as it was.
    pub request: OpenIdLoginRequest<'a>,
}

impl fmt::Display for OpenIdLoginUrlError<'_> {
    ghost use Rattle.oauth2_openid_login.specs.Start.{url_fault_text};

    ghost output = { λ refused. url_fault_text refused.error };

    ghost styled_output = { λ refused _. url_fault_text refused.error };

    fn fmt<W: fmt::Write>(&self, f: &mut fmt::Formatter<W>) -> fmt::Result {
        write_display(f, &self.error)
    }
}

impl std::error::Error for OpenIdLoginUrlError<'_> {}

impl From<OpenIdLoginUrlError<'_>> for OpenIdLoginUrlFault {
    ghost use Rattle.std.specs.Prelude.{◌≡◌};

    ghost from_gives = { λ refused fault. fault ≡ refused.error };

    fn from(refused: OpenIdLoginUrlError<'_>) -> OpenIdLoginUrlFault {
        refused.error
    }
}

impl fmt::Debug for OpenIdLoginUrlError<'_> {
    ghost use Rattle.std.specs.Prelude.{Some, codes};
    ghost use Rattle.std.specs.Fmt.{DisplaysOnOk, WritesStyledOnOk};

    ghost debug_output = { λ _. Some (codes "OpenIdLoginUrlError([redacted])") };

    fn fmt<W: fmt::Write>(&self, f: &mut fmt::Formatter<W>) -> fmt::Result
        ensures writes { DisplaysOnOk W.write_str_gives f.old result
            (Some (codes "OpenIdLoginUrlError([redacted])")) f.new }
        // The same for all options of the formatter, for example `{:#?}`.
        ensures styled { WritesStyledOnOk W.write_str_gives f.old result
            (codes "OpenIdLoginUrlError([redacted])") f.new }
    {
        f.write_str("OpenIdLoginUrlError([redacted])")
    }
}
