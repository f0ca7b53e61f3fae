//! Why a login asks for no token.

use crate::login::Login;
use crate::redirect::RedirectError;
use oauth2_types::display::write_display;
use std::fmt;

/// What is not the login's. They are tested in this order, before the redirect is read.
#[derive(Clone, Copy, Debug, PartialEq, Eq)]
pub enum LoginMismatch {
    /// The client has another identifier than the one that began the login.
    OtherClient,
    /// The client has another token endpoint: the login is at another server (RFC 9700, section
    /// 4.4).
    OtherTokenEndpoint,
    /// The redirect came to another URL than the login's redirect URI (RFC 9700, section 2.1).
    OtherRedirectUri,
}

impl fmt::Display for LoginMismatch {
    ghost use Rattle.oauth2_redirect.specs.Bound.{mismatch_text};

    ghost output = { mismatch_text };

    ghost styled_output = { λ error _. mismatch_text error };

    fn fmt<W: fmt::Write>(&self, f: &mut fmt::Formatter<W>) -> fmt::Result {
        f.write_str(match self {
            LoginMismatch::OtherClient => "login is of another client",
            LoginMismatch::OtherTokenEndpoint => "login is of another token endpoint",
            LoginMismatch::OtherRedirectUri => "redirect came to another URI",
        })
    }
}

impl std::error::Error for LoginMismatch {}

/// Why a login is refused. Nothing was sent.
#[derive(Debug, PartialEq, Eq, Drop)]
pub enum LoginRefusal {
    /// The client or the URL to which the redirect came is not the login's.
    Mismatch(LoginMismatch),
    /// The redirect has no code for this login, or memory ran out.
    Redirect(RedirectError),
}

impl fmt::Display for LoginRefusal {
    ghost use Rattle.oauth2_redirect.specs.Bound.{refusal_text};

    ghost output = { refusal_text };

    ghost styled_output = { λ error _. refusal_text error };

    fn fmt<W: fmt::Write>(&self, f: &mut fmt::Formatter<W>) -> fmt::Result {
        match self {
            LoginRefusal::Mismatch(error) => write_display(f, error),
            LoginRefusal::Redirect(error) => write_display(f, error),
        }
    }
}

impl std::error::Error for LoginRefusal {}

/// Why a login is refused, and the login.
#[derive(Drop)]
pub struct RefusedLogin {
    /// Why it is refused.
    pub error: LoginRefusal,
    /// The login as it was, to be finished by another redirect.
    pub login: Login,
}

impl fmt::Display for RefusedLogin {
    ghost use Rattle.oauth2_redirect.specs.Bound.{refusal_text};

    ghost output = { λ refused. refusal_text refused.error };

    ghost styled_output = { λ refused _. refusal_text refused.error };

    fn fmt<W: fmt::Write>(&self, f: &mut fmt::Formatter<W>) -> fmt::Result {
        write_display(f, &self.error)
    }
}

impl std::error::Error for RefusedLogin {}

impl fmt::Debug for RefusedLogin {
    ghost use Rattle.std.specs.Prelude.{Some, codes};
    ghost use Rattle.std.specs.Fmt.{DisplaysOnOk, WritesStyledOnOk};

    ghost debug_output = { λ _. Some (codes "RefusedLogin([redacted])") };

    fn fmt<W: fmt::Write>(&self, f: &mut fmt::Formatter<W>) -> fmt::Result
        ensures writes { DisplaysOnOk W.write_str_gives f.old result
            (Some (codes "RefusedLogin([redacted])")) f.new }
        // The same for all options of the formatter, for example `{:#?}`.
        ensures styled { WritesStyledOnOk W.write_str_gives f.old result
            (codes "RefusedLogin([redacted])") f.new }
    {
        f.write_str("RefusedLogin([redacted])")
    }
}
