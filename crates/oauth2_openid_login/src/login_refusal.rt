//! Why a login with OpenID Connect sends nothing.

use crate::login::OpenIdLogin;
use oauth2_redirect::LoginRefusal;
use oauth2_types::display::write_display;
use std::fmt;

/// Why a login sends nothing. The causes are tried in this order.
#[derive(Debug, PartialEq, Eq, Drop)]
pub enum OpenIdLoginRefusal {
    /// The URL of the client's token endpoint is neither `https` nor `http` with a loopback host:
    /// nothing would say whose ID token comes (section 3.1.3.7, 6).
    InsecureTokenEndpoint,
    /// The login was started at a provider with another issuer.
    OtherProvider,
    /// The login is not this client's, or the redirect is not this login's or has no code; or memory
    /// ran out.
    Login(LoginRefusal),
}

impl fmt::Display for OpenIdLoginRefusal {
    ghost use Rattle.oauth2_openid_login.specs.Refusal.{openid_refusal_text};

    ghost output = { openid_refusal_text };

    ghost styled_output = { λ refusal _. openid_refusal_text refusal };

    fn fmt<W: fmt::Write>(&self, f: &mut fmt::Formatter<W>) -> fmt::Result {
        match self {
            OpenIdLoginRefusal::InsecureTokenEndpoint => {
                f.write_str("token endpoint is not an https URL")
            }
            OpenIdLoginRefusal::OtherProvider => f.write_str("login is of another provider"),
            OpenIdLoginRefusal::Login(refusal) => write_display(f, refusal),
        }
    }
}

impl std::error::Error for OpenIdLoginRefusal {}

/// A login that sent nothing, and why.
#[derive(Drop)]
pub struct RefusedOpenIdLogin {
    /// Why nothing was sent.
    pub error: OpenIdLoginRefusal,
    /// The login as it was, to be finished by another redirect.
    pub login: OpenIdLogin,
}

impl fmt::Display for RefusedOpenIdLogin {
    ghost use Rattle.oauth2_openid_login.specs.Refusal.{openid_refusal_text};

    ghost output = { λ refused. openid_refusal_text refused.error };

    ghost styled_output = { λ refused _. openid_refusal_text refused.error };

    fn fmt<W: fmt::Write>(&self, f: &mut fmt::Formatter<W>) -> fmt::Result {
        write_display(f, &self.error)
    }
}

impl std::error::Error for RefusedOpenIdLogin {}

impl fmt::Debug for RefusedOpenIdLogin {
    ghost use Rattle.std.specs.Prelude.{Some, codes};
    ghost use Rattle.std.specs.Fmt.{DisplaysOnOk, WritesStyledOnOk};

    ghost debug_output = { λ _. Some (codes "RefusedOpenIdLogin([redacted])") };

    fn fmt<W: fmt::Write>(&self, f: &mut fmt::Formatter<W>) -> fmt::Result
        ensures writes { DisplaysOnOk W.write_str_gives f.old result
            (Some (codes "RefusedOpenIdLogin([redacted])")) f.new }
        // The same for all options of the formatter, for example `{:#?}`.
        ensures styled { WritesStyledOnOk W.write_str_gives f.old result
            (codes "RefusedOpenIdLogin([redacted])") f.new }
    {
        f.write_str("RefusedOpenIdLogin([redacted])")
    }
}
