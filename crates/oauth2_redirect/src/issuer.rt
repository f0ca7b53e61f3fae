//! The issuer that a redirect is expected to come from (RFC 9207).

ghost use Rattle.std.specs.Prelude.{◌≡◌};
ghost use Rattle.oauth2_redirect.specs.Redirect.{expectation_of, issuer_expectation};

/// What a client knows of the issuer of the redirects that it gets (RFC 9207, section 2.4).
#[derive(Clone, Copy, Debug, PartialEq, Eq)]
pub enum ExpectedIssuer<'a> {
    /// The server announces that its redirects have `iss`
    /// (`authorization_response_iss_parameter_supported`): a redirect without it is refused.
    Required(&'a str),
    /// The issuer is known, but not whether the redirects have `iss`: a redirect with another
    /// issuer is refused, and one without `iss` is accepted.
    Compared(&'a str),
    /// The issuer is not known, and `iss` is ignored.
    Unknown,
}

/// By what the redirects of a login are known to come from its server (RFC 9700, section 4.4.2).
#[derive(Debug, Drop)]
pub enum LoginIssuer {
    /// The server's issuer, which each redirect must name: the server announces
    /// `authorization_response_iss_parameter_supported` (RFC 9207, section 3).
    InEachRedirect(String),
    /// The server does not announce that. The caller says by this name that the login's redirect
    /// URI is used for this server alone (RFC 9700, section 4.4.2.2). An issuer that is known is
    /// compared with that of a redirect which names one.
    OwnRedirectUri(Option<String>),
}

impl LoginIssuer {
    // The issuer that is expected of a redirect.
    pub(crate) fn expected(&self) -> ExpectedIssuer<'_>
        ensures { issuer_expectation result ≡ expectation_of self.now }
    {
        match self {
            LoginIssuer::InEachRedirect(issuer) => ExpectedIssuer::Required(issuer.as_str()),
            LoginIssuer::OwnRedirectUri(Some(issuer)) => ExpectedIssuer::Compared(issuer.as_str()),
            LoginIssuer::OwnRedirectUri(None) => ExpectedIssuer::Unknown,
        }
    }
}
