//! How a client knows which provider a redirect is from.

/// How a client knows that a redirect is from a provider, and not from another one that shares its
/// redirect URI (RFC 9700, section 4.4.2).
#[derive(Clone, Copy, Debug, PartialEq, Eq)]
pub enum RedirectIssuer {
    /// The provider announces that each redirect names its issuer in `iss`
    /// (`authorization_response_iss_parameter_supported`): a redirect without it is refused
    /// (RFC 9207, section 2.4).
    InEachRedirect,
    /// The redirect URI of its logins is used for this provider alone (RFC 9700, section 4.4.2.2).
    /// A redirect that names another issuer is refused too.
    OwnRedirectUri,
}
