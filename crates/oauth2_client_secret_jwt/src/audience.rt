//! For whom an assertion is: its claim `aud` (RFC 7523, section 3).

ghost use Rattle.std.specs.Prelude.{◌≡◌};
ghost use Rattle.oauth2_client_secret_jwt.specs.Audience.{audience_text};

use crate::issuer_identifier::IssuerIdentifier;
use oauth2_urls::TokenUrl;

/// The server that an assertion is for. Another server has to refuse it (RFC 7523, section 3).
#[derive(Drop)]
pub enum Audience {
    /// The identifier of the server as an issuer. Prefer it: it is that of one server, while a
    /// client may learn the URL of an endpoint from a server that lies, and each server that
    /// supports RFC 9126 takes it (section 2).
    Issuer(IssuerIdentifier),
    /// The URL of the server's token endpoint, for a server that takes no other one.
    TokenEndpoint(TokenUrl),
}

impl Audience {
    /// The text of the claim: the identifier or the URL, as it was given.
    pub fn as_str(&self) -> &str
        ensures { result.now ≡ audience_text self.now }
    {
        match self {
            Audience::Issuer(issuer) => issuer.as_str(),
            Audience::TokenEndpoint(url) => url.as_str(),
        }
    }
}
