//! The types of tokens (RFC 8693, section 3).

ghost use Rattle.std.specs.Prelude.{◌≡◌};
ghost use Rattle.oauth2_grants.specs.TokenExchange.{token_type_text};

use std::convert::AsStr;

/// The type of a token, named by a URI (RFC 8693, section 3).
#[derive(Clone, Copy, Debug, PartialEq, Eq)]
pub enum TokenTypeIdentifier<'a> {
    /// An OAuth 2.0 access token, whose content the client does not look at.
    AccessToken,
    /// An OAuth 2.0 refresh token.
    RefreshToken,
    /// An ID token of OpenID Connect.
    IdToken,
    /// A SAML 1.1 assertion, in base64url.
    Saml1,
    /// A SAML 2.0 assertion, in base64url.
    Saml2,
    /// A JSON Web Token.
    Jwt,
    /// The type that another URI names.
    Other(&'a str),
}

impl<'a> TokenTypeIdentifier<'a> {
    // The type that the text names; case matters.
    pub(crate) fn from_text(text: &'a str) -> TokenTypeIdentifier<'a>
        ensures { token_type_text result ≡ text.now }
    {
        match text {
            "urn:ietf:params:oauth:token-type:access_token" => TokenTypeIdentifier::AccessToken,
            "urn:ietf:params:oauth:token-type:refresh_token" => TokenTypeIdentifier::RefreshToken,
            "urn:ietf:params:oauth:token-type:id_token" => TokenTypeIdentifier::IdToken,
            "urn:ietf:params:oauth:token-type:saml1" => TokenTypeIdentifier::Saml1,
            "urn:ietf:params:oauth:token-type:saml2" => TokenTypeIdentifier::Saml2,
            "urn:ietf:params:oauth:token-type:jwt" => TokenTypeIdentifier::Jwt,
            _ => TokenTypeIdentifier::Other(text),
        }
    }
}

impl AsStr for TokenTypeIdentifier<'_> {
    ghost text = { token_type_text };

    fn as_str(&self) -> &str {
        match self {
            TokenTypeIdentifier::AccessToken => "urn:ietf:params:oauth:token-type:access_token",
            TokenTypeIdentifier::RefreshToken => "urn:ietf:params:oauth:token-type:refresh_token",
            TokenTypeIdentifier::IdToken => "urn:ietf:params:oauth:token-type:id_token",
            TokenTypeIdentifier::Saml1 => "urn:ietf:params:oauth:token-type:saml1",
            TokenTypeIdentifier::Saml2 => "urn:ietf:params:oauth:token-type:saml2",
            TokenTypeIdentifier::Jwt => "urn:ietf:params:oauth:token-type:jwt",
            TokenTypeIdentifier::Other(text) => text,
        }
    }
}
