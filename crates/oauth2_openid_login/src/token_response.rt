//! Token responses that carry an ID token (OpenID Connect Core 1.0, section 3.1.3.3).

ghost use Rattle.std.specs.Prelude.{◌≡◌, ℕ, List, Option, option_copied};

use oauth2::basic::{
    BasicErrorResponse, BasicRevocationErrorResponse, BasicTokenIntrospectionResponse,
    BasicTokenType,
};
use oauth2::{Client, EndpointNotSet, EndpointSet, StandardRevocableToken};
use oauth2_codes::TokenType;
use oauth2_extra_fields::WithMember;
use oauth2_openid::{IdTokenFields, IdTokenMember, IdTokenText};
use oauth2_replies::{ExtraTokenFields, StandardTokenResponse, TokenResponse};
use std::convert::AsStr;

/// The token response with an ID token and without other extra fields.
pub type OpenIdTokenResponse = StandardTokenResponse<IdTokenFields, BasicTokenType>;

/// A client for logins with OpenID Connect: it has the authorization endpoint and the token
/// endpoint.
pub type OpenIdClient = Client<
    BasicErrorResponse,
    OpenIdTokenResponse,
    BasicTokenIntrospectionResponse,
    StandardRevocableToken,
    BasicRevocationErrorResponse,
    EndpointSet,
    EndpointNotSet,
    EndpointNotSet,
    EndpointNotSet,
    EndpointSet,
>;

/// A token response that may carry an ID token.
pub trait HasIdToken: TokenResponse + Drop {
    ghost use Rattle.std.specs.Prelude.{◌≡◌, ℕ, List, Option, option_copied};

    /// The text of the token type.
    ghost token_type_text: { Self → List ℕ };

    /// The text of the ID token.
    ghost id_token: { Self → Option (List ℕ) };

    /// The text of the token type. The case of its letters is ignored (RFC 6749, section 5.1).
    fn token_type_text(&self) -> &str
        ensures { result.now ≡ token_type_text self.now };

    /// The text of the ID token, unchanged, if there is one.
    fn id_token(&self) -> Option<&IdTokenText>
        ensures { option_copied result ≡ id_token self.now };
}

impl<Rest: ExtraTokenFields + Drop, TT: TokenType + AsStr + Drop> HasIdToken
    for StandardTokenResponse<WithMember<IdTokenMember, Rest>, TT> {
    ghost token_type_text = { λ r. TT.text r.token_type };

    ghost id_token = { λ r. r.extra_fields.value };

    fn token_type_text(&self) -> &str {
        self.token_type().as_str()
    }

    fn id_token(&self) -> Option<&IdTokenText> {
        self.extra_fields().value()
    }
}
