//! Whether a token is bound to a key, as an answer says it by the member `cnf` (RFC 7800, 3.1).

ghost use Rattle.std.specs.Prelude.{◌≡◌, codes, is_some};

use oauth2::basic::{
    BasicErrorResponse, BasicRevocationErrorResponse, BasicTokenResponse, BasicTokenType,
};
use oauth2::{
    Client, EmptyExtraTokenFields, EndpointNotSet, EndpointSet, ExtraTokenFields, NamedMember,
    StandardRevocableToken, StandardTokenIntrospectionResponse, TokenIntrospectionResponse,
    TokenType, WithMember,
};
use serde_json::Value;

/// The member `cnf`, which names the key that a token is bound to (RFC 8705, 3.2; RFC 9449, 6.2).
pub struct Confirmation;

impl NamedMember for Confirmation {
    type Value = Value;

    ghost name = { codes "cnf" };

    fn name() -> &'static str {
        "cnf"
    }
}

/// Extra fields of an introspection response: the member `cnf`, and other fields.
pub type ConfirmationFields<Rest = EmptyExtraTokenFields> = WithMember<Confirmation, Rest>;

/// The introspection response of a server that uses no extension but those that bind tokens to
/// keys.
pub type ConfirmedIntrospectionResponse = StandardTokenIntrospectionResponse<
    ConfirmationFields,
    BasicTokenType,
>;

/// A client that only introspects tokens, as a resource server does, and whose answers keep `cnf`.
pub type ResourceServerClient<
    A = EndpointNotSet,
    D = EndpointNotSet,
    R = EndpointNotSet,
    T = EndpointNotSet,
> = Client<
    BasicErrorResponse,
    BasicTokenResponse,
    ConfirmedIntrospectionResponse,
    StandardRevocableToken,
    BasicRevocationErrorResponse,
    A,
    D,
    EndpointSet,
    R,
    T,
>;

/// An introspection response that says whether its token is bound to a key.
pub trait TellsConfirmation: TokenIntrospectionResponse {
    ghost use Rattle.std.specs.Prelude.{◌≡◌, Bool};

    ghost is_bound: { Self → Bool };

    /// Whether the token is bound to a key, so that it must not be used without a proof of the key.
    fn is_bound(&self) -> bool
        ensures { result ≡ is_bound self.now };
}

/// A token is bound if there is a member `cnf` that is not null, whatever it says.
impl<Rest: ExtraTokenFields + Drop, TT: TokenType + Drop> TellsConfirmation
    for StandardTokenIntrospectionResponse<WithMember<Confirmation, Rest>, TT> {
    ghost is_bound = { λ answer. is_some answer.extra_fields.value };

    fn is_bound(&self) -> bool {
        self.extra_fields().value().is_some()
    }
}
