//! A client whose only endpoint is the token endpoint, and the exchange of a code.

ghost use Rattle.std.specs.Prelude.{◌≡◌, Some, None, Ok, Err, IfOk, IfErr, string_bytes};
ghost use Rattle.url.specs.Parts.{serialize};
ghost use Rattle.oauth2_urls.specs.Addressed.{Addressed, Addresses};
ghost use Rattle.oauth2_wire.specs.Reply.{HttpResponse, accepted, answer_of, reply_of};
ghost use Rattle.oauth2_wire.specs.Request.{HttpRequest, IsRequestOf, view_of};
ghost use Rattle.oauth2_requests.specs.Base.{configuration_of};
ghost use Rattle.oauth2_requests.specs.Code.{code_pairs};
ghost use Rattle.oauth2.specs.NewRequest.{base_of};

use oauth2::basic::{BasicClient, BasicErrorResponse, BasicRequestTokenError, BasicTokenResponse};
use oauth2::url::ParseError;
use oauth2::{
    AuthorizationCode, ClientId, ClientSecret, EndpointNotSet, EndpointSet, FromJson,
    SyncHttpClient, TokenUrl,
};
use std::alloc::Global;

/// A client whose only endpoint is the token endpoint.
pub type TokenOnlyClient = BasicClient<
    EndpointNotSet,
    EndpointNotSet,
    EndpointNotSet,
    EndpointNotSet,
    EndpointSet,
>;

/// A client for the exchange of codes. The error says why the URL does not parse.
pub fn new_client(
    alloc: Global,
    id: String,
    secret: String,
    token_url: String,
) -> Result<TokenOnlyClient, ParseError>
    ensures id { IfOk result (λ client. client.client_id ≡ string_bytes id) }
    ensures secret { IfOk result (λ client. client.client_secret ≡ Some (string_bytes secret)) }
    ensures url { IfOk result (λ client. (endpoint : Addressed)
        × (client.token_url ≡ Some endpoint) × Addresses (string_bytes token_url) (Ok endpoint)) }
    ensures refusal { IfErr result (λ error. Addresses (string_bytes token_url) (Err error)) }
{
    let token_url = TokenUrl::new(alloc, token_url)?;
    Ok(
        BasicClient::new(ClientId::new(id))
            .set_client_secret(ClientSecret::new(secret))
            .set_token_uri(token_url),
    )
}

/// Exchanges a code for a token. If it returns a token, the HTTP client was called exactly once,
/// with the request for this code, and the token is what its reply is read as.
pub fn token_for_code<C: SyncHttpClient>(
    alloc: Global,
    client: &TokenOnlyClient,
    http_client: &mut C,
    code: String,
) -> Result<BasicTokenResponse, BasicRequestTokenError<C::Error>>
    requires { C.is_ready http_client.old }
    ensures token { IfOk result (λ token. (request : HttpRequest)
        × ((endpoint : Addressed) × (client.now.token_url ≡ Some endpoint)
        × IsRequestOf (configuration_of (base_of client.now)
        (code_pairs (string_bytes code) None) client.now.redirect_url)
        (serialize endpoint.url) (view_of request))
        × (reply : HttpResponse) × C.step http_client.old request (Ok reply) http_client.new
        × (answer_of client.now.reply_rule ⟦<BasicTokenResponse as FromJson>⟧.reading
        ⟦<BasicErrorResponse as FromJson>⟧.reading (reply_of reply)
        ≡ accepted (⟦<BasicTokenResponse as FromJson>⟧.meaning token))) }
    ensures ready { C.is_ready http_client.new }
{
    client
        .exchange_code(alloc, AuthorizationCode::new(code))
        .request(alloc, http_client)
}
