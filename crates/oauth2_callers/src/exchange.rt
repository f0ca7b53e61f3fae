//! Requests at the token endpoint.

ghost use Rattle.std.specs.Prelude.{
  ◌≡◌,
  ◌↔◌,
  ◌++◌,
  ◌∷◌,
  [],
  codes,
  Some,
  None,
  Ok,
  Err,
  IfOk,
  IsTrue,
};
ghost use Rattle.http_uri.specs.Uri.{SpellsNone};
ghost use Rattle.url.specs.Parts.{serialize};
ghost use Rattle.oauth2_urls.specs.Addressed.{Addressed};
ghost use Rattle.oauth2_form.specs.Pairs.{form};
ghost use Rattle.oauth2_form.specs.Params.{with_scopes};
ghost use Rattle.oauth2_wire.specs.Reply.{HttpResponse, accepted, answer_of, reply_of};
ghost use Rattle.oauth2_wire.specs.Request.{HttpRequest, IsRequestOf, basic_of, view_of};
ghost use Rattle.oauth2_requests.specs.Base.{configuration_of};
ghost use Rattle.oauth2.specs.NewRequest.{base_of};
ghost use Rattle.oauth2_requests.specs.Code.{code_pairs};
ghost use Rattle.oauth2_requests.specs.Password.{password_pairs};

use crate::client::{CodeClient, TokenClient};
use oauth2::basic::{BasicErrorResponse, BasicTokenResponse};
use oauth2::{
    AuthorizationCode, ClientCredentialsTokenRequest, FnClient, FromJson, HttpRequest,
    HttpResponse, PkceCodeVerifier, RefreshToken, RequestFault, RequestTokenError,
    ResourceOwnerPassword, ResourceOwnerUsername, Scope,
};
use std::alloc::{AllocError, Global};

/// Whether a client has no token endpoint: a call that needs one then returns an error.
pub fn lacks_token_url(alloc: Global, client: &TokenClient) -> bool
    ensures { IsTrue result ↔ (client.now.token_url ≡ None) }
{
    client.exchange_client_credentials(alloc).is_err()
}

/// The request for a code and its verifier.
pub fn code_request(
    alloc: Global,
    client: &CodeClient,
    code: AuthorizationCode,
    verifier: PkceCodeVerifier,
) -> Result<HttpRequest, RequestFault>
    ensures ok { IfOk result (λ r. (endpoint : Addressed) × (client.now.token_url ≡ Some endpoint)
        × IsRequestOf (configuration_of (base_of client.now)
        (code_pairs code (Some verifier)) client.now.redirect_url)
        (serialize endpoint.url) (view_of r)) }
    ensures not_http { result ≡ Err RequestFault.NotHttp → (endpoint : Addressed)
        × (client.now.token_url ≡ Some endpoint) × SpellsNone (serialize endpoint.url) }
{
    client
        .exchange_code(alloc, code)
        .set_pkce_verifier(verifier)
        .prepare_request(alloc)
}

/// The request for a refresh token, with two scopes.
pub fn refresh_request(
    alloc: Global,
    client: &CodeClient,
    token: &RefreshToken,
    first: Scope,
    second: Scope,
) -> Result<HttpRequest, RequestFault>
    requires { client.now.client_secret ≡ None }
    ensures basic { IfOk result (λ r. basic_of (view_of r) ≡ None) }
    ensures form { IfOk result (λ r. form (view_of r).body ≡
        (codes "grant_type", codes "refresh_token") ∷ (codes "refresh_token", token.now)
        ∷ (codes "scope", first ++ codes " " ++ second)
        ∷ (codes "client_id", client.now.client_id) ∷ []) }
    ensures not_http { result ≡ Err RequestFault.NotHttp → (endpoint : Addressed)
        × (client.now.token_url ≡ Some endpoint) × SpellsNone (serialize endpoint.url) }
{
    client
        .exchange_refresh_token(alloc, token)
        .add_scope(first)?
        .add_scope(second)?
        .prepare_request(alloc)
}

/// The request with all scopes of a list added.
pub fn with_all_scopes<'a>(
    request: ClientCredentialsTokenRequest<'a, BasicErrorResponse, BasicTokenResponse>,
    scopes: Vec<Scope>,
) -> Result<ClientCredentialsTokenRequest<'a, BasicErrorResponse, BasicTokenResponse>, AllocError>
    ensures { IfOk result (λ r. r.base ≡
        record request.entry.base { scope = with_scopes request.entry.base.scope scopes.items }) }
{
    request.add_scopes(scopes)
}

/// Requests a token for a user's name and password (RFC 6749, section 4.3), by an HTTP client that
/// calls a closure. If it returns a token, the closure was called exactly once, and the token is
/// what its reply is read as.
pub fn password_token<F: FnMut(HttpRequest) -> Result<HttpResponse, ()>>(
    alloc: Global,
    client: &CodeClient,
    username: &ResourceOwnerUsername,
    password: &ResourceOwnerPassword,
    http_client: &mut FnClient<F, ()>,
) -> Result<BasicTokenResponse, RequestTokenError<(), BasicErrorResponse>>
    requires { F.IsAlwaysCallable http_client.old }
    ensures { IfOk result (λ token. (request : HttpRequest)
        × ((endpoint : Addressed) × (client.now.token_url ≡ Some endpoint)
        × IsRequestOf (configuration_of (base_of client.now)
        (password_pairs username.now password.now) None)
        (serialize endpoint.url) (view_of request))
        × (reply : HttpResponse) × F.step http_client.old request (Ok reply) http_client.new
        × (answer_of client.now.reply_rule ⟦<BasicTokenResponse as FromJson>⟧.reading
        ⟦<BasicErrorResponse as FromJson>⟧.reading (reply_of reply)
        ≡ accepted (⟦<BasicTokenResponse as FromJson>⟧.meaning token))) }
{
    client
        .exchange_password(alloc, username, password)
        .request(alloc, http_client)
}
