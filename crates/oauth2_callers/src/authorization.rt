//! Authorization URLs.

ghost use Rattle.std.specs.Prelude.{
  ◌≡◌,
  ◌↔◌,
  ◌++◌,
  ◌∷◌,
  [],
  codes,
  Some,
  None,
  IfOk,
  IfErr,
  IfSome,
  IsSome,
  IsTrue,
};
ghost use Rattle.url.specs.Parser.{IsOutOfRoom};
ghost use Rattle.url.specs.Parts.{serialize};
ghost use Rattle.oauth2_urls.specs.Addressed.{Addressed};
ghost use Rattle.oauth2_types.specs.Pkce.{HasValidLength};
ghost use Rattle.oauth2_form.specs.Pairs.{form};
ghost use Rattle.oauth2_wire.specs.Request.{IsRequestOf, view_of};
ghost use Rattle.oauth2_requests.specs.Code.{code_configuration};
ghost use Rattle.oauth2_form.specs.Query.{ExtendsQuery, query_form};
ghost use Rattle.oauth2.specs.CodeFlow.{PassesCheck, flow_exchange};
ghost use Rattle.oauth2_callers.specs.Login.{login_pairs};

use crate::client::{CodeClient, PlainClient};
use oauth2::{
    AuthorizationCode, CodeFlow, CodeFlowError, CsrfToken, EndpointMaybeSet, EndpointSet,
    ParamText, PkceCodeChallenge, PkceCodeVerifier, code_flow,
};
use std::alloc::Global;
use url::{ParseError, Url};

/// The authorization URL of a login with this state: the query of the endpoint's URL, then the
/// login's parameters.
pub fn login_url(
    alloc: Global,
    client: &CodeClient,
    state: CsrfToken,
) -> Result<(Url, CsrfToken), ParseError>
    ensures state { IfOk result (λ r. r.1 ≡ state) }
    ensures url { IfOk result (λ r. (endpoint : Addressed) × (client.now.auth_url ≡ Some endpoint)
        × ExtendsQuery endpoint.url r.0 (login_pairs client.now state)) }
    ensures refusal { IfErr result IsOutOfRoom }
{
    client.authorize_url(alloc, move || state).url(alloc)
}

/// Whether a login can be started: exactly if the client has an authorization endpoint.
pub fn login_url_if_set(
    alloc: Global,
    client: &PlainClient<EndpointMaybeSet>,
    state: CsrfToken,
) -> bool
    ensures { IsTrue result ↔ IsSome client.now.auth_url }
{
    client.authorize_url(alloc, move || state).is_ok()
}

/// The authorization URL of a login without a redirect URI, with a code challenge and an extra
/// parameter. The standard's parameters come first, the extra one last.
pub fn challenged_login(
    alloc: Global,
    client: &PlainClient<EndpointSet>,
    state: CsrfToken,
    challenge: PkceCodeChallenge,
    nonce: &str,
) -> Result<Url, ParseError>
    requires { client.now.redirect_url ≡ None }
    ensures refusal { IfErr result IsOutOfRoom }
    ensures url { IfOk result (λ url. (endpoint : Addressed)
        × (client.now.auth_url ≡ Some endpoint)
        × ExtendsQuery endpoint.url url (login_pairs client.now state
        ++ (codes "code_challenge", challenge.text)
        ∷ (codes "code_challenge_method", challenge.method)
        ∷ (codes "nonce", nonce.now) ∷ [])) }
{
    let request = client
        .authorize_url(alloc, move || state)
        .set_pkce_challenge(challenge)
        .add_extra_param(ParamText::Borrowed("nonce"), ParamText::Borrowed(nonce))?;
    let (url, _) = request.url(alloc)?;
    Ok(url)
}

/// The URL and the token request of one login, at an endpoint whose URL has no query. A server that
/// looks up parameters by their name finds a verifier that passes its check (RFC 7636, section
/// 4.6).
pub fn checked_login(
    alloc: Global,
    client: &CodeClient,
    state: CsrfToken,
    verifier: PkceCodeVerifier,
    code: AuthorizationCode,
) -> Result<CodeFlow, CodeFlowError>
    requires length { HasValidLength verifier }
    requires no_query { IfSome client.now.auth_url (λ endpoint. endpoint.url.query ≡ None) }
    ensures state { IfOk result (λ flow. flow.state ≡ state) }
    ensures request { IfOk result (λ flow. (endpoint : Addressed)
        × (client.now.token_url ≡ Some endpoint)
        × IsRequestOf (code_configuration (flow_exchange client.now endpoint verifier code))
        (serialize endpoint.url) (view_of flow.request)) }
    ensures check { IfOk result (λ flow. PassesCheck verifier (query_form flow.url)
        (form (view_of flow.request).body)) }
{
    code_flow(alloc, client, state, verifier, code)
}
