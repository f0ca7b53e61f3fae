//! A login whose URL and token request are made in one call.

ghost use Rattle.std.specs.Prelude.{◌≡◌, Some, IfOk};
ghost use Rattle.url.specs.Parts.{serialize};
ghost use Rattle.oauth2_types.specs.Pkce.{HasValidLength};
ghost use Rattle.oauth2_urls.specs.Addressed.{Addressed};
ghost use Rattle.oauth2_wire.specs.Request.{IsRequestOf, view_of};
ghost use Rattle.oauth2_requests.specs.Code.{code_configuration};
ghost use Rattle.oauth2.specs.CodeFlow.{flow_authorization, flow_exchange};
ghost use Rattle.oauth2_client_refusals_tests.specs.Urls.{LeadsTo};

use crate::clients::RowClient;
use crate::show::{show_post, show_url};
use oauth2::{AuthorizationCode, CodeFlow, CsrfToken, PkceCodeVerifier, code_flow};
use oauth2_refusals_support::{Ended, VERIFIER, text, verifier};
use std::alloc::Global;
use std::io::Write;

/// The URL and the request of one login.
pub fn login(
    alloc: Global,
    client: &RowClient,
    state: CsrfToken,
    verifier: PkceCodeVerifier,
    code: AuthorizationCode,
) -> Result<CodeFlow, Ended>
    requires { HasValidLength verifier }
    ensures url { IfOk result (λ flow. LeadsTo client.now
        (λ url. flow_authorization client.now url state verifier) (flow.url, flow.state)) }
    ensures request { IfOk result (λ flow. (endpoint : Addressed)
        × (client.now.token_url ≡ Some endpoint)
        × IsRequestOf (code_configuration (flow_exchange client.now endpoint verifier code))
        (serialize endpoint.url) (view_of flow.request)) }
{
    let flow = code_flow(alloc, client, state, verifier, code)?;
    Ok(flow)
}

/// Makes a login with the verifier of RFC 7636, appendix B, and prints it.
pub fn show_login<W: Write>(alloc: Global, client: &RowClient, out: &mut W) -> Result<(), Ended> {
    let state = CsrfToken::new(text(alloc, "csrf_token")?);
    let verifier = verifier(alloc, VERIFIER)?;
    let code = AuthorizationCode::new(text(alloc, "ccc")?);
    let flow = login(alloc, client, state, verifier, code)?;
    show_flow(alloc, &flow, out)
}

fn show_flow<W: Write>(alloc: Global, flow: &CodeFlow, out: &mut W) -> Result<(), Ended> {
    show_url(out, &flow.url, &flow.state)?;
    show_post(alloc, &flow.request, out)
}
