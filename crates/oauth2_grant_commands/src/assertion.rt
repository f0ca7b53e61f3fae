//! The command `assertion`: a token by an assertion of another party.

ghost use Rattle.std.specs.Prelude.{◌≡◌, false, IfOk};
ghost use Rattle.oauth2_grant_commands.specs.Assertion as spec;
ghost use Rattle.oauth2_request_commands.specs.Out.{Adds};
ghost use Rattle.oauth2_script.specs.Views.{assertion_view, client_view};
ghost use Rattle.oauth2_world.specs.Replay.{client_replies};

use crate::token_grant::{TokenGrant, show_token_grant, token_client};
use oauth2_grants::{ExtensionTokenRequest, TokenClient};
use oauth2_request_commands::{RunStatus, show_missing};
use oauth2_script::{AssertionKind, AssertionParams, ClientPart};
use oauth2_world::ScriptedClient;
use std::alloc::{AllocError, Global};

fn bearer_request<'a>(
    alloc: Global,
    kind: AssertionKind,
    client: TokenClient<'a>,
    assertion: &str,
) -> Result<TokenGrant<'a>, AllocError>
    ensures { IfOk result (λ r. r ≡ spec.bearer_request kind client.entry assertion.now) }
{
    match kind {
        AssertionKind::Jwt => ExtensionTokenRequest::jwt_bearer(alloc, client, assertion),
        AssertionKind::Saml2 => ExtensionTokenRequest::saml2_bearer(alloc, client, assertion),
    }
}

// Asks for a token by this assertion, and shows the request and its result (RFC 7523, section
// 2.1; RFC 7522, section 2.1).
pub(crate) fn run_assertion(
    alloc: Global,
    client: &ClientPart,
    params: AssertionParams,
    http_client: &mut ScriptedClient,
) -> Result<RunStatus, AllocError>
    ensures { IfOk result (λ status. http_client.new.is_starved ≡ false
        → Adds http_client.old.events http_client.new.events status
        (spec.IsAssertionOutput (client_view client.now) (assertion_view params)
        (client_replies http_client.old))) }
{
    match &client.endpoints.token {
        Some(url) => {
            let asking = token_client(client, url);
            let request = bearer_request(alloc, params.kind, asking, params.assertion.as_str())?;
            let scoped = request.add_scopes(params.scopes)?;
            show_token_grant(alloc, scoped, params.extra_params.as_slice(), http_client)
        }
        None => show_missing(alloc, &mut http_client.events, "token"),
    }
}
