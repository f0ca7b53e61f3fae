//! The command `extension`: a token by any grant type that is a URI.

ghost use Rattle.std.specs.Prelude.{◌≡◌, false, IfOk};
ghost use Rattle.oauth2_grant_commands.specs.Extension as spec;
ghost use Rattle.oauth2_grants.specs.Extension.{new_extension_request};
ghost use Rattle.oauth2_request_commands.specs.Out.{Adds};
ghost use Rattle.oauth2_script.specs.Views.{client_view, extension_view};
ghost use Rattle.oauth2_world.specs.Replay.{client_replies};

use crate::token_grant::{TokenGrant, show_token_grant, token_client};
use oauth2_grants::{ExtensionTokenRequest, TokenClient};
use oauth2_request_commands::{RunStatus, show_missing};
use oauth2_script::{AbsoluteUri, ClientPart, ExtensionParams};
use oauth2_world::ScriptedClient;
use std::alloc::{AllocError, Global};

fn new_request<'a>(
    alloc: Global,
    client: TokenClient<'a>,
    grant_type: &'a AbsoluteUri,
) -> TokenGrant<'a>
    ensures { result ≡ new_extension_request client.entry grant_type.now }
{
    match ExtensionTokenRequest::new(alloc, client, grant_type.as_str()) {
        Ok(request) => request,
        Err(_) => unreachable!(),
    }
}

// Asks for a token by this grant type, and shows the request and its result (RFC 6749, section
// 4.5).
pub(crate) fn run_extension(
    alloc: Global,
    client: &ClientPart,
    params: ExtensionParams,
    http_client: &mut ScriptedClient,
) -> Result<RunStatus, AllocError>
    ensures { IfOk result (λ status. http_client.new.is_starved ≡ false
        → Adds http_client.old.events http_client.new.events status
        (spec.IsExtensionOutput (client_view client.now) (extension_view params)
        (client_replies http_client.old))) }
{
    let grant_type = params.grant_type;
    match &client.endpoints.token {
        Some(url) => {
            let request = new_request(alloc, token_client(client, url), &grant_type);
            let scoped = request.add_scopes(params.scopes)?;
            show_token_grant(alloc, scoped, params.extra_params.as_slice(), http_client)
        }
        None => show_missing(alloc, &mut http_client.events, "token"),
    }
}
