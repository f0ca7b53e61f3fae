//! Requests for a token by a grant type that is a URI.

ghost use Rattle.std.specs.Prelude.{◌≡◌, ◌≢◌, ◌⊎◌, false, map};
ghost use Rattle.std.specs.Prelude.{IfOk, IfErr, IsTrue};
ghost use Rattle.oauth2_grant_commands.specs.TokenGrant as spec;
ghost use Rattle.oauth2_grants.specs.Extension.{with_params};
ghost use Rattle.oauth2_grants.specs.GrantText.{grant_fault_text};
ghost use Rattle.oauth2_grants.specs.declared.grant_fault.GrantFault.TheVariants.{
  Memory,
  NameIsTaken,
};
ghost use Rattle.oauth2_request_commands.specs.Out.{Adds, AddsOutput, failure_output};
ghost use Rattle.oauth2_script.specs.Views.{client_view};
ghost use Rattle.oauth2_wire.specs.ServerView.{pair_texts};
ghost use Rattle.oauth2_world.specs.Replay.{client_replies};
ghost use Rattle.oauth2_world.specs.declared.event.FaultKind.TheVariants.{TakenParameter};

use oauth2::basic::{BasicErrorResponse, BasicTokenResponse};
use oauth2::{ParamText, TokenUrl};
use oauth2_grants::{ExtensionTokenRequest, GrantFault, TokenClient};
use oauth2_request_commands::{RunStatus, show_end, show_error_text};
use oauth2_script::ClientPart;
use oauth2_world::{Events, FaultKind, ScriptedClient};
use std::alloc::{AllocError, Global};

// A request whose reply is read as a token.
pub(crate) type TokenGrant<'a> = ExtensionTokenRequest<'a, BasicErrorResponse, BasicTokenResponse>;

// The client of the script at this token endpoint.
pub(crate) fn token_client<'a>(client: &'a ClientPart, url: &'a TokenUrl) -> TokenClient<'a>
    ensures { result ≡ spec.token_client (client_view client.now) url.now }
{
    TokenClient::new(
        &client.auth_type,
        &client.id,
        client.secret.as_ref(),
        client.reply_rule,
        url,
    )
}

// Adds each of these parameters, in order, after those of the request.
pub(crate) fn with_extra<'a, TE, TR>(
    request: ExtensionTokenRequest<'a, TE, TR>,
    extra: &[(String, String)],
) -> Result<ExtensionTokenRequest<'a, TE, TR>, GrantFault>
    ensures ok { let pairs = map pair_texts extra.now in
        IfOk result (λ r. (spec.has_taken_name pairs ≡ false)
        × (r ≡ with_params request.entry pairs)) }
    ensures err { let pairs = map pair_texts extra.now in
        IfErr result (λ e. (e ≡ Memory)
        ⊎ ((e ≡ NameIsTaken) × IsTrue (spec.has_taken_name pairs))) }
{
    let mut request = request;
    for (name, value) in extra {
        request = request.add_param(
            ParamText::Borrowed(name.as_str()),
            ParamText::Borrowed(value.as_str()),
        )?;
    }
    Ok(request)
}

// Adds the event of a fault other than that memory ran out.
pub(crate) fn show_grant_fault(
    alloc: Global,
    events: &mut Events,
    fault: GrantFault,
) -> Result<RunStatus, AllocError>
    ensures { IfOk result (λ status. (fault ≢ Memory)
        × AddsOutput events.old events.new status
        (failure_output TakenParameter (grant_fault_text fault))) }
{
    match fault {
        GrantFault::Memory => Err(AllocError),
        _ => show_error_text(alloc, events, FaultKind::TakenParameter, &fault),
    }
}

// Sends the request with these parameters, and shows it and its result.
pub(crate) fn show_token_grant(
    alloc: Global,
    request: TokenGrant<'_>,
    extra: &[(String, String)],
    http_client: &mut ScriptedClient,
) -> Result<RunStatus, AllocError>
    ensures { IfOk result (λ status. http_client.new.is_starved ≡ false
        → Adds http_client.old.events http_client.new.events status
        (spec.WithExtra (spec.IsTokenAsked (client_replies http_client.old)) request.entry
        (map pair_texts extra.now))) }
{
    match with_extra(request, extra) {
        Ok(asked) => {
            let end = asked.request(alloc, http_client);
            show_end(alloc, &mut http_client.events, &end)
        }
        Err(fault) => show_grant_fault(alloc, &mut http_client.events, fault),
    }
}
