//! The command `push`: the parameters of an authorization request are sent to the server.

ghost use Rattle.std.specs.Prelude.{◌≡◌, ◌≢◌, false, IfOk, List};
ghost use Rattle.oauth2_form.specs.Pairs.{Pair};
ghost use Rattle.oauth2_form.specs.Query.{ExtendsQuery};
ghost use Rattle.oauth2_grant_commands.specs.Push as spec;
ghost use Rattle.oauth2_pushed_requests.specs.FaultText.{push_fault_text};
ghost use Rattle.oauth2_pushed_requests.specs.declared.push_fault.PushFault.TheVariants.{Memory};
ghost use Rattle.oauth2_request_commands.specs.Faults.{end_output};
ghost use Rattle.oauth2_request_commands.specs.Out.{Adds, AddsOutput, failure_output};
ghost use Rattle.oauth2_request_commands.specs.private.Results.{error_seen};
ghost use Rattle.oauth2_script.specs.Views.{client_view, push_view};
ghost use Rattle.oauth2_world.specs.Replay.{client_replies};
ghost use Rattle.oauth2_world.specs.declared.event.FaultKind.TheVariants.{BadPush};

use oauth2::basic::BasicErrorResponse;
use oauth2::{AuthUrl, AuthorizationRequest, ClientId, RequestTokenError, TryClone};
use oauth2_pushed_requests::{
    PushFault, PushedAuthorizationRequest, PushedAuthorizationResponse, PushingClient,
};
use oauth2_request_commands::{
    RunStatus, authorization_url, show_answer, show_error_text, show_fault, show_missing,
};
use oauth2_script::{ClientPart, PushParams};
use oauth2_world::{Event, Events, FaultKind, NoReply, ScriptedClient};
use std::alloc::{AllocError, Global};
use url::Url;

// The result of a push by the scripted client.
type PushEnd = Result<PushedAuthorizationResponse, RequestTokenError<NoReply, BasicErrorResponse>>;

// A URL with all the parameters that are pushed, those of the client's assertion too. It is not
// shown, and nobody is sent to it.
fn url_to_push(
    alloc: Global,
    client: &ClientPart,
    auth_url: &AuthUrl,
    params: PushParams,
) -> Result<Url, AllocError>
    ensures { let pairs =
        spec.pairs_to_push (client_view client.now) (push_view params) auth_url.now in
        IfOk result (λ url. ExtendsQuery auth_url.now.url url pairs) }
{
    let mut authorize = params.authorize;
    let mut asserted = params.asserted;
    authorize.extra_params.append(&mut asserted)?;
    let state = authorize.state.try_clone(alloc)?;
    let redirect = client.redirect.as_ref();
    let request = AuthorizationRequest::new(alloc, auth_url, &client.id, redirect, state);
    let made = authorization_url(alloc, request, authorize)?;
    Ok(made.0)
}

// Adds the event of the URL that the user is sent to, and then the response as the answer.
fn show_response(
    alloc: Global,
    events: &mut Events,
    auth_url: &AuthUrl,
    client_id: &ClientId,
    response: &PushedAuthorizationResponse,
) -> Result<RunStatus, AllocError>
    ensures { IfOk result (λ status. AddsOutput events.old events.new
        status (spec.pushed_output client_id.now auth_url.now response.now)) }
{
    match response.authorization_url(alloc, auth_url, client_id) {
        Ok(url) => {
            let text = String::from_str(alloc, url.as_str())?;
            events.push(Event::Url(text))?;
            show_answer(alloc, events, response)
        }
        Err(_) => Err(AllocError),
    }
}

// Adds the events of the result of a push.
fn show_pushed(
    alloc: Global,
    events: &mut Events,
    auth_url: &AuthUrl,
    client_id: &ClientId,
    end: &PushEnd,
) -> Result<RunStatus, AllocError>
    ensures { IfOk result (λ status. AddsOutput events.old events.new
        status (end_output error_seen (spec.pushed_output client_id.now auth_url.now) end.now)) }
{
    match end {
        Ok(response) => show_response(alloc, events, auth_url, client_id, response),
        Err(fault) => show_fault(alloc, events, fault),
    }
}

// Adds the event of a fault other than that memory ran out.
fn show_push_fault(
    alloc: Global,
    events: &mut Events,
    fault: PushFault,
) -> Result<RunStatus, AllocError>
    ensures { IfOk result (λ status. (fault ≢ Memory)
        × AddsOutput events.old events.new status
        (failure_output BadPush (push_fault_text fault))) }
{
    match fault {
        PushFault::Memory => Err(AllocError),
        _ => show_error_text(alloc, events, FaultKind::BadPush, &fault),
    }
}

// Pushes the parameters of this URL to the endpoint, and shows the request and its result.
fn push(
    alloc: Global,
    client: &ClientPart,
    auth_url: &AuthUrl,
    endpoint: &Url,
    url: &Url,
    http_client: &mut ScriptedClient,
) -> Result<RunStatus, AllocError>
    ensures { IfOk result (λ status. http_client.new.is_starved ≡ false
        → (pairs : List Pair) → ExtendsQuery auth_url.now.url url.now pairs
        → Adds http_client.old.events http_client.new.events status
        (spec.IsPushedOrRefused (spec.pushing_client (client_view client.now) endpoint.now)
        auth_url.now pairs (client_replies http_client.old))) }
{
    let pushing = PushingClient::new(
        &client.auth_type,
        &client.id,
        client.secret.as_ref(),
        client.reply_rule,
        endpoint,
    );
    match PushedAuthorizationRequest::<BasicErrorResponse>::new(alloc, pushing, auth_url, url) {
        Ok(pushed) => {
            let end = pushed.request(alloc, http_client);
            show_pushed(alloc, &mut http_client.events, auth_url, &client.id, &end)
        }
        Err(fault) => show_push_fault(alloc, &mut http_client.events, fault),
    }
}

// Pushes the parameters for this authorization endpoint, and shows the request and its result.
fn push_for(
    alloc: Global,
    client: &ClientPart,
    params: PushParams,
    auth_url: &AuthUrl,
    http_client: &mut ScriptedClient,
) -> Result<RunStatus, AllocError>
    ensures { IfOk result (λ status. http_client.new.is_starved ≡ false
        → Adds http_client.old.events http_client.new.events status
        (spec.IsPushFor (client_view client.now) (push_view params)
        (client_replies http_client.old) auth_url.now)) }
{
    match &client.endpoints.push {
        Some(endpoint) => {
            let url = url_to_push(alloc, client, auth_url, params)?;
            push(alloc, client, auth_url, endpoint, &url, http_client)
        }
        None => show_missing(
            alloc,
            &mut http_client.events,
            "pushed authorization request",
        ),
    }
}

// Pushes an authorization request, and shows the request and its result (RFC 9126, sections 2.1 and
// 4).
pub(crate) fn run_push(
    alloc: Global,
    client: &ClientPart,
    params: PushParams,
    http_client: &mut ScriptedClient,
) -> Result<RunStatus, AllocError>
    ensures { IfOk result (λ status. http_client.new.is_starved ≡ false
        → Adds http_client.old.events http_client.new.events status
        (spec.IsPushOutput (client_view client.now) (push_view params)
        (client_replies http_client.old))) }
{
    match &client.endpoints.auth {
        Some(auth_url) => push_for(alloc, client, params, auth_url, http_client),
        None => show_missing(alloc, &mut http_client.events, "authorization"),
    }
}
