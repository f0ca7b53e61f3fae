//! The events of a run as JSON.

ghost use Rattle.std.specs.Prelude.{◌≡◌, IfOk, map, option_map, string_bytes};
ghost use Rattle.std.specs.Duration.{as_nanos};
ghost use Rattle.oauth2_script.specs.Gives.{script_fault_view};
ghost use Rattle.oauth2_script.specs.Views.{http_reply_view};
ghost use Rattle.oauth2_wire.specs.Request.{view_of};
ghost use Rattle.oauth2_world.specs.Events.{event_of};
ghost use Rattle.oauth2_world.specs.Replies.{view_of_http_reply};
ghost use Rattle.oauth2_results.specs.Result as spec;

use crate::fault_json::fault_json;
use crate::json_text::{list_text, object_text, optional_number};
use crate::reply_json::reply_json;
use crate::request_json::request_json;
use crate::scopes::scopes_json;
use oauth2_script::{HttpReply, ScriptFault};
use oauth2_wire::HttpRequest;
use oauth2_world::{Event, quoted};
use std::alloc::{AllocError, Global};
use std::time::Duration;

fn exchange_json(
    alloc: Global,
    request: &HttpRequest,
    reply: &Option<HttpReply>,
) -> Result<String, AllocError>
    ensures { IfOk result (λ s. string_bytes s ≡ spec.exchange_json (view_of request.now)
        (option_map (λ r. view_of_http_reply (http_reply_view r)) reply.now)) }
{
    let event = quoted(alloc, "exchange")?;
    let request = request_json(alloc, request)?;
    let reply = reply_json(alloc, reply)?;
    let members = [
        ("event", event.as_str()),
        ("request", request.as_str()),
        ("reply", reply.as_str()),
    ];
    let json = object_text(alloc, &members)?;
    Ok(json)
}

fn sleep_json(alloc: Global, duration: Duration) -> Result<String, AllocError>
    ensures { IfOk result (λ s. string_bytes s ≡ spec.sleep_json (as_nanos duration)) }
{
    let event = quoted(alloc, "sleep")?;
    let seconds = duration.as_secs().to_string(alloc)?;
    let nanoseconds = duration.subsec_nanos().to_string(alloc)?;
    let members = [
        ("event", event.as_str()),
        ("seconds", seconds.as_str()),
        ("nanoseconds", nanoseconds.as_str()),
    ];
    let json = object_text(alloc, &members)?;
    Ok(json)
}

fn url_json(alloc: Global, url: &str) -> Result<String, AllocError>
    ensures { IfOk result (λ s. string_bytes s ≡ spec.url_json url.now) }
{
    let event = quoted(alloc, "url")?;
    let url = quoted(alloc, url)?;
    let members = [("event", event.as_str()), ("url", url.as_str())];
    let json = object_text(alloc, &members)?;
    Ok(json)
}

fn answer_json(alloc: Global, answer: &str) -> Result<String, AllocError>
    ensures { IfOk result (λ s. string_bytes s ≡ spec.answer_json answer.now) }
{
    let event = quoted(alloc, "answer")?;
    let scopes = scopes_json(alloc, answer)?;
    let answer = String::from_str(alloc, answer)?;
    let members = [
        ("event", event.as_str()),
        ("answer", answer.as_str()),
        ("scopes", scopes.as_str()),
    ];
    let json = object_text(alloc, &members)?;
    Ok(json)
}

fn wait_json(alloc: Global, until: Option<i64>) -> Result<String, AllocError>
    ensures { IfOk result (λ s. string_bytes s ≡ spec.wait_json until) }
{
    let event = quoted(alloc, "wait")?;
    let until = optional_number(alloc, until)?;
    let members = [("event", event.as_str()), ("until", until.as_str())];
    let json = object_text(alloc, &members)?;
    Ok(json)
}

fn step_json(alloc: Global, keeper: u8, text: &str) -> Result<String, AllocError>
    ensures { IfOk result (λ s. string_bytes s ≡ spec.step_json keeper text.now) }
{
    let event = quoted(alloc, "step")?;
    let keeper = keeper.to_string(alloc)?;
    let text = quoted(alloc, text)?;
    let members = [
        ("event", event.as_str()),
        ("keeper", keeper.as_str()),
        ("text", text.as_str()),
    ];
    let json = object_text(alloc, &members)?;
    Ok(json)
}

fn bad_script_json(alloc: Global, fault: &ScriptFault) -> Result<String, AllocError>
    ensures { IfOk result (λ s. string_bytes s
        ≡ spec.bad_script_json (script_fault_view fault.now)) }
{
    let event = quoted(alloc, "bad_script")?;
    let member = quoted(alloc, fault.member.as_str())?;
    let why = quoted(alloc, fault.why.as_str())?;
    let members = [
        ("event", event.as_str()),
        ("member", member.as_str()),
        ("why", why.as_str()),
    ];
    let json = object_text(alloc, &members)?;
    Ok(json)
}

fn event_json(alloc: Global, event: &Event) -> Result<String, AllocError>
    ensures { IfOk result (λ s. string_bytes s ≡ spec.event_json (event_of event.now)) }
{
    match event {
        Event::Exchange(request, reply) => exchange_json(alloc, request, reply),
        Event::Sleep(duration) => sleep_json(alloc, *duration),
        Event::Url(url) => url_json(alloc, url.as_str()),
        Event::Answer(answer) => answer_json(alloc, answer.as_str()),
        Event::Fault(fault) => fault_json(alloc, fault),
        Event::Wait(until) => wait_json(alloc, *until),
        Event::Step(keeper, text) => step_json(alloc, *keeper, text.as_str()),
        Event::BadScript(fault) => bad_script_json(alloc, fault),
    }
}

/// The events as one JSON object and a newline.
#[tactic(auto, unfolding(crate::specs::Result::result_text))]
pub fn result_text(alloc: Global, events: &[Event]) -> Result<String, AllocError>
    ensures { IfOk result (λ s. string_bytes s ≡ spec.result_text (map event_of events.now)) }
{
    let mut items = Vec::new(alloc);
    for event in events {
        items.push(event_json(alloc, event)?)?;
    }
    let list = list_text(alloc, items.as_slice())?;
    let json = object_text(alloc, &[("events", list.as_str())])?;
    let text = format!(in alloc; "{json}\n")?;
    Ok(text)
}
