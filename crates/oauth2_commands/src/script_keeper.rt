//! The keeper of the command `keeper`, and what one call of it shows.

ghost use Rattle.std.specs.Prelude.{◌≡◌, false, pos, int_div, map, option_map, IfOk};
ghost use Rattle.std.specs.Duration.{as_nanos};
ghost use Rattle.oauth2_commands.specs.Keeper as spec;
ghost use Rattle.oauth2_commands.specs.private.Kept.{standing, CallAdds};
ghost use Rattle.oauth2_request_commands.specs.Out.{success_output, AddsOutput};
ghost use Rattle.oauth2_world.specs.Quotation.{quotation};

use jiff::Timestamp;
use oauth2::basic::BasicErrorResponse;
use oauth2::{AccessToken, EndpointMaybeSet};
use oauth2_keeper::{BasicPatientKeeper, BasicTokenKeeper, PatientError};
use oauth2_request_commands::{RunStatus, add_answer, show_error_text, show_fault};
use oauth2_world::{Event, Events, FaultKind, NoReply, ScriptedClient, quoted};
use std::alloc::{AllocError, Global};
use std::time::Duration;

/// A keeper for the client of a script, without a wait.
pub type PlainKeeper<'a> = BasicTokenKeeper<
    'a,
    EndpointMaybeSet,
    EndpointMaybeSet,
    EndpointMaybeSet,
    EndpointMaybeSet,
>;

/// The keeper of a script, which makes no request for some time after one that failed.
pub type ScriptKeeper<'a> = BasicPatientKeeper<
    'a,
    EndpointMaybeSet,
    EndpointMaybeSet,
    EndpointMaybeSet,
    EndpointMaybeSet,
>;

/// The keeper with a wait of `retry_after` after a request that failed; `None` means no wait. It
/// hands out tokens of these types; `None` means any.
pub fn waiting_keeper<'a>(
    keeper: PlainKeeper<'a>,
    retry_after: Option<Duration>,
    token_types: Option<&'a [&'a str]>,
) -> ScriptKeeper<'a>
    ensures { result ≡ spec.waiting_keeper keeper.entry (option_map as_nanos retry_after)
        (option_map (λ names. map (λ name. name.now) names.now) token_types.entry) }
{
    let wait = match retry_after {
        Some(wait) => wait,
        None => Duration::ZERO,
    };
    let keeper = keeper.set_retry_after(wait);
    match token_types {
        Some(token_types) => keeper.expecting_token_types(token_types),
        None => keeper.expecting_any_token_type(),
    }
}

fn show_kept(
    alloc: Global,
    events: &mut Events,
    token: &AccessToken,
) -> Result<RunStatus, AllocError>
    ensures { IfOk result (λ status. AddsOutput events.old events.new
        status (success_output (quotation token.now))) }
{
    let json = quoted(alloc, token.secret().as_str())?;
    let status = add_answer(events, json)?;
    Ok(status)
}

// The second of the end of a wait; none if the end is past the last `Timestamp`.
fn end_second(until: Option<Timestamp>) -> Option<i64>
    ensures { result
        ≡ option_map (λ moment. int_div moment.nanosecond (pos 1_000_000_000)) until }
{
    match until {
        Some(until) => Some(until.as_second()),
        None => None,
    }
}

// Adds the event that no request is made before `until`. The status is `Fault`.
fn show_wait(events: &mut Events, until: Option<Timestamp>) -> Result<RunStatus, AllocError>
    ensures { IfOk result (λ status.
        AddsOutput events.old events.new status (spec.waiting until)) }
{
    events.push(Event::Wait(end_second(until)))?;
    Ok(RunStatus::Fault)
}

// Adds the event why a keeper has no good token.
fn show_error(
    alloc: Global,
    events: &mut Events,
    error: &PatientError<NoReply, BasicErrorResponse>,
) -> Result<RunStatus, AllocError>
    ensures { IfOk result (λ status.
        AddsOutput events.old events.new status (spec.keeper_fault error.now)) }
{
    match error {
        PatientError::Request(fault) => show_fault(alloc, events, fault),
        PatientError::Waits(until) => show_wait(events, *until),
        PatientError::OtherTokenType => {
            show_error_text(alloc, events, FaultKind::OtherTokenType, error)
        }
    }
}

/// Calls the keeper once at `now`, and shows the request, if there is one, and the result.
pub fn show_call(
    alloc: Global,
    keeper: &mut ScriptKeeper<'_>,
    now: Timestamp,
    http_client: &mut ScriptedClient,
) -> Result<RunStatus, AllocError>
    ensures { IfOk result (λ status. http_client.new.is_starved ≡ false
        → (http_client.old.is_starved ≡ false)
        × CallAdds (standing keeper.old http_client.old) (standing keeper.new http_client.new)
        http_client.old.events http_client.new.events status now.nanosecond) }
{
    match keeper.keep_good(alloc, now, http_client) {
        Ok(()) => {
            let token = keeper.keeper().get().unwrap();
            show_kept(alloc, &mut http_client.events, token)
        }
        Err(error) => show_error(alloc, &mut http_client.events, &error),
    }
}
