//! What the output shows of the result of a request.

ghost use Rattle.std.specs.Prelude.{◌≡◌, Some, Ok, false, string_bytes};
ghost use Rattle.std.specs.Prelude.{IfOk, IsOkAnd, IfSome};
ghost use Rattle.url.specs.Parts.{serialize};
ghost use Rattle.serde_json.specs.Data.{Data};
ghost use Rattle.serde_json.specs.Written.{compact_text, has_float};
ghost use Rattle.oauth2_codes.specs.ErrorCodes.{error_code};
ghost use Rattle.oauth2_codes.specs.ErrorResponse.{parts_of};
ghost use Rattle.oauth2_json.specs.Reading.{fault_of};
ghost use Rattle.oauth2_urls.specs.Addressed.{Addressed};
ghost use Rattle.oauth2_wire.specs.declared.content_type.ReplyRule.{ReplyRule};
ghost use Rattle.oauth2_wire.specs.Expected.{Configuration};
ghost use Rattle.oauth2_wire.specs.Once.{AsksOnce};
ghost use Rattle.oauth2_wire.specs.Request.{IsRequestOf};
ghost use Rattle.oauth2_request_commands.specs.Client.{missing};
ghost use Rattle.oauth2_request_commands.specs.Exchange.{token_answer, IsTokenShown};
ghost use Rattle.oauth2_request_commands.specs.Out.{success_output, failure_output, fault_shown};
ghost use Rattle.oauth2_request_commands.specs.Out.{members_text, not_read, AddsOutput, Adds};
ghost use Rattle.oauth2_world.specs.Events.{fault_seen, refused};
ghost use Rattle.oauth2_world.specs.declared.event.FaultKind.TheVariants.{ErrorResponse};
ghost use Rattle.oauth2_world.specs.Replay.{ReplaysOrStarves, client_replies};
ghost use Rattle.oauth2_world.specs.declared.replay.ScriptedClient.{ScriptedClient};
ghost use Rattle.oauth2_request_commands.specs.Faults.{configuration_output, fault_output};
ghost use Rattle.oauth2_request_commands.specs.Faults.{end_output};
ghost use Rattle.oauth2_request_commands.specs.private.Results.{revocation_output, token_meaning};

use crate::shown_error::ShownError;
use crate::status::RunStatus;
use oauth2::basic::{BasicErrorResponse, BasicRevocationErrorResponse, BasicTokenResponse};
use oauth2::{ConfigurationError, ParseFault, RequestTokenError, ToJson, WriteError, compact};
use oauth2_world::{
    Event, Events, Fault as FaultEvent, FaultDetails, FaultKind, NoReply, ScriptedClient,
};
use std::alloc::{AllocError, Global};
use std::fmt::Display;

/// The error of a request of the scripted client.
pub type Fault = RequestTokenError<NoReply, BasicErrorResponse>;

/// The error of a revocation request of the scripted client.
pub type RevocationFault = RequestTokenError<NoReply, BasicRevocationErrorResponse>;

/// Adds the event of a fault. The status is `Fault`.
pub fn add_fault(events: &mut Events, fault: FaultEvent) -> Result<RunStatus, AllocError>
    ensures { IfOk result (λ status.
        AddsOutput events.old events.new status (fault_shown (fault_seen fault))) }
{
    events.push(Event::Fault(fault))?;
    Ok(RunStatus::Fault)
}

/// Adds the event of an answer; `json` is a JSON text. The status is `Answered`.
pub fn add_answer(events: &mut Events, json: String) -> Result<RunStatus, AllocError>
    ensures { IfOk result (λ status.
        AddsOutput events.old events.new status (success_output (string_bytes json))) }
{
    events.push(Event::Answer(json))?;
    Ok(RunStatus::Answered)
}

// Adds the event of a fault of which nothing is known but its kind and its text.
fn add_failure(events: &mut Events, kind: FaultKind, text: String) -> Result<RunStatus, AllocError>
    ensures { IfOk result (λ status.
        AddsOutput events.old events.new status (failure_output kind (string_bytes text))) }
{
    let fault = FaultEvent {
        kind,
        text,
        details: FaultDetails::None,
    };
    let status = add_fault(events, fault)?;
    Ok(status)
}

// Adds the event of a body that could not be read.
fn show_unread(
    alloc: Global,
    events: &mut Events,
    fault: &ParseFault,
) -> Result<RunStatus, AllocError>
    ensures { IfOk result (λ status.
        AddsOutput events.old events.new status (not_read (fault_of fault.now))) }
{
    let fault = FaultEvent {
        kind: FaultKind::UnreadReply,
        text: String::from_str(alloc, "Failed to parse server response")?,
        details: FaultDetails::Unread(ParseFault {
            member: String::from_str(alloc, fault.member.as_str())?,
            cause: fault.cause,
        }),
    };
    let status = add_fault(events, fault)?;
    Ok(status)
}

/// Adds the event of a fault of this kind, with the text of this error. The status is `Fault`.
pub fn show_error_text<E: Display>(
    alloc: Global,
    events: &mut Events,
    kind: FaultKind,
    error: &E,
) -> Result<RunStatus, AllocError>
    ensures { IfOk result (λ status. IfSome (E.output error.now) (λ text.
        AddsOutput events.old events.new status (failure_output kind text))) }
{
    let text = error.to_string(alloc)?;
    let status = add_failure(events, kind, text)?;
    Ok(status)
}

// Adds the event of an error response, which this text tells.
fn show_refused<T: ShownError>(
    alloc: Global,
    events: &mut Events,
    text: String,
    error: &T,
) -> Result<RunStatus, AllocError>
    ensures { IfOk result (λ status. AddsOutput events.old events.new status (fault_shown (record {
      kind = ErrorResponse;
      text = string_bytes text;
      details = refused (T.texts error.now);
    }))) }
{
    let fault = FaultEvent {
        kind: FaultKind::ErrorResponse,
        text,
        details: FaultDetails::Refused(error.shown_members(alloc)?),
    };
    let status = add_fault(events, fault)?;
    Ok(status)
}

/// Adds the event of the error of a request. If the body could not be read, it names the member and
/// the cause, and that of an error response has its members. The status is `Fault`.
pub fn show_fault<T: ShownError + Display>(
    alloc: Global,
    events: &mut Events,
    fault: &RequestTokenError<NoReply, T>,
) -> Result<RunStatus, AllocError>
    ensures { IfOk result (λ status.
        ((e : T) → T.output e ≡ Some (members_text (T.texts e)))
        → AddsOutput events.old events.new status (fault_output T.texts fault.now)) }
{
    match fault {
        RequestTokenError::Parse(fault, _) => {
            let status = show_unread(alloc, events, fault)?;
            Ok(status)
        }
        RequestTokenError::ServerResponse(error) => {
            let text = fault.to_string(alloc)?;
            let status = show_refused(alloc, events, text, error)?;
            Ok(status)
        }
        RequestTokenError::Request(_) => {
            let status = show_error_text(alloc, events, FaultKind::RequestFailed, fault)?;
            Ok(status)
        }
        RequestTokenError::Other(_) => {
            let status = show_error_text(alloc, events, FaultKind::OtherError, fault)?;
            Ok(status)
        }
        RequestTokenError::Memory { .. } => {
            let status = show_error_text(alloc, events, FaultKind::OutOfMemory, fault)?;
            Ok(status)
        }
    }
}

// The compact JSON of a value that can be written as JSON and has no float.
fn json_of<T: ToJson>(alloc: Global, value: &T) -> Result<String, AllocError>
    requires { IsOkAnd (T.writing value.now) (λ d. has_float d ≡ false) }
    ensures { IfOk result (λ s. (d : Data) → T.writing value.now ≡ Ok d
        → string_bytes s ≡ compact_text d) }
{
    match compact(alloc, value) {
        Ok(json) => Ok(json),
        Err(WriteError::Memory) => Err(AllocError),
        Err(WriteError::NameClash) => unreachable!(),
        Err(WriteError::Float) => unreachable!(),
    }
}

/// Adds the event of an answer, as compact JSON. The status is `Answered`. The value must be one
/// that can be written as JSON, and have no float.
pub fn show_answer<A: ToJson>(
    alloc: Global,
    events: &mut Events,
    answer: &A,
) -> Result<RunStatus, AllocError>
    requires { IsOkAnd (A.writing answer.now) (λ d. has_float d ≡ false) }
    ensures { IfOk result (λ status. (d : Data) → A.writing answer.now ≡ Ok d
        → AddsOutput events.old events.new status (success_output (compact_text d))) }
{
    let json = json_of(alloc, answer)?;
    let status = add_answer(events, json)?;
    Ok(status)
}

/// Adds the event of the result of a request. Each value of `A` must be one that can be written as
/// JSON, and have no float.
pub fn show_end<A: ToJson, T: ShownError + Display>(
    alloc: Global,
    events: &mut Events,
    end: &Result<A, RequestTokenError<NoReply, T>>,
) -> Result<RunStatus, AllocError>
    requires { (a : A) → IsOkAnd (A.writing a) (λ d. has_float d ≡ false) }
    ensures { IfOk result (λ status. (value : A → Data) → ((a : A) → A.writing a ≡ Ok (value a))
        → ((e : T) → T.output e ≡ Some (members_text (T.texts e)))
        → AddsOutput events.old events.new status
        (end_output T.texts (λ a. success_output (compact_text (value a))) end.now)) }
{
    match end {
        Ok(answer) => show_answer(alloc, events, answer),
        Err(fault) => show_fault(alloc, events, fault),
    }
}

/// Adds the event of the result of a token request, which the client has sent.
pub fn show_token(
    alloc: Global,
    http_client: &mut ScriptedClient,
    end: &Result<BasicTokenResponse, Fault>,
) -> Result<RunStatus, AllocError>
    ensures { (before : ScriptedClient) (rule : ReplyRule) (c : Configuration)
        (endpoint : Addressed)
        → AsksOnce token_meaning (parts_of error_code) ReplaysOrStarves (token_answer rule)
        (IsRequestOf c) (serialize endpoint.url) before end.now http_client.old
        → IfOk result (λ status. http_client.new.is_starved ≡ false
        → Adds before.events http_client.new.events status
        (IsTokenShown rule c endpoint (client_replies before))) }
{
    show_end(alloc, &mut http_client.events, end)
}

/// Adds the event of the result of a revocation: the answer `null` for a success.
pub fn show_revocation(
    alloc: Global,
    events: &mut Events,
    end: &Result<(), RevocationFault>,
) -> Result<RunStatus, AllocError>
    ensures { IfOk result (λ status.
        AddsOutput events.old events.new status (revocation_output end.now)) }
{
    match end {
        Ok(()) => {
            let json = String::from_str(alloc, "null")?;
            let status = add_answer(events, json)?;
            Ok(status)
        }
        Err(fault) => show_fault(alloc, events, fault),
    }
}

/// Adds the event that the client lacks an endpoint, or that the URL of one is not `https`.
pub fn show_configuration_error(
    alloc: Global,
    events: &mut Events,
    error: &ConfigurationError,
) -> Result<RunStatus, AllocError>
    ensures { IfOk result (λ status.
        AddsOutput events.old events.new status (configuration_output error.now)) }
{
    match error {
        ConfigurationError::MissingUrl(_) => {
            let status = show_error_text(alloc, events, FaultKind::MissingEndpoint, error)?;
            Ok(status)
        }
        ConfigurationError::InsecureUrl(_) => {
            let status = show_error_text(alloc, events, FaultKind::InsecureEndpoint, error)?;
            Ok(status)
        }
    }
}

/// Adds the event that the client lacks the endpoint of this name. The status is `Fault`.
pub fn show_missing(
    alloc: Global,
    events: &mut Events,
    name: &'static str,
) -> Result<RunStatus, AllocError>
    ensures { IfOk result (λ status.
        AddsOutput events.old events.new status (missing name.now)) }
{
    let error = ConfigurationError::MissingUrl(name);
    show_configuration_error(alloc, events, &error)
}
