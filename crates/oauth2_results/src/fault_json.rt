//! Faults as JSON.

ghost use Rattle.std.specs.Prelude.{◌≡◌, IfOk, string_bytes};
ghost use Rattle.oauth2_json.specs.Reading.{fault_of};
ghost use Rattle.oauth2_world.specs.Events.{details_of, fault_seen, members_of};
ghost use Rattle.oauth2_results.specs.FaultJson as spec;

use crate::json_text::{object_text, optional_text};
use crate::words::{cause_name, kind_word};
use oauth2_json::ParseFault;
use oauth2_world::{ErrorMembers, Fault, FaultDetails, quoted};
use std::alloc::{AllocError, Global};

fn members_json(alloc: Global, members: &ErrorMembers) -> Result<String, AllocError>
    ensures { IfOk result (λ s. string_bytes s ≡ spec.members_json (members_of members.now)) }
{
    let error = quoted(alloc, members.error.as_str())?;
    let description = optional_text(alloc, &members.description)?;
    let uri = optional_text(alloc, &members.uri)?;
    let members = [
        ("error", error.as_str()),
        ("error_description", description.as_str()),
        ("error_uri", uri.as_str()),
    ];
    let json = object_text(alloc, &members)?;
    Ok(json)
}

fn parse_fault_json(alloc: Global, fault: &ParseFault) -> Result<String, AllocError>
    ensures { IfOk result (λ s. string_bytes s ≡ spec.parse_fault_json (fault_of fault.now)) }
{
    let member = quoted(alloc, fault.member.as_str())?;
    let cause = quoted(alloc, cause_name(fault.cause))?;
    let members = [("member", member.as_str()), ("cause", cause.as_str())];
    let json = object_text(alloc, &members)?;
    Ok(json)
}

fn error_json(alloc: Global, details: &FaultDetails) -> Result<String, AllocError>
    ensures { IfOk result (λ s. string_bytes s ≡ spec.error_json (details_of details.now)) }
{
    match details {
        FaultDetails::Refused(members) => members_json(alloc, members),
        FaultDetails::None | FaultDetails::Unread(_) => String::from_str(alloc, "null"),
    }
}

fn unread_json(alloc: Global, details: &FaultDetails) -> Result<String, AllocError>
    ensures { IfOk result (λ s. string_bytes s ≡ spec.unread_json (details_of details.now)) }
{
    match details {
        FaultDetails::Unread(fault) => parse_fault_json(alloc, fault),
        FaultDetails::None | FaultDetails::Refused(_) => String::from_str(alloc, "null"),
    }
}

/// A fault as a JSON object, with its name as an event.
pub fn fault_json(alloc: Global, fault: &Fault) -> Result<String, AllocError>
    ensures { IfOk result (λ s. string_bytes s ≡ spec.fault_json (fault_seen fault.now)) }
{
    let event = quoted(alloc, "fault")?;
    let kind = quoted(alloc, kind_word(fault.kind))?;
    let text = quoted(alloc, fault.text.as_str())?;
    let error = error_json(alloc, &fault.details)?;
    let unread = unread_json(alloc, &fault.details)?;
    let members = [
        ("event", event.as_str()),
        ("kind", kind.as_str()),
        ("text", text.as_str()),
        ("error", error.as_str()),
        ("unread", unread.as_str()),
    ];
    let json = object_text(alloc, &members)?;
    Ok(json)
}
