//! The events of a run as lines.

ghost use Rattle.std.specs.Prelude.{◌≡◌, ◌++◌, map, string_bytes, IfOk, OnOk};
ghost use Rattle.std.specs.Duration.{as_nanos};
ghost use Rattle.oauth2_world.specs.Events.{details_of, event_of, fault_seen};
ghost use Rattle.oauth2_results.specs.Lines as spec;

use crate::json_text::optional_number;
use crate::request_lines::print_request;
use crate::words::cause_name;
use oauth2_world::{Event, Fault, FaultDetails, quoted};
use std::alloc::{AllocError, Global};
use std::time::Duration;

// The line of a sleep: whole seconds, and nine digits of nanoseconds.
#[tactic(auto, unfolding(crate::specs::Lines::sleep_line))]
fn print_sleep(lines: &mut String, duration: Duration) -> Result<(), AllocError>
    ensures { OnOk result (string_bytes lines.new ≡ string_bytes lines.old
        ++ spec.sleep_line (as_nanos duration)) }
{
    let seconds = duration.as_secs();
    let nanos = duration.subsec_nanos();
    writeln!(lines, "sleep {seconds}.{nanos:09}")
}

#[tactic(auto, unfolding(crate::specs::Lines::url_line))]
fn print_url(alloc: Global, lines: &mut String, url: &str) -> Result<(), AllocError>
    ensures { OnOk result (string_bytes lines.new
        ≡ string_bytes lines.old ++ spec.url_line url.now) }
{
    let url = quoted(alloc, url)?;
    writeln!(lines, "url {url}")
}

#[tactic(auto, unfolding(crate::specs::Lines::answer_line))]
fn print_answer(lines: &mut String, json: &str) -> Result<(), AllocError>
    ensures { OnOk result (string_bytes lines.new
        ≡ string_bytes lines.old ++ spec.answer_line json.now) }
{
    writeln!(lines, "answer ok {json}")
}

// What stands behind the text of a fault: the member that could not be read, and the cause.
#[tactic(auto, unfolding(crate::specs::Lines::unread_words))]
fn unread_words(alloc: Global, details: &FaultDetails) -> Result<String, AllocError>
    ensures { IfOk result (λ s. string_bytes s ≡ spec.unread_words (details_of details.now)) }
{
    match details {
        FaultDetails::Unread(fault) => {
            let member = quoted(alloc, fault.member.as_str())?;
            let cause = cause_name(fault.cause);
            let words = format!(in alloc; " {member} {cause}")?;
            Ok(words)
        }
        FaultDetails::None | FaultDetails::Refused(_) => Ok(String::new(alloc)),
    }
}

#[tactic(auto, unfolding(crate::specs::Lines::fault_line))]
fn print_fault(alloc: Global, lines: &mut String, fault: &Fault) -> Result<(), AllocError>
    ensures { OnOk result (string_bytes lines.new
        ≡ string_bytes lines.old ++ spec.fault_line (fault_seen fault.now)) }
{
    let text = quoted(alloc, fault.text.as_str())?;
    let unread = unread_words(alloc, &fault.details)?;
    writeln!(lines, "answer fault {text}{unread}")
}

#[tactic(auto, unfolding(crate::specs::Lines::wait_line))]
fn print_wait(alloc: Global, lines: &mut String, until: Option<i64>) -> Result<(), AllocError>
    ensures { OnOk result (string_bytes lines.new
        ≡ string_bytes lines.old ++ spec.wait_line until) }
{
    let until = optional_number(alloc, until)?;
    writeln!(lines, "answer waits {until}")
}

#[tactic(auto, unfolding(crate::specs::Lines::step_line))]
fn print_step(lines: &mut String, keeper: u8, text: &str) -> Result<(), AllocError>
    ensures { OnOk result (string_bytes lines.new
        ≡ string_bytes lines.old ++ spec.step_line keeper text.now) }
{
    writeln!(lines, "keeper {keeper} {text}")
}

#[tactic(auto, unfolding(crate::specs::Lines::bad_script_line))]
fn print_bad_script(lines: &mut String) -> Result<(), AllocError>
    ensures { OnOk result (string_bytes lines.new
        ≡ string_bytes lines.old ++ spec.bad_script_line) }
{
    writeln!(lines, "bad script")
}

fn print_event(alloc: Global, lines: &mut String, event: &Event) -> Result<(), AllocError>
    ensures { OnOk result (string_bytes lines.new
        ≡ string_bytes lines.old ++ spec.event_lines (event_of event.now)) }
{
    match event {
        Event::Exchange(request, _) => print_request(alloc, lines, request),
        Event::Sleep(duration) => print_sleep(lines, *duration),
        Event::Url(url) => print_url(alloc, lines, url.as_str()),
        Event::Answer(json) => print_answer(lines, json.as_str()),
        Event::Fault(fault) => print_fault(alloc, lines, fault),
        Event::Wait(until) => print_wait(alloc, lines, *until),
        Event::Step(keeper, text) => print_step(lines, *keeper, text.as_str()),
        Event::BadScript(_) => print_bad_script(lines),
    }
}

/// The events as lines, in order.
pub fn lines_of(alloc: Global, events: &[Event]) -> Result<String, AllocError>
    ensures { IfOk result (λ s. string_bytes s ≡ spec.lines_of (map event_of events.now)) }
{
    let mut lines = String::new(alloc);
    for event in events {
        print_event(alloc, &mut lines, event)?;
    }
    Ok(lines)
}
