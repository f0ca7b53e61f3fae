//! Prints the lines of a row. Nothing here allocates.

use crate::ended::Ended;
use oauth2::{ParseFault, PkceCodeChallenge, PollEvent, PollRun};
use std::fmt::Display;
use std::io::Write;
use std::time::Duration;

pub(crate) fn show_challenge<W: Write>(
    out: &mut W,
    challenge: &PkceCodeChallenge,
) -> Result<(), Ended> {
    let method = challenge.method().as_str();
    writeln!(out, "challenge {:?} {method:?}", challenge.as_str())?;
    Ok(())
}

/// Prints a text by its `Display`.
pub fn show_text<W: Write, T: Display>(out: &mut W, text: &T) -> Result<(), Ended> {
    writeln!(out, "text {text}")?;
    Ok(())
}

/// Prints why a body cannot be read: the member at fault, and the cause.
pub fn show_fault<W: Write>(out: &mut W, fault: &ParseFault) -> Result<(), Ended> {
    writeln!(out, "fault {:?} {:?}", fault.member.as_str(), fault.cause)?;
    Ok(())
}

/// Prints how long the poll sleeps, in seconds with nine decimal places.
pub fn show_sleep<W: Write>(out: &mut W, duration: Duration) -> Result<(), Ended> {
    writeln!(
        out,
        "sleep {}.{:09}",
        duration.as_secs(),
        duration.subsec_nanos()
    )?;
    Ok(())
}

// Prints the events of a poll over lists, and its end.
pub(crate) fn show_run<W: Write>(out: &mut W, run: &PollRun) -> Result<(), Ended> {
    for event in &run.trace {
        match event {
            PollEvent::Reading(moment) => writeln!(out, "reading {}", moment.as_second())?,
            PollEvent::Request => writeln!(out, "request")?,
            PollEvent::Answer(answer) => writeln!(out, "answer {answer:?}")?,
            PollEvent::Sleep(duration) => show_sleep(out, *duration)?,
        }
    }
    writeln!(out, "end {:?}", run.end)?;
    Ok(())
}
