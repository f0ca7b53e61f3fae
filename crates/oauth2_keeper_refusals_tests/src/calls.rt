//! Calls a keeper, and prints what it does.

use crate::client::{NoReply, OneReply, Reply};
use crate::values::{Moment, moment, show_duration, show_moment};
use jiff::Timestamp;
use oauth2::RequestTokenError;
use oauth2::basic::BasicErrorResponse;
use oauth2_keeper::{BasicPatientKeeper, PatientError};
use oauth2_refusals_support::{Ended, Want};
use oauth2_retry_after::{BusyError, TellsBusy};
use std::alloc::Global;
use std::error::Error;
use std::io::Write;
use std::time::Duration;

/// A call: its time, and the reply to its request.
pub type Call<'a> = (Moment, Reply<'a>);

type Answer = Result<(), PatientError<BusyError<NoReply>, BasicErrorResponse>>;

/// Makes the calls, and prints the result of each.
pub fn show_calls<W: Write>(
    alloc: Global,
    keeper: &mut BasicPatientKeeper<'_>,
    wait: Duration,
    calls: &[Call<'_>],
    out: &mut W,
) -> Result<(), Ended> {
    for (at, reply) in calls {
        show_call(alloc, keeper, wait, (moment(*at)?, *reply), out)?;
    }
    Ok(())
}

// Makes a call. If memory runs out in it, prints how often the HTTP client was called, and calls
// again.
fn show_call<W: Write>(
    alloc: Global,
    keeper: &mut BasicPatientKeeper<'_>,
    wait: Duration,
    (now, reply): (Timestamp, Reply<'_>),
    out: &mut W,
) -> Result<(), Ended> {
    let (tried, calls) = show_new_try(alloc, keeper, now, reply, out)?;
    let Some(sent) = tried else {
        return Ok(());
    };
    writeln!(out, "calls {calls}")?;
    show_again(alloc, keeper, wait, (now, reply), sent, out)?;
    Err(Ended::Starved(Want::RequestTokenError { sent }))
}

// Makes a call with a new HTTP client, and prints the body of its request, and the kept token or
// the error. If memory runs out, it prints nothing, and returns whether the request was sent. Also
// returns how often the HTTP client was called.
fn show_new_try<W: Write>(
    alloc: Global,
    keeper: &mut BasicPatientKeeper<'_>,
    now: Timestamp,
    reply: Reply<'_>,
    out: &mut W,
) -> Result<(Option<bool>, u64), Ended> {
    let mut http_client = TellsBusy::new(OneReply::new(alloc, reply)?);
    let answer = keeper.keep_good(alloc, now, &mut http_client);
    let http_client = http_client.into_inner();
    let tried = show_tried(out, keeper, &http_client, &answer);
    let calls = http_client.calls;
    drop(answer);
    drop(http_client);
    Ok((tried?, calls))
}

// Calls again. If the first request was sent, first prints a line if a call before the end of the
// wait sends a request.
fn show_again<W: Write>(
    alloc: Global,
    keeper: &mut BasicPatientKeeper<'_>,
    wait: Duration,
    (now, reply): (Timestamp, Reply<'_>),
    sent: bool,
    out: &mut W,
) -> Result<(), Ended> {
    if !sent {
        let _ = show_new_try(alloc, keeper, now, reply, out)?;
        return Ok(());
    }
    if is_asked(alloc, keeper, now) {
        writeln!(out, "asked before the end of the wait")?;
    }
    if let Ok(later) = now.checked_add(wait) {
        let _ = show_new_try(alloc, keeper, later, reply, out)?;
    }
    Ok(())
}

// Whether a call sends a request.
fn is_asked(alloc: Global, keeper: &mut BasicPatientKeeper<'_>, now: Timestamp) -> bool {
    let mut http_client = TellsBusy::new(OneReply::without_reply());
    let answer = keeper.keep_good(alloc, now, &mut http_client);
    drop(answer);
    http_client.into_inner().calls != 0
}

fn show_tried<W: Write>(
    out: &mut W,
    keeper: &BasicPatientKeeper<'_>,
    http_client: &OneReply,
    answer: &Answer,
) -> Result<Option<bool>, Ended> {
    let sent = sent_without_memory(answer);
    if sent.is_none() {
        show_body(out, http_client)?;
        show_answer(out, keeper, answer)?;
    }
    Ok(sent)
}

fn sent_without_memory(answer: &Answer) -> Option<bool> {
    match answer {
        Err(PatientError::Request(RequestTokenError::Memory { sent })) => Some(*sent),
        _ => None,
    }
}

fn show_body<W: Write>(out: &mut W, http_client: &OneReply) -> Result<(), Ended> {
    if let Some(request) = &http_client.request {
        let Ok(body) = str::from_utf8(request.body()) else {
            return Err(Ended::Refused);
        };
        writeln!(out, "body {body}")?;
    }
    Ok(())
}

fn show_answer<W: Write>(
    out: &mut W,
    keeper: &BasicPatientKeeper<'_>,
    answer: &Answer,
) -> Result<(), Ended> {
    match answer {
        Ok(()) => show_token(out, keeper),
        Err(error) => {
            show_error(out, error)?;
            match error {
                PatientError::Request(RequestTokenError::Request(cause)) => show_cause(out, cause),
                PatientError::Request(_) | PatientError::OtherTokenType => Ok(()),
                PatientError::Waits(until) => show_moment(out, "waits until", *until),
            }
        }
    }
}

// Prints why the HTTP client returned no reply.
fn show_cause<W: Write>(out: &mut W, cause: &BusyError<NoReply>) -> Result<(), Ended> {
    match cause {
        BusyError::Busy {
            status,
            retry_after,
        } => {
            writeln!(out, "status {}", status.as_u16())?;
            show_duration(out, "asks to wait", *retry_after)
        }
        BusyError::Client(_) => Ok(()),
    }
}

fn show_error<W: Write, E: Error>(out: &mut W, error: &E) -> Result<(), Ended> {
    writeln!(out, "error {error}")?;
    Ok(())
}

fn show_token<W: Write>(out: &mut W, keeper: &BasicPatientKeeper<'_>) -> Result<(), Ended> {
    if let Some(token) = keeper.keeper().get() {
        writeln!(out, "token {}", token.secret().as_str())?;
    }
    Ok(())
}
