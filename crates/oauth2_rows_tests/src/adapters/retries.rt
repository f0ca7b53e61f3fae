//! Requests that are sent again.

use crate::replies::{add_field, reply_of};
use http::{Method, Request};
use http_header::{HeaderMap, RETRY_AFTER};
use oauth2_http1_connections::{RetryLimits, Retrying, TellsUnsent, WithSleep};
use oauth2_wire::{AlwaysReady, HttpRequest, HttpResponse, SyncHttpClient};
use std::alloc::Global;
use std::io::{self, Write};
use std::time::Duration;

// An error of the HTTP client.
#[derive(Clone, Copy)]
struct Fault {
    is_unsent: bool,
}

impl TellsUnsent for Fault {
    ghost unsent = { λ fault. fault.is_unsent };

    fn is_unsent(&self) -> bool {
        self.is_unsent
    }
}

// An HTTP client that returns the answers of a list, with `|` between them, and counts its calls.
#[derive(Drop)]
struct Listed<'a> {
    alloc: Global,
    answers: &'a str,
    calls: u32,
}

impl SyncHttpClient for Listed<'_> {
    type Error = Fault;

    fn call(&mut self, request: HttpRequest) -> Result<HttpResponse, Fault> {
        drop(request);
        self.calls = self.calls.saturating_add(1);
        let (first, others) = self.answers.split_once('|').unwrap_or((self.answers, ""));
        self.answers = others;
        answer_of(self.alloc, first)
    }
}

impl AlwaysReady for Listed<'_> {
    ghost always_ready = { λ _. tt };
}

fn answer_of(alloc: Global, words: &str) -> Result<HttpResponse, Fault> {
    let (status, value) = words.split_once(' ').unwrap_or((words, ""));
    let mut headers = HeaderMap::new(alloc);
    if value != "" && !add_field(alloc, &mut headers, RETRY_AFTER, value.as_bytes()) {
        return Err(Fault { is_unsent: false });
    }
    reply_of(alloc, status, headers, Vec::new(alloc)).ok_or(Fault {
        is_unsent: status == "unsent",
    })
}

// A request with this method and no body; `None` if the text is no method.
fn request_of(alloc: Global, method: &str) -> Option<HttpRequest> {
    let Ok(method) = Method::from_bytes(alloc, method.as_bytes()) else {
        return None;
    };
    let (mut head, body) = Request::new(alloc, Vec::new(alloc)).into_parts();
    head.method = method;
    Some(Request::from_parts(head, body))
}

fn millis_of(word: &str) -> Duration {
    Duration::from_millis(word.parse::<u64>().unwrap_or(0))
}

// The limits of a row, and the text of its answers.
fn limits_of(words: &str) -> Option<(RetryLimits, &str)> {
    let (most, rest) = words.split_once(' ')?;
    let (first, rest) = rest.split_once(' ')?;
    let (most_wait, answers) = rest.split_once(' ')?;
    let limits = RetryLimits {
        most_repeats: most.parse::<u32>().ok()?,
        first_wait: millis_of(first),
        most_wait: millis_of(most_wait),
    };
    Some((limits, answers))
}

fn write_answer<W: Write>(
    calls: u32,
    slept: &[Duration],
    answer: Result<HttpResponse, Fault>,
    writer: &mut W,
) -> io::Result<()> {
    write!(writer, "calls: {calls}, sleeps:")?;
    for duration in slept {
        write!(writer, " {}", duration.as_millis())?;
    }
    match answer {
        Ok(reply) => writeln!(writer, ", status {}", reply.status().as_u16()),
        Err(fault) => writeln!(writer, ", unsent: {}", fault.is_unsent),
    }
}

fn write_repeated<W: Write>(
    alloc: Global,
    limits: RetryLimits,
    answers: &str,
    request: HttpRequest,
    writer: &mut W,
) -> io::Result<()> {
    let mut slept = Vec::new(alloc);
    let listed = Listed {
        alloc,
        answers,
        calls: 0,
    };
    let sleeping = WithSleep::new(listed, |duration: Duration| {
        let _ = slept.push(duration);
    });
    let mut client = Retrying::new(alloc, sleeping, limits);
    let answer = client.call(request);
    let (listed, _) = client.into_inner().into_parts();
    write_answer(listed.calls, slept.as_slice(), answer, writer)
}

/// Prints how often a request was sent, the waits, and the last answer.
pub fn write_retried<W: Write>(alloc: Global, words: &str, writer: &mut W) -> io::Result<()> {
    let (method, rest) = words.split_once(' ').unwrap_or((words, ""));
    let Some(request) = request_of(alloc, method) else {
        return writeln!(writer, "?");
    };
    match limits_of(rest) {
        Some((limits, answers)) => write_repeated(alloc, limits, answers, request, writer),
        None => writeln!(writer, "?"),
    }
}
