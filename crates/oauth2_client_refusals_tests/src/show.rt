//! Prints the lines of a row. Only decoding a request, as a server does, allocates.

use crate::counting_client::NoReply;
use crate::recorder::Seen;
use http_header::AUTHORIZATION;
use oauth2::basic::BasicTokenResponse;
use oauth2::url::Url;
use oauth2::{CsrfToken, HttpRequest, RequestTokenError, ServerView, TokenResponse, server_view};
use oauth2_refusals_support::{Ended, Want, show_fault, show_sleep};
use std::alloc::Global;
use std::fmt::Display;
use std::io::Write;

/// Prints a request as it is sent, and as a server decodes it.
pub fn show_post<W>(alloc: Global, request: &HttpRequest, out: &mut W) -> Result<(), Ended>
where
    W: Write,
{
    let view = server_view(alloc, request)?;
    show_request(out, request, &view)
}

// Prints a request's own bytes, and the credentials and pairs that a server decodes.
fn show_request<W: Write>(
    out: &mut W,
    request: &HttpRequest,
    view: &ServerView,
) -> Result<(), Ended> {
    if let Some(value) = request.headers().get(AUTHORIZATION) {
        show_bytes(out, "authorization", value.as_bytes())?;
    }
    show_bytes(out, "body", request.body())?;
    match &view.basic {
        Some((id, secret)) => writeln!(out, "basic {id:?} {secret:?}")?,
        None => writeln!(out, "basic none")?,
    }
    for (name, value) in &view.form {
        writeln!(out, "pair {name:?} {value:?}")?;
    }
    Ok(())
}

/// Prints bytes as a text, after the word `before`. Bytes that are not UTF-8 are refused.
pub fn show_bytes<W: Write>(out: &mut W, before: &str, bytes: &[u8]) -> Result<(), Ended> {
    let Ok(text) = str::from_utf8(bytes) else {
        return Err(Ended::Refused);
    };
    writeln!(out, "{before} {text:?}")?;
    Ok(())
}

/// Prints an authorization URL and its state.
pub fn show_url<W: Write>(out: &mut W, url: &Url, state: &CsrfToken) -> Result<(), Ended> {
    writeln!(out, "url {}", url.as_str())?;
    writeln!(out, "state {:?}", state.secret().as_str())?;
    Ok(())
}

/// Prints a token, or why there is none. If memory ran out, the row ends.
pub fn show_answer<W: Write, TE: Display>(
    out: &mut W,
    answer: &Result<BasicTokenResponse, RequestTokenError<NoReply, TE>>,
) -> Result<(), Ended> {
    match answer {
        Ok(token) => show_token(out, token),
        Err(error) => show_failure(out, error),
    }
}

/// Prints a token.
pub fn show_token<W: Write>(out: &mut W, token: &BasicTokenResponse) -> Result<(), Ended> {
    writeln!(out, "token {:?}", token.access_token().secret().as_str())?;
    Ok(())
}

/// Prints why there is no token. If memory ran out, the row ends.
pub fn show_failure<W: Write, TE: Display>(
    out: &mut W,
    error: &RequestTokenError<NoReply, TE>,
) -> Result<(), Ended> {
    match error {
        RequestTokenError::Memory { sent } => {
            Err(Ended::Starved(Want::RequestTokenError { sent: *sent }))
        }
        _ => show_error(out, error),
    }
}

fn show_error<W: Write, TE: Display>(
    out: &mut W,
    error: &RequestTokenError<NoReply, TE>,
) -> Result<(), Ended> {
    writeln!(out, "error {error}")?;
    if let RequestTokenError::Parse(fault, _) = error {
        show_fault(out, fault)?;
    }
    Ok(())
}

/// Prints the events that a world recorded.
pub fn show_seen<W: Write>(out: &mut W, seen: &[Seen]) -> Result<(), Ended> {
    for event in seen {
        match event {
            Seen::Reading(moment) => writeln!(out, "reading {}", moment.as_second())?,
            Seen::Request => writeln!(out, "request")?,
            Seen::Sleep(duration) => show_sleep(out, *duration)?,
        }
    }
    Ok(())
}
