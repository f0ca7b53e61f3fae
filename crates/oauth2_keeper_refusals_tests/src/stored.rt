//! Prints stored tokens as JSON and as debug texts, and makes keepers that start from them.

use crate::client::TokenClient;
use crate::values::{Moment, Span, duration, moment};
use oauth2::{AccessToken, ReadError, RefreshToken, compact, read_body};
use oauth2_keeper::{BasicTokenKeeper, TokenKeeper};
use oauth2_refusals_support::{Ended, show_fault, text};
use oauth2_stored_token::{StoredToken, start_from_stored, to_stored};
use std::alloc::Global;
use std::io::Write;
use std::time::Duration;

/// What a keeper starts from.
#[derive(Clone, Copy)]
pub enum Start<'a> {
    /// No token.
    Empty,
    /// A token of the type `example`, the time of the call that got it, its lifetime, and a refresh
    /// token.
    Values(&'a str, Moment, Span, Option<&'a str>),
    /// A stored token as JSON.
    Json(&'a str),
}

fn refresh_token(alloc: Global, token: Option<&str>) -> Result<Option<RefreshToken>, Ended> {
    match token {
        Some(token) => Ok(Some(RefreshToken::new(text(alloc, token)?))),
        None => Ok(None),
    }
}

fn empty(client: &TokenClient, margin: Duration) -> BasicTokenKeeper<'_> {
    let default_lifetime = Duration::from_secs(60);
    TokenKeeper::new(client, None, margin, default_lifetime)
}

/// A keeper that starts from `start`. The lifetime of a token is one minute if the reply has none.
pub fn started<'a>(
    alloc: Global,
    client: &'a TokenClient,
    margin: Duration,
    start: Start<'_>,
) -> Result<BasicTokenKeeper<'a>, Ended> {
    match start {
        Start::Empty => Ok(empty(client, margin)),
        Start::Values(token, accepted_at, lifetime, refresh) => {
            let accepted_at = moment(accepted_at)?;
            let refresh = refresh_token(alloc, refresh)?;
            let token = AccessToken::new(text(alloc, token)?);
            let lifetime = duration(lifetime);
            let kind = text(alloc, "example")?;
            Ok(empty(client, margin).starting_from(token, kind, accepted_at, lifetime, refresh))
        }
        Start::Json(json) => {
            let stored = read_body(alloc, json.as_bytes())?;
            let mut keeper = empty(client, margin);
            match start_from_stored(&mut keeper, stored) {
                Ok(()) => Ok(keeper),
                Err(_) => Err(Ended::Refused),
            }
        }
    }
}

fn show_json<W: Write>(alloc: Global, stored: &StoredToken, out: &mut W) -> Result<(), Ended> {
    let json = compact(alloc, stored)?;
    writeln!(out, "json {}", json.as_str())?;
    Ok(())
}

/// Prints what a keeper keeps, as it is stored.
pub fn show_stored<W: Write>(
    alloc: Global,
    keeper: &BasicTokenKeeper<'_>,
    out: &mut W,
) -> Result<(), Ended> {
    match to_stored(alloc, keeper)? {
        Some(stored) => show_json(alloc, &stored, out),
        None => {
            writeln!(out, "nothing to store")?;
            Ok(())
        }
    }
}

/// Prints the debug texts of a stored token and the JSON that it is written as, or why the JSON
/// cannot be read as one.
pub fn show_text<W: Write>(alloc: Global, json: &str, out: &mut W) -> Result<(), Ended> {
    let read: Result<StoredToken, ReadError> = read_body(alloc, json.as_bytes());
    match read {
        Ok(stored) => {
            writeln!(out, "debug {stored:?} {stored:#?}")?;
            show_json(alloc, &stored, out)
        }
        Err(ReadError::Fault(fault)) => show_fault(out, &fault),
        Err(error) => Err(Ended::from(error)),
    }
}

/// Prints why a keeper does not accept a stored token, what the keeper keeps then, and the stored
/// token that the error returns.
pub fn show_not_taken<W: Write>(
    alloc: Global,
    client: &TokenClient,
    json: &str,
    out: &mut W,
) -> Result<(), Ended> {
    let stored = read_body(alloc, json.as_bytes())?;
    let mut keeper = empty(client, Duration::from_secs(10));
    let Err(error) = start_from_stored(&mut keeper, stored) else {
        return Err(Ended::Refused);
    };
    writeln!(out, "error {error}")?;
    show_stored(alloc, &keeper, out)?;
    show_json(alloc, &error.into_stored(), out)
}
