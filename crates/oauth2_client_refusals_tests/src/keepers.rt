//! The calls of a keeper, which keeps a token and renews it.

ghost use Rattle.std.specs.Prelude.{◌≡◌, OnErr};
ghost use Rattle.oauth2_client_refusals_tests.specs.Counted.{TellsCalls};

use crate::clients::RowClient;
use crate::counting_client::{CountingClient, NoReply};
use crate::replies::{ReplyTexts, ready_reply};
use crate::show::show_bytes;
use jiff::Timestamp;
use oauth2::basic::BasicRequestTokenError;
use oauth2::{EndpointMaybeSet, EndpointSet, RequestTokenError};
use oauth2_keeper::{BasicTokenKeeper, RenewalTimes, TokenKeeper};
use oauth2_refusals_support::{Ended, Want};
use std::alloc::Global;
use std::io::Write;
use std::time::Duration;

/// A keeper for the client of a row.
pub type RowKeeper<'a> = BasicTokenKeeper<
    'a,
    EndpointSet,
    EndpointSet,
    EndpointSet,
    EndpointMaybeSet,
>;

// The reply to a new keeper's request. Its token is used until second 90.
const FIRST: ReplyTexts<'static> = ReplyTexts {
    status: 200,
    content_type: None,
    body: "{\"access_token\":\"t1\",\"token_type\":\"bearer\",\"expires_in\":100,\
    \"refresh_token\":\"r1\"}",
};

// The reply to the next request.
const LATER: ReplyTexts<'static> = ReplyTexts {
    status: 200,
    content_type: None,
    body: "{\"access_token\":\"t2\",\"token_type\":\"bearer\"}",
};

// A call: the token that is kept before it, its time in seconds since 1970, and the reply to its
// request.
#[derive(Clone, Copy)]
struct Call<'a> {
    kept: Option<&'a str>,
    second: i64,
    reply: ReplyTexts<'a>,
}

const FIRST_CALL: Call<'static> = Call {
    kept: None,
    second: 0,
    reply: FIRST,
};

const LATER_CALL: Call<'static> = Call {
    kept: Some("t1"),
    second: 91,
    reply: LATER,
};

fn new_keeper(client: &RowClient) -> RowKeeper<'_> {
    let times = RenewalTimes {
        margin: Duration::from_secs(10),
        default_lifetime: Duration::from_secs(60),
    };
    TokenKeeper::with_times(client, None, times)
}

/// Calls a keeper at a time, with an HTTP client that was not called before.
pub fn keep(
    alloc: Global,
    keeper: &mut RowKeeper<'_>,
    now: Timestamp,
    http_client: &mut CountingClient,
) -> Result<(), BasicRequestTokenError<NoReply>>
    requires { http_client.old.calls ≡ 0 }
    ensures calls { TellsCalls result http_client.new }
    ensures kept { OnErr result (keeper.new ≡ keeper.old) }
{
    keeper.keep_good(alloc, now, http_client)
}

// Whether a call of a keeper returns no error.
fn is_kept(
    alloc: Global,
    keeper: &mut RowKeeper<'_>,
    now: Timestamp,
    http_client: &mut CountingClient,
) -> bool
    requires { http_client.old.calls ≡ 0 }
{
    keep(alloc, keeper, now, http_client).is_ok()
}

/// Calls a new keeper, and prints what it did.
pub fn show_first_token<W: Write>(
    alloc: Global,
    client: &RowClient,
    out: &mut W,
) -> Result<(), Ended> {
    let mut keeper = new_keeper(client);
    show_call(alloc, &mut keeper, FIRST_CALL, out)
}

/// Calls a keeper whose token is used no longer, and prints what it did.
pub fn show_renewed_token<W: Write>(
    alloc: Global,
    client: &RowClient,
    out: &mut W,
) -> Result<(), Ended> {
    let mut keeper = new_keeper(client);
    keep_first(alloc, &mut keeper)?;
    show_call(alloc, &mut keeper, LATER_CALL, out)
}

fn keep_first(alloc: Global, keeper: &mut RowKeeper<'_>) -> Result<(), Ended> {
    let mut http_client = CountingClient::new(ready_reply(alloc, FIRST)?);
    if is_kept(alloc, keeper, Timestamp::UNIX_EPOCH, &mut http_client) {
        Ok(())
    } else {
        Err(Ended::Starved(Want::Row))
    }
}

// Calls a keeper, and calls it again if memory ran out.
fn show_call<W: Write>(
    alloc: Global,
    keeper: &mut RowKeeper<'_>,
    call: Call<'_>,
    out: &mut W,
) -> Result<(), Ended> {
    let Ok(now) = Timestamp::from_second(call.second) else {
        return Err(Ended::Refused);
    };
    let Some(want) = show_first_try(alloc, keeper, now, call.reply, out)? else {
        return Ok(());
    };
    show_unless_kept(keeper, call.kept, out)?;
    show_second_try(alloc, keeper, now, call.reply, out)?;
    Err(Ended::Starved(want))
}

// Calls the keeper. Prints how often the HTTP client was called, what was sent and what is kept.
// Returns which error says that memory ran out, if it did.
fn show_first_try<W: Write>(
    alloc: Global,
    keeper: &mut RowKeeper<'_>,
    now: Timestamp,
    reply: ReplyTexts<'_>,
    out: &mut W,
) -> Result<Option<Want>, Ended> {
    let mut http_client = CountingClient::new(ready_reply(alloc, reply)?);
    let answer = keep(alloc, keeper, now, &mut http_client);
    show_tried(keeper, &http_client, want_of(answer), out)
}

fn show_tried<W: Write>(
    keeper: &RowKeeper<'_>,
    http_client: &CountingClient,
    want: Result<Option<Want>, Ended>,
    out: &mut W,
) -> Result<Option<Want>, Ended> {
    let want = want?;
    writeln!(out, "calls {}", http_client.calls)?;
    if want.is_none() {
        show_kept(keeper, http_client, out)?;
    }
    Ok(want)
}

// Calls the keeper again, and prints what was sent and what is kept.
fn show_second_try<W: Write>(
    alloc: Global,
    keeper: &mut RowKeeper<'_>,
    now: Timestamp,
    reply: ReplyTexts<'_>,
    out: &mut W,
) -> Result<(), Ended> {
    let mut http_client = CountingClient::new(ready_reply(alloc, reply)?);
    if is_kept(alloc, keeper, now, &mut http_client) {
        show_kept(keeper, &http_client, out)
    } else {
        Ok(())
    }
}

fn want_of(answer: Result<(), BasicRequestTokenError<NoReply>>) -> Result<Option<Want>, Ended> {
    match answer {
        Ok(()) => Ok(None),
        Err(RequestTokenError::Memory { sent }) => Ok(Some(Want::RequestTokenError { sent })),
        Err(_) => Err(Ended::Refused),
    }
}

fn kept_text<'a>(keeper: &'a RowKeeper<'_>) -> Option<&'a str> {
    match keeper.get() {
        Some(token) => Some(token.secret().as_str()),
        None => None,
    }
}

// Prints a line if another token is kept than this.
fn show_unless_kept<W: Write>(
    keeper: &RowKeeper<'_>,
    before: Option<&str>,
    out: &mut W,
) -> Result<(), Ended> {
    if kept_text(keeper) != before {
        writeln!(out, "kept changed")?;
    }
    Ok(())
}

// Prints the body of the request for the token, and the token.
fn show_kept<W: Write>(
    keeper: &RowKeeper<'_>,
    http_client: &CountingClient,
    out: &mut W,
) -> Result<(), Ended> {
    if let Some(request) = &http_client.request {
        show_bytes(out, "body", request.body())?;
    }
    if let Some(text) = kept_text(keeper) {
        writeln!(out, "kept {text:?}")?;
    }
    Ok(())
}
