//! The poll of a device for its token.

ghost use Rattle.std.specs.Prelude.{◌≡◌, ◌<◌, List, Some};
ghost use Rattle.oauth2_urls.specs.Addressed.{Addressed};
ghost use Rattle.oauth2_device.specs.Events.{PollCall};
ghost use Rattle.oauth2_device.specs.Poll.{Polls, timeout_of};
ghost use Rattle.oauth2.specs.NewRequest.{new_device_token_request};
ghost use Rattle.oauth2_client_refusals_tests.specs.Recorded.{Records};

use crate::clients::RowClient;
use crate::counting_client::NoReply;
use crate::recorder::Recorder;
use crate::replies::{ReplyTexts, ready_reply};
use crate::show::{show_answer, show_seen};
use jiff::Timestamp;
use oauth2::basic::BasicTokenResponse;
use oauth2::{
    DeviceCodeErrorResponse, FromJson, HttpResponse, RequestTokenError,
    StandardDeviceAuthorizationResponse, read_body,
};
use oauth2_refusals_support::{Ended, Want};
use std::alloc::Global;
use std::io::Write;
use std::time::Duration;

// How many events of a poll can be recorded.
const ROOM: usize = 32;

/// A poll: its timeout in seconds, the most requests that it makes, the times that its clock shows
/// in seconds since 1970, and the reply to its first `replies` requests.
#[derive(Clone, Copy)]
pub struct Poll<'a> {
    pub timeout: Option<u64>,
    pub max_polls: u64,
    pub readings: &'a [i64],
    pub reply: ReplyTexts<'a>,
    pub replies: u32,
}

/// The result of a poll: the token, or the error that ended it.
pub type PollResult = Result<
    BasicTokenResponse,
    RequestTokenError<NoReply, DeviceCodeErrorResponse>,
>;

/// A device authorization response whose code expires in two seconds, with an interval of one.
pub fn device(alloc: Global) -> Result<StandardDeviceAuthorizationResponse, Ended> {
    let body = "{\"device_code\":\"12345\",\"user_code\":\"abcde\",\
        \"verification_uri\":\"https://verify/here\",\"expires_in\":2,\"interval\":1}";
    device_of(alloc, body)
}

// The response with this body, which proofs do not see, so that no proof reads it.
fn device_of(alloc: Global, body: &str) -> Result<StandardDeviceAuthorizationResponse, Ended> {
    Ok(read_body(alloc, body.as_bytes())?)
}

fn add_reply(
    alloc: Global,
    replies: &mut Vec<HttpResponse>,
    reply: ReplyTexts<'_>,
) -> Result<(), Ended> {
    let reply = ready_reply(alloc, reply)?;
    if replies.push(reply).is_err() {
        return Err(Ended::Starved(Want::Row));
    }
    Ok(())
}

fn replies(alloc: Global, reply: ReplyTexts<'_>, number: u32) -> Result<Vec<HttpResponse>, Ended> {
    let mut replies = Vec::new(alloc);
    for _ in 0..number {
        add_reply(alloc, &mut replies, reply)?;
    }
    Ok(replies)
}

/// The world of a poll: its clock and its replies.
pub fn world_of<'a>(alloc: Global, poll: &Poll<'a>) -> Result<Recorder<'a>, Ended> {
    let Ok(seen) = Vec::with_capacity(alloc, ROOM) else {
        return Err(Ended::Starved(Want::Row));
    };
    Ok(Recorder {
        readings: poll.readings,
        last: Timestamp::UNIX_EPOCH,
        replies: replies(alloc, poll.reply, poll.replies)?,
        seen,
        is_whole: true,
    })
}

/// Polls in a world, which records what the poll does.
pub fn polled(
    alloc: Global,
    client: &RowClient,
    device: &StandardDeviceAuthorizationResponse,
    world: &mut Recorder<'_>,
    timeout: Option<Duration>,
    max_polls: u64,
) -> PollResult
    requires { 0 < max_polls }
    ensures { (endpoint : Addressed) × (client.now.token_url ≡ Some endpoint)
        × (e : List (PollCall NoReply))
        × Records world.old e world.new
        × Polls ⟦<BasicTokenResponse as FromJson>⟧.meaning
        ⟦<BasicTokenResponse as FromJson>⟧.reading
        (new_device_token_request client.now endpoint device.now)
        (timeout_of (new_device_token_request client.now endpoint device.now) timeout)
        max_polls e result }
{
    client
        .exchange_device_access_token(alloc, device)
        .poll_with(alloc, world, timeout, max_polls)
}

/// Makes a world, polls in it, and prints the recorded events and the result.
pub fn show_poll<W: Write>(
    alloc: Global,
    client: &RowClient,
    poll: &Poll<'_>,
    out: &mut W,
) -> Result<(), Ended> {
    let device = device(alloc)?;
    show_poll_of(alloc, client, &device, poll, out)
}

fn show_poll_of<W: Write>(
    alloc: Global,
    client: &RowClient,
    device: &StandardDeviceAuthorizationResponse,
    poll: &Poll<'_>,
    out: &mut W,
) -> Result<(), Ended> {
    if poll.max_polls == 0 {
        return Err(Ended::Refused);
    }
    let mut world = world_of(alloc, poll)?;
    let timeout = poll.timeout.map(Duration::from_secs);
    let answer = polled(alloc, client, device, &mut world, timeout, poll.max_polls);
    show_polled(&world, &answer, out)
}

fn show_polled<W: Write>(
    world: &Recorder<'_>,
    answer: &PollResult,
    out: &mut W,
) -> Result<(), Ended> {
    show_seen(out, world.seen.as_slice())?;
    if !world.is_whole {
        return Err(Ended::Refused);
    }
    show_answer(out, answer)
}
