//! Tests of polls in a world that records their events in one list, and of polls with the caller's
//! clock.

use crate::callers::{TokenClient, device_token};
use crate::support::{
    Scripted, ScriptedError, Seen, assert_fault, assert_that, assert_token, client, duration,
    moment, moments, slept,
};
use jiff::Timestamp;
use oauth2::basic::BasicTokenResponse;
use oauth2::{
    DeviceCodeErrorResponse, HttpRequest, HttpResponse, PollWorld, RequestTokenError,
    StandardDeviceAuthorizationResponse, SyncHttpClient, TokenResponse, read_body,
};
use std::process::Abort;
use std::time::Duration;

// The result of a poll over a scripted client.
type TokenResult = Result<
    BasicTokenResponse,
    RequestTokenError<ScriptedError, DeviceCodeErrorResponse>,
>;

// A device authorization response whose code expires in two seconds, with an interval of one.
const TWO_SECONDS: &str = "{\"device_code\":\"12345\",\"user_code\":\"abcde\",\
    \"verification_uri\":\"https://verify/here\",\"expires_in\":2,\"interval\":1}";

const PENDING: (u16, &str) = (400, "{\"error\":\"authorization_pending\"}");

const TOKEN: (u16, &str) = (
    200,
    "{\"access_token\":\"12/34\",\"token_type\":\"bearer\"}",
);

const EXPIRED: &str =
    "Server returned error response: expired_token: This device code has expired.";

// A world with a client. Its clock shows these times in order, and then stays at the last one.
#[derive(Drop)]
struct Recorder<'a> {
    readings: &'a [Timestamp],
    last: Timestamp,
    http_client: Scripted<'a>,
    seen: Vec<Seen>,
    is_whole: bool,
}

impl Recorder<'_> {
    fn note(&mut self, event: Seen) {
        if self.seen.push(event).is_err() {
            self.is_whole = false;
        }
    }
}

impl PollWorld for Recorder<'_> {
    type Error = ScriptedError;

    fn now(&mut self) -> Timestamp {
        if let Some((first, rest)) = self.readings.split_first() {
            self.last = *first;
            self.readings = rest;
        }
        self.note(Seen::Reading(self.last.as_second()));
        self.last
    }

    fn send(&mut self, request: HttpRequest) -> Result<HttpResponse, ScriptedError> {
        self.note(Seen::Request);
        self.http_client.call(request)
    }

    fn sleep(&mut self, duration: Duration) {
        self.note(slept(duration));
    }
}

// A poll: its timeout, its cap in seconds and nanoseconds, the most requests that it makes, its
// clock and its replies; then the expected events, and the token or the text of the error.
#[derive(Clone, Copy)]
struct Poll<'a> {
    timeout: Option<u64>,
    cap: (u64, u64),
    max_polls: u64,
    readings: &'a [i64],
    replies: &'a [(u16, &'a str)],
    seen: &'a [Seen],
    answer: Result<&'a str, &'a str>,
}

const WAITING: Poll<'static> = Poll {
    timeout: None,
    cap: (10, 0),
    max_polls: 5,
    readings: &[0, 1, 2, 3],
    replies: &[PENDING, PENDING],
    seen: &[
        Seen::Reading(0),
        Seen::Reading(1),
        Seen::Request,
        Seen::Sleep(1, 0),
        Seen::Reading(2),
        Seen::Request,
        Seen::Sleep(1, 0),
        Seen::Reading(3),
    ],
    answer: Err(EXPIRED),
};

const POLLS: [Poll<'static>; 5] = [
    WAITING,
    Poll {
        max_polls: 1,
        replies: &[TOKEN],
        seen: &[Seen::Reading(0), Seen::Reading(1), Seen::Request],
        answer: Ok("12/34"),
        ..WAITING
    },
    Poll {
        cap: (1, 500_000_000),
        max_polls: 3,
        readings: &[0],
        replies: &[],
        seen: &[
            Seen::Reading(0),
            Seen::Reading(0),
            Seen::Request,
            Seen::Sleep(1, 500_000_000),
            Seen::Reading(0),
            Seen::Request,
            Seen::Sleep(1, 500_000_000),
            Seen::Reading(0),
            Seen::Request,
        ],
        answer: Err("Other error: polling limit reached"),
        ..WAITING
    },
    Poll {
        timeout: Some(9_223_372_036_854_775_808),
        seen: &[],
        answer: Err("Other error: failed to convert the timeout"),
        ..WAITING
    },
    Poll {
        timeout: Some(9_223_372_036_854_775_807),
        seen: &[Seen::Reading(0)],
        answer: Err("Other error: failed to calculate timeout"),
        ..WAITING
    },
];

// Polls in this world.
fn polled_in(
    rt: &(impl Abort + AllocGlobal),
    client: &TokenClient,
    device: &StandardDeviceAuthorizationResponse,
    poll: Poll<'_>,
    world: &mut Recorder<'_>,
) -> TokenResult {
    assert!(rt; 0 < poll.max_polls);
    client
        .exchange_device_access_token(rt.alloc(), device)
        .set_max_backoff_interval(duration(poll.cap))
        .poll_with(
            rt.alloc(),
            world,
            poll.timeout.map(Duration::from_secs),
            poll.max_polls,
        )
}

// Checks that the poll returns this token, or an error with this text.
fn assert_polled(rt: &(impl Abort + AllocGlobal), polled: TokenResult, answer: Result<&str, &str>) {
    match polled {
        Ok(token) => assert_token(rt, token.access_token(), answer),
        Err(error) => assert_fault(rt, &error, answer),
    }
}

// Checks the events and the result of a poll.
fn assert_poll(
    rt: &(impl Abort + AllocGlobal),
    client: &TokenClient,
    device: &StandardDeviceAuthorizationResponse,
    poll: Poll<'_>,
) {
    let readings = moments(rt, poll.readings);
    let mut world = Recorder {
        readings: readings.as_slice(),
        last: moment(rt, 0, 0),
        http_client: Scripted::new(rt.alloc(), poll.replies),
        seen: Vec::new(rt.alloc()),
        is_whole: true,
    };
    assert_polled(
        rt,
        polled_in(rt, client, device, poll, &mut world),
        poll.answer,
    );
    assert_that(rt, world.is_whole, "a whole list");
    assert_that(rt, world.seen.as_slice() == poll.seen, "what is seen");
}

// Checks a poll with a clock that shows how often it was read.
fn assert_poll_by_clock(
    rt: &(impl Abort + AllocGlobal),
    client: &TokenClient,
    device: &StandardDeviceAuthorizationResponse,
) {
    let mut http_client = Scripted::new(rt.alloc(), &[PENDING, PENDING, PENDING]);
    let start = moment(rt, 0, 0);
    let mut readings: u64 = 0;
    let time_fn = || {
        let now = start
            .checked_add(Duration::from_secs(readings))
            .unwrap_or(start);
        readings = readings.saturating_add(1);
        now
    };
    let mut sleeps: u64 = 0;
    let mut slept = Duration::from_secs(0);
    let mut sleep_fn = |duration: Duration| {
        sleeps = sleeps.saturating_add(1);
        slept = slept.saturating_add(duration);
    };
    let polled = device_token(
        rt.alloc(),
        client,
        device,
        &mut http_client,
        time_fn,
        &mut sleep_fn,
    );
    assert_polled(rt, polled, Err(EXPIRED));
    let is_counted = (readings, http_client.sent, sleeps) == (4, 2, 2);
    assert_that(rt, is_counted, "readings, requests and sleeps");
    assert_that(rt, slept == Duration::from_secs(2), "what is slept");
}

#[test]
fn a_device_polls(rt: HostRuntime) {
    let client = client(&rt);
    let device = read_body(rt.alloc(), TWO_SECONDS.as_bytes()).expect(&rt, "a response");
    for poll in POLLS {
        assert_poll(&rt, &client, &device, poll);
    }
    assert_poll_by_clock(&rt, &client, &device);
}
