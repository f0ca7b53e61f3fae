//! Functions that several test files share.

use crate::callers::TokenClient;
use jiff::Timestamp;
use oauth2::basic::BasicClient;
use oauth2::http::response::Parts;
use oauth2::http::{Response, StatusCode};
use oauth2::{
    AccessToken, ClientId, ClientSecret, HttpRequest, HttpResponse, SyncHttpClient, TokenUrl,
};
use oauth2_poll::PollAnswer;
use std::alloc::{AllocError, Global};
use std::fmt::Display;
use std::process::Abort;
use std::time::Duration;

/// Why a scripted client returned no reply.
#[derive(Debug, Drop)]
pub enum ScriptedError {
    /// All replies were returned before.
    Spent,
    /// The number is not an HTTP status.
    BadStatus,
    /// Memory ran out for the body.
    Memory,
}

/// An HTTP client that returns these replies one after the other, each a status and a body, and
/// then fails. It keeps the body of the last request.
#[derive(Drop)]
pub struct Scripted<'a> {
    alloc: Global,
    replies: &'a [(u16, &'a str)],
    pub sent: usize,
    pub body: Vec<u8>,
}

impl<'a> Scripted<'a> {
    /// A client with these replies.
    pub fn new(alloc: Global, replies: &'a [(u16, &'a str)]) -> Scripted<'a> {
        Scripted {
            alloc,
            replies,
            sent: 0,
            body: Vec::new(alloc),
        }
    }
}

impl SyncHttpClient for Scripted<'_> {
    type Error = ScriptedError;

    fn call(&mut self, request: HttpRequest) -> Result<HttpResponse, ScriptedError> {
        self.body = request.into_body();
        let Some((status, body)) = self.replies.get(self.sent).copied() else {
            return Err(ScriptedError::Spent);
        };
        self.sent = self.sent.saturating_add(1);
        let mut head = Parts::new(self.alloc);
        let Ok(status) = StatusCode::from_u16(status) else {
            return Err(ScriptedError::BadStatus);
        };
        head.status = status;
        match body.as_bytes().to_vec(self.alloc) {
            Ok(body) => Ok(Response::from_parts(head, body)),
            Err(AllocError) => Err(ScriptedError::Memory),
        }
    }
}

fn text(rt: &(impl Abort + AllocGlobal), text: &str) -> String {
    String::from_str(rt.alloc(), text).expect(rt, "a text")
}

/// A client for the tests, whose only endpoint is the token endpoint.
pub fn client(rt: &(impl Abort + AllocGlobal)) -> TokenClient {
    let token_url = TokenUrl::new(rt.alloc(), text(rt, "https://example.com/token"));
    BasicClient::new(ClientId::new(text(rt, "aaa")))
        .set_client_secret(ClientSecret::new(text(rt, "bbb")))
        .set_token_uri(token_url.expect(rt, "a URL"))
}

/// A time of so many seconds and nanoseconds since 1970.
pub fn moment(rt: &impl Abort, second: i64, nanosecond: i32) -> Timestamp {
    Timestamp::new(second, nanosecond).expect(rt, "a timestamp")
}

/// A duration of so many seconds and nanoseconds.
pub fn duration((seconds, nanoseconds): (u64, u64)) -> Duration {
    Duration::from_secs(seconds).saturating_add(Duration::from_nanos(nanoseconds))
}

/// Times of so many seconds since 1970.
pub fn moments(rt: &(impl Abort + AllocGlobal), seconds: &[i64]) -> Vec<Timestamp> {
    let mut moments = Vec::new(rt.alloc());
    for second in seconds.iter() {
        moments.push(moment(rt, *second, 0)).expect(rt, "a list");
    }
    moments
}

/// What a poll did: read the clock (in seconds), sent a request, slept (seconds and nanoseconds).
/// A run over lists has its answers too.
#[derive(Clone, Copy, Debug, PartialEq, Eq)]
pub enum Seen {
    Reading(i64),
    Request,
    Answer(PollAnswer),
    Sleep(u64, u32),
}

/// A sleep as an event.
pub fn slept(duration: Duration) -> Seen {
    Seen::Sleep(duration.as_secs(), duration.subsec_nanos())
}

/// Checks a condition in one case. (A call is much cheaper to prove than the assertion itself.)
pub fn assert_that(rt: &impl Abort, is_so: bool, case: &str) {
    assert!(rt; is_so, "{case}");
}

/// Checks that the token is the expected answer.
pub fn assert_token(rt: &impl Abort, token: &AccessToken, answer: Result<&str, &str>) {
    assert_that(rt, answer == Ok(token.secret().as_str()), "a token");
}

/// Checks that the text of the error is the expected one.
pub fn assert_fault<E: Display>(
    rt: &(impl Abort + AllocGlobal),
    error: &E,
    answer: Result<&str, &str>,
) {
    let fault = format!(in rt.alloc(); "{error}").expect(rt, "a text");
    assert_that(rt, answer == Err(fault.as_str()), fault.as_str());
}
