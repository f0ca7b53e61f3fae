//! Exchanges that end in time, and such as do not.

use crate::deadlines::slow_server::{Manner, Seconds, SlowServer, TimedServer};
use crate::support::{GET, request_of};
use oauth2_http1::Http1Client;
use oauth2_http1_connections::{DeadlineConnector, DeadlineStream, time_out_of};
use oauth2_wire::SyncHttpClient;
use std::process::Abort;
use std::time::Duration;

/// A reply of 27 bytes.
const REPLY: &str = "HTTP/1.1 204 No Content\r\n\r\n";

// The server, the most seconds of the exchange, and how it ends: the status of the reply, or the
// error and how far the exchange was. The clock tells 0 at the opening, 1 at the write, 2 at the flush
// and 3 at the first read.
const ROWS: &[(Manner, u64, &str)] = &[
    (Manner::Whole, 10, "204"),
    (Manner::Whole, 4, "204"),
    (
        Manner::Whole,
        3,
        "Reply(Read(Kind(TimedOut))) Some(AfterSending)",
    ),
    (Manner::Whole, 2, "Write(Kind(TimedOut)) Some(WhileSending)"),
    (Manner::Whole, 1, "Write(Kind(TimedOut)) Some(WhileSending)"),
    (Manner::Whole, 0, "Write(Kind(TimedOut)) Some(WhileSending)"),
    (Manner::Whole, u64::MAX, "204"),
    (Manner::ByBytes, 30, "204"),
    (
        Manner::ByBytes,
        29,
        "Reply(Read(Kind(TimedOut))) Some(AfterSending)",
    ),
    (
        Manner::ByBytes,
        4,
        "Reply(Read(Kind(TimedOut))) Some(AfterSending)",
    ),
    (
        Manner::Silent,
        10,
        "Reply(Read(Kind(WouldBlock))) Some(AfterSending)",
    ),
    (
        Manner::Resets,
        10,
        "Reply(Read(Kind(ConnectionReset))) None",
    ),
    // the five seconds of the opening count
    (Manner::OpensLate, 9, "204"),
    (
        Manner::OpensLate,
        8,
        "Reply(Read(Kind(TimedOut))) Some(AfterSending)",
    ),
    (
        Manner::OpensLate,
        6,
        "Write(Kind(TimedOut)) Some(WhileSending)",
    ),
    (Manner::Unlimited, 10, "Write(Kind(InvalidInput)) None"),
    (Manner::Closed, 10, "Connect(Kind(TimedOut)) None"),
];

// How an exchange with this server ends, which takes at most so many seconds.
fn end_of(rt: &(impl Abort + AllocGlobal), manner: Manner, most_seconds: u64) -> String {
    let alloc = rt.alloc();
    let server = SlowServer {
        manner,
        reply: REPLY.as_bytes(),
    };
    let clock = Seconds(0);
    let place = TimedServer { server, clock };
    let connector = DeadlineConnector::new(place, Duration::from_secs(most_seconds));
    let mut http_client = Http1Client::new(alloc, connector);
    let request = request_of(alloc, GET).expect(rt, "a request");
    match http_client.call(request) {
        Ok(reply) => format!(in alloc; "{}", reply.status().as_u16()),
        Err(error) => format!(in alloc; "{error:?} {:?}", time_out_of(&error)),
    }
    .expect(rt, "a text")
}

#[test]
fn ends_of_exchanges(rt: HostRuntime) {
    for (manner, most_seconds, wanted) in ROWS {
        let end = end_of(&rt, *manner, *most_seconds);
        assert!(rt; end.as_str() == *wanted, "{most_seconds}: {end}");
    }
}

#[test]
fn a_stream_is_handed_back(rt: HostRuntime) {
    let server = SlowServer {
        manner: Manner::Whole,
        reply: b"abc",
    };
    let stream = DeadlineStream::new(server, Seconds(0), Duration::from_secs(1));
    assert!(rt; stream.into_stream().reply == b"abc".as_slice());
}
