//! Tests of reads and writes that fail.

use crate::exchanges::checks::{assert_at, assert_text_at, outcome_of, text_of};
use crate::exchanges::exchange::Answer;
use crate::exchanges::wire::Wire;
use crate::support::{RequestTexts, request_of};
use oauth2_http1::{Bounds, exchange};
use oauth2_wire::HttpRequest;
use std::alloc::Global;
use std::process::Abort;

const POST: RequestTexts<'static> = RequestTexts {
    method: "POST",
    target: "http://as.example/a",
    fields: &[],
    body: "a=b",
};

const POST_BYTES: &str = "POST /a HTTP/1.1\r\nhost: as.example\r\n\
    accept-encoding: identity\r\nconnection: close\r\ncontent-length: 3\r\n\r\na=b";

const REPLY: &str = "HTTP/1.1 100 Continue\r\n\r\n\
    HTTP/1.1 200 OK\r\ntransfer-encoding: chunked\r\n\r\n2\r\n{}\r\n0\r\nx: y\r\n\r\n";

const READ: &str = "HTTP/1.1 200\ntransfer-encoding: chunked\n\n{}";

const UNWRITTEN: &str = "Write(Kind(ConnectionReset))";

const UNREAD: &str = "Reply(Read(Kind(ConnectionReset)))";

// A connection that takes or returns one byte at each call, and fails at the call with this number.
fn byte_by_byte(fails_at: usize) -> Wire<'static> {
    let mut wire = Wire::new(REPLY.as_bytes(), POST_BYTES.as_bytes()).in_pieces(1, 1);
    wire.fails_at = fails_at;
    wire
}

// Checks that nothing is called after a failure, and that the beginning of the request was written
// before it.
fn assert_failure(rt: &(impl Abort + AllocGlobal), at: usize, wanted: &str) {
    let mut wire = byte_by_byte(at);
    let outcome = outcome_of(rt, &mut wire, Bounds::default(), POST);
    let unwritten = POST_BYTES.len().saturating_sub(at.saturating_sub(1));
    assert_text_at(rt, outcome.text.as_str(), wanted, "a failure");
    assert_at(rt, outcome.is_open && !wire.is_other, wanted);
    assert_at(
        rt,
        wire.calls == at && wire.awaited.len() == unwritten,
        wanted,
    );
}

// Each byte of the request is a write, one call flushes, and each byte of the reply is a read.
#[test]
fn calls_that_fail(rt: HostRuntime) {
    let sending = POST_BYTES.len().saturating_add(1);
    let all = sending.saturating_add(REPLY.len());
    for at in 1..=sending {
        assert_failure(&rt, at, UNWRITTEN);
    }
    for at in sending.saturating_add(1)..=all {
        assert_failure(&rt, at, UNREAD);
    }
    let mut wire = byte_by_byte(0);
    let outcome = outcome_of(&rt, &mut wire, Bounds::default(), POST);
    assert_text_at(&rt, outcome.text.as_str(), READ, "no failure");
    assert_at(&rt, wire.is_written() && wire.calls == all, "no failure");
}

// A writer that takes no byte.
#[test]
fn a_full_writer(rt: HostRuntime) {
    let mut wire = byte_by_byte(0).in_pieces(0, 0);
    let outcome = outcome_of(&rt, &mut wire, Bounds::default(), POST);
    let wanted = "Write(Kind(WriteZero))";
    assert_text_at(&rt, outcome.text.as_str(), wanted, "a full writer");
    assert_at(&rt, wire.calls == 1 && wire.reads == 0, "a full writer");
}

// Which call of the writer fails, which call of the reader, and what the exchange returns.
const HALVES: &[(usize, usize, &str)] = &[
    (0, 0, READ),
    (1, 0, UNWRITTEN),
    (106, 0, UNWRITTEN),
    (107, 0, UNWRITTEN),
    (0, 1, UNREAD),
    (0, 90, UNREAD),
];

fn exchange_over(
    alloc: Global,
    request: &HttpRequest,
    reader: &mut Wire<'_>,
    writer: &mut Wire<'_>,
) -> Answer {
    exchange(alloc, &Bounds::default(), request, reader, writer)
}

// One exchange over a reader and a writer: how often each is called.
fn exchanged(
    rt: &(impl Abort + AllocGlobal),
    write: usize,
    read: usize,
    wanted: &str,
) -> (usize, usize) {
    let request = request_of(rt.alloc(), POST).expect(rt, "a request");
    let (mut reader, mut writer) = (byte_by_byte(read), byte_by_byte(write));
    let answer = exchange_over(rt.alloc(), &request, &mut reader, &mut writer);
    assert_text_at(rt, text_of(rt, &answer).as_str(), wanted, wanted);
    assert_at(
        rt,
        !writer.is_other && writer.reads == 0 && reader.calls == reader.reads,
        wanted,
    );
    (writer.calls, reader.calls)
}

#[test]
fn halves_that_fail(rt: HostRuntime) {
    let all = (POST_BYTES.len().saturating_add(1), REPLY.len());
    for (write, read, wanted) in HALVES {
        let calls = exchanged(&rt, *write, *read, wanted);
        let expected = match (*write, *read) {
            (0, 0) => all,
            (0, read) => (all.0, read),
            (write, _) => (write, 0),
        };
        assert_at(&rt, calls == expected, wanted);
    }
}
