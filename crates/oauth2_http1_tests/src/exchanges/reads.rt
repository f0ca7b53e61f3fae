//! Tests of how much is read, and how often.

use crate::exchanges::checks::{GET_BYTES, assert_at, assert_text_at, outcome_of};
use crate::exchanges::wire::Wire;
use crate::support::GET;
use oauth2_http1::Bounds;
use std::process::Abort;

// One read requests this many bytes.
const CHUNK: usize = 4096;

// How a reply begins, and a text that then repeats without end; what a call returns whose bounds
// are 500 bytes for heads, for extensions and for trailers, and 64 for bodies; and after how many
// bytes that is clear. In all the call takes 8 * (500 + 500 + 500 + 64) bytes.
const ENDLESS: &[(&str, &str, &str, usize)] = &[
    ("", "\r\n", "Reply(EmptyLine)", 1),
    ("H", "a", "Reply(Response(Parse(Version)))", 2),
    (
        "",
        "HTTP/1.1 100 Continue\r\n\r\n",
        "Reply(TooManyBytes)",
        12_512,
    ),
    (
        "HTTP/1.1 200 OK\r\ntransfer-encoding: chunked\r\n\r\n",
        "0",
        "Reply(TooManyBytes)",
        12_512,
    ),
    (
        "HTTP/1.1 200 OK\r\ntransfer-encoding: chunked\r\n\r\n1",
        " ",
        "Reply(TooManyBytes)",
        12_512,
    ),
    (
        "HTTP/1.1 200 OK\r\nx: ",
        "a",
        "Reply(Response(TooLarge))",
        500,
    ),
    (
        "HTTP/1.1 200 OK\r\ntransfer-encoding: chunked\r\n\r\n0\r\nx: ",
        "a",
        "Reply(Response(TooLarge))",
        50 + 500,
    ),
    (
        "HTTP/1.1 200 OK\r\ntransfer-encoding: chunked\r\n\r\n1;",
        "a",
        "Reply(Response(Chunk(ExtensionsTooLong)))",
        49 + 501,
    ),
    (
        "HTTP/1.1 200 OK\r\ntransfer-encoding: chunked\r\n\r\n",
        "1\r\na\r\n",
        "Reply(TooLong)",
        47 + 64 * 6 + 4,
    ),
    (
        "HTTP/1.1 200 OK\r\ncontent-length: 18446744073709551615\r\n\r\n",
        "a",
        "Reply(TooLong)",
        57 + 65,
    ),
    ("HTTP/1.1 200 OK\r\n\r\n", "a", "Reply(TooLong)", 19 + 65),
];

fn endless<'a>(came: &'a str, again: &'a str) -> Wire<'a> {
    let mut wire = Wire::new(came.as_bytes(), GET_BYTES.as_bytes());
    wire.again = again.as_bytes();
    wire
}

// How many bytes a call reads from this connection, within these bounds.
fn taken(
    rt: &(impl Abort + AllocGlobal),
    mut wire: Wire<'_>,
    bounds: Bounds,
    wanted: &str,
) -> usize {
    let outcome = outcome_of(rt, &mut wire, bounds, GET);
    assert_text_at(rt, outcome.text.as_str(), wanted, wanted);
    wire.given
}

// Checks that the last read begins before the error is clear, and takes at most the bytes of one
// read.
fn assert_end(rt: &(impl Abort + AllocGlobal), came: &str, text: &str, wanted: &str, shows: usize) {
    let bounds = Bounds::default()
        .set_max_head(500)
        .set_max_extensions(500)
        .set_max_trailers(500)
        .set_max_body(64);
    let again = text.repeat(rt.alloc(), CHUNK).expect(rt, "a text");
    let bytes = taken(
        rt,
        endless(came, again.as_str()).in_pieces(1, 1),
        bounds,
        wanted,
    );
    let whole = taken(rt, endless(came, again.as_str()), bounds, wanted);
    assert_at(
        rt,
        bytes == shows && whole < shows.saturating_add(CHUNK),
        wanted,
    );
}

#[test]
fn replies_without_an_end(rt: HostRuntime) {
    for (came, text, wanted, shows) in ENDLESS {
        assert_end(&rt, came, text, wanted, *shows);
    }
}

const REPLY: &str = "HTTP/1.1 200 OK\r\ncontent-length: 2\r\n\r\n{}";

const READ: &str = "HTTP/1.1 200\ncontent-length: 2\n\n{}";

const TOO_MANY: &str = "Reply(TooManyReads)";

// A reply as in the table above, how often it may be read, and what the call returns.
const READS: &[(&str, &str, u32, &str)] = &[
    (REPLY, "", 40, READ),
    (REPLY, "", 39, TOO_MANY),
    (REPLY, "", 1, TOO_MANY),
    (REPLY, "", 0, TOO_MANY),
    ("HTTP/1.1 200 OK\r\n\r\n", "", 20, "HTTP/1.1 200\n\n"),
    ("HTTP/1.1 200 OK\r\n\r\n", "", 19, TOO_MANY),
    ("HTTP/1.1 200 OK\r\n\r\n", "a", 200, TOO_MANY),
    ("", "HTTP/1.1 100 Continue\r\n\r\n", 200, TOO_MANY),
    (
        "HTTP/1.1 200 OK\r\ntransfer-encoding: chunked\r\n\r\n",
        "0",
        200,
        TOO_MANY,
    ),
];

// How often a call reads this connection, byte by byte.
fn read_count(
    rt: &(impl Abort + AllocGlobal),
    wire: Wire<'_>,
    max_reads: u32,
    wanted: &str,
) -> usize {
    let mut wire = wire.in_pieces(1, 1);
    let bounds = Bounds::default().set_max_reads(max_reads);
    let outcome = outcome_of(rt, &mut wire, bounds, GET);
    assert_text_at(rt, outcome.text.as_str(), wanted, wanted);
    wire.reads
}

#[test]
fn reads_are_counted(rt: HostRuntime) {
    for (came, again, max_reads, wanted) in READS {
        let reads = read_count(&rt, endless(came, again), *max_reads, wanted);
        assert_at(&rt, reads == *max_reads as usize, came);
    }
}

// How often each read is interrupted, what the call returns, and how often it reads.
const INTERRUPTED: &[(usize, &str, usize)] = &[
    (0, READ, 40),
    (1, READ, 2 * 40),
    (63, READ, 64 * 40),
    (64, "Reply(Read(Kind(Interrupted)))", 64),
];

// The interrupted reads do not count.
#[test]
fn reads_that_are_interrupted(rt: HostRuntime) {
    for (interrupts, wanted, reads) in INTERRUPTED {
        let wire = Wire {
            interrupts: *interrupts,
            interrupts_left: *interrupts,
            ..endless(REPLY, "")
        };
        assert_at(&rt, read_count(&rt, wire, 40, wanted) == *reads, wanted);
    }
}
