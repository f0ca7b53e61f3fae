//! Tests of each bound, with replies just inside and just outside it.

use crate::exchanges::checks::{GET_BYTES, assert_at, assert_text_at, outcome_of};
use crate::exchanges::wire::Wire;
use crate::support::GET;
use oauth2_http1::Bounds;
use std::process::Abort;

#[derive(Clone, Copy)]
enum Bound {
    Head(usize),
    Extensions(usize),
    Trailers(usize),
    Body(usize),
}

fn bounds_of(bound: Bound) -> Bounds {
    let bounds = Bounds::default();
    match bound {
        Bound::Head(bytes) => bounds.set_max_head(bytes),
        Bound::Extensions(bytes) => bounds.set_max_extensions(bytes),
        Bound::Trailers(bytes) => bounds.set_max_trailers(bytes),
        Bound::Body(bytes) => bounds.set_max_body(bytes),
    }
}

const LENGTH: &str = "HTTP/1.1 200 OK\r\ncontent-length: 2\r\n\r\n{}";

const LENGTH_READ: &str = "HTTP/1.1 200\ncontent-length: 2\n\n{}";

const CHUNKS: &str = "HTTP/1.1 200 OK\r\ntransfer-encoding: chunked\r\n\r\n\
    1;x=y\r\n{\r\n1;z\r\n}\r\n0\r\na: b\r\n\r\n";

const CHUNKS_READ: &str = "HTTP/1.1 200\ntransfer-encoding: chunked\n\n{}";

const CLOSE: &str = "HTTP/1.1 200 OK\r\n\r\n{}";

const CLOSE_READ: &str = "HTTP/1.1 200\n\n{}";

const TOO_LARGE: &str = "Reply(Response(TooLarge))";

// A bound, a reply, and what the call returns.
const BOUNDS: &[(Bound, &str, &str)] = &[
    (Bound::Head(38), LENGTH, LENGTH_READ),
    (Bound::Head(37), LENGTH, TOO_LARGE),
    (Bound::Extensions(4), CHUNKS, CHUNKS_READ),
    (
        Bound::Extensions(3),
        CHUNKS,
        "Reply(Response(Chunk(ExtensionsTooLong)))",
    ),
    (Bound::Trailers(8), CHUNKS, CHUNKS_READ),
    (Bound::Trailers(7), CHUNKS, TOO_LARGE),
    (Bound::Body(2), LENGTH, LENGTH_READ),
    (Bound::Body(1), LENGTH, "Reply(TooLong)"),
    (Bound::Body(0), LENGTH, "Reply(TooLong)"),
    (Bound::Body(2), CHUNKS, CHUNKS_READ),
    (Bound::Body(1), CHUNKS, "Reply(TooLong)"),
    (Bound::Body(2), CLOSE, CLOSE_READ),
    (Bound::Body(1), CLOSE, "Reply(TooLong)"),
];

// What a call returns within one bound, if the reply comes in pieces of this many bytes.
fn text_within(rt: &(impl Abort + AllocGlobal), bound: Bound, came: &str, piece: usize) -> String {
    let mut wire = Wire::new(came.as_bytes(), GET_BYTES.as_bytes()).in_pieces(piece, piece);
    outcome_of(rt, &mut wire, bounds_of(bound), GET).text
}

fn assert_text_within(rt: &(impl Abort + AllocGlobal), bound: Bound, came: &str, wanted: &str) {
    assert_text_at(rt, text_within(rt, bound, came, 1).as_str(), wanted, came);
    assert_text_at(
        rt,
        text_within(rt, bound, came, usize::MAX).as_str(),
        wanted,
        came,
    );
}

#[test]
fn each_bound(rt: HostRuntime) {
    for (bound, came, wanted) in BOUNDS {
        assert_text_within(&rt, *bound, came, wanted);
    }
}

// How a reply begins, a text that is then repeated, how often, how the reply ends, the bound on its
// head, and the beginning of what the call returns. 16,384 is the default bound. The last two rows
// are just below and just above the longest name that a map of headers can hold.
type LongRow = (
    &'static str,
    &'static str,
    usize,
    &'static str,
    usize,
    &'static str,
);

const NO_CONTENT: &str = "HTTP/1.1 204 No Content\r\n";

const LAST_CHUNK: &str = "HTTP/1.1 200 OK\r\ntransfer-encoding: chunked\r\n\r\n0\r\n";

const TOO_MANY: &str = "Reply(Response(Parse(TooManyHeaders)))";

const LONG: &[LongRow] = &[
    (
        NO_CONTENT,
        "a",
        16_352,
        ": b\r\n\r\n",
        16_384,
        "HTTP/1.1 204\na",
    ),
    (NO_CONTENT, "a", 16_353, ": b\r\n\r\n", 16_384, TOO_LARGE),
    (
        NO_CONTENT,
        "a: b\r\n",
        100,
        "\r\n",
        16_384,
        "HTTP/1.1 204\na: b\n",
    ),
    (NO_CONTENT, "a: b\r\n", 101, "\r\n", 16_384, TOO_MANY),
    (
        LAST_CHUNK,
        "a: b\r\n",
        100,
        "\r\n",
        16_384,
        "HTTP/1.1 200\n",
    ),
    (LAST_CHUNK, "a: b\r\n", 101, "\r\n", 16_384, TOO_MANY),
    (
        NO_CONTENT,
        "a",
        65_535,
        ": b\r\n\r\n",
        70_000,
        "HTTP/1.1 204\na",
    ),
    (
        NO_CONTENT,
        "a",
        65_536,
        ": b\r\n\r\n",
        70_000,
        "Reply(Fields)",
    ),
];

fn assert_start_within(rt: &(impl Abort + AllocGlobal), row: LongRow) {
    let (start, text, times, end, max_head, wanted) = row;
    let middle = text.repeat(rt.alloc(), times).expect(rt, "a text");
    let came = format!(in rt.alloc(); "{start}{middle}{end}").expect(rt, "a text");
    for piece in [100, 4096] {
        let text = text_within(rt, Bound::Head(max_head), came.as_str(), piece);
        assert_at(rt, text.starts_with(wanted), wanted);
    }
}

#[test]
fn long_heads(rt: HostRuntime) {
    for row in LONG {
        assert_start_within(&rt, *row);
    }
}
