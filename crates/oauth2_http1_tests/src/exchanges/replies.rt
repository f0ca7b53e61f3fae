//! Tests of replies as servers send them.

use crate::exchanges::checks::{GET_BYTES, assert_at, assert_text_at, outcome_of};
use crate::exchanges::wire::Wire;
use crate::support::{GET, RequestTexts};
use oauth2_http1::Bounds;
use std::process::Abort;

// One call that takes heads of 120 bytes and bodies of 64, to which the reply comes in pieces of
// these lengths; and how often the connection is read when it has given all of it.
fn assert_reply(
    rt: &(impl Abort + AllocGlobal),
    row: (&str, usize, &str),
    first: usize,
    piece: usize,
) {
    let (came, past, wanted) = row;
    let bounds = Bounds::default().set_max_head(120).set_max_body(64);
    let mut wire = Wire::new(came.as_bytes(), GET_BYTES.as_bytes()).in_pieces(first, piece);
    let outcome = outcome_of(rt, &mut wire, bounds, GET);
    assert_text_at(rt, outcome.text.as_str(), wanted, came);
    assert_at(
        rt,
        outcome.is_open && wire.is_written() && wire.reads_past == past,
        came,
    );
}

// Checks a reply that comes byte by byte, in two pieces split at every place, and in one piece.
fn assert_reply_in_pieces(rt: &(impl Abort + AllocGlobal), came: &str, past: usize, wanted: &str) {
    assert_reply(rt, (came, past, wanted), 1, 1);
    for first in 1..=came.len() {
        assert_reply(rt, (came, past, wanted), first, usize::MAX);
    }
}

// A reply, how often the connection is read when it has given all of it, and what is read.
// RFC 9112: 4 (the first line), 5 (fields), 6.3 (how long a body is), 7.1 (chunks); RFC 9110: 15.2
// (responses of 1xx).
const REPLIES: &[(&str, usize, &str)] = &[
    (
        "HTTP/1.1 200 OK\r\ncontent-length: 2\r\n\r\n{}",
        0,
        "HTTP/1.1 200\ncontent-length: 2\n\n{}",
    ),
    (
        "HTTP/1.1 200 OK\r\ncontent-length: 2\r\n\r\n{}HTTP/1.1 500 No\r\n\r\n",
        0,
        "HTTP/1.1 200\ncontent-length: 2\n\n{}",
    ),
    (
        "HTTP/1.1 200 OK\r\nContent-Length:   2  \r\nX:\r\n\r\n{}",
        0,
        "HTTP/1.1 200\ncontent-length: 2\nx: \n\n{}",
    ),
    (
        "HTTP/1.1 200 OK\r\ncontent-length: 0\r\n\r\n",
        0,
        "HTTP/1.1 200\ncontent-length: 0\n\n",
    ),
    (
        "HTTP/1.1 200 OK\r\ncontent-length: 2\r\ncontent-length: 2\r\n\r\n{}",
        0,
        "HTTP/1.1 200\ncontent-length: 2\ncontent-length: 2\n\n{}",
    ),
    (
        "HTTP/1.1 302 Found\r\nlocation: http://b.example/\r\ncontent-length: 0\r\n\r\n",
        0,
        "HTTP/1.1 302\nlocation: http://b.example/\ncontent-length: 0\n\n",
    ),
    (
        "HTTP/1.1 200 OK\r\nset-cookie: a\r\nx: 1\r\nset-cookie: b\r\ncontent-length: 0\r\n\r\n",
        0,
        "HTTP/1.1 200\nset-cookie: a\nset-cookie: b\nx: 1\ncontent-length: 0\n\n",
    ),
    (
        "HTTP/1.1 200 OK\r\ntransfer-encoding: chunked\r\n\r\n2\r\n{}\r\n0\r\n\r\n",
        0,
        "HTTP/1.1 200\ntransfer-encoding: chunked\n\n{}",
    ),
    (
        "HTTP/1.1 200 OK\r\ntransfer-encoding: chunked\r\n\r\n\
        5\r\nhello\r\n0006;a=b\r\n world\r\nA\r\n0123456789\r\n1;\r\n!\r\n00\r\n\r\n",
        0,
        "HTTP/1.1 200\ntransfer-encoding: chunked\n\nhello world0123456789!",
    ),
    (
        "HTTP/1.1 200 OK\r\nTransfer-Encoding: Chunked\r\n\r\n\
        1\r\n{\r\n1\r\n}\r\n0;x\r\na: b\r\nc: d\r\n\r\n",
        0,
        "HTTP/1.1 200\ntransfer-encoding: Chunked\n\n{}",
    ),
    (
        "HTTP/1.1 200 OK\r\ntransfer-encoding: chunked\r\n\r\n0\r\n\r\n",
        0,
        "HTTP/1.1 200\ntransfer-encoding: chunked\n\n",
    ),
    ("HTTP/1.1 200 OK\r\n\r\n{}", 1, "HTTP/1.1 200\n\n{}"),
    ("HTTP/1.1 200 OK\r\n\r\n", 1, "HTTP/1.1 200\n\n"),
    (
        "HTTP/1.0 400 Bad Request\r\n\r\nno",
        1,
        "HTTP/1.0 400\n\nno",
    ),
    (
        "HTTP/1.1 204 No Content\r\ncontent-length: 5\r\n\r\nhello",
        0,
        "HTTP/1.1 204\ncontent-length: 5\n\n",
    ),
    ("HTTP/1.1 204 No Content\r\n\r\n", 0, "HTTP/1.1 204\n\n"),
    (
        "HTTP/1.1 304 Not Modified\r\n\r\nhello",
        0,
        "HTTP/1.1 304\n\n",
    ),
    (
        "HTTP/1.1 304 Not Modified\r\ntransfer-encoding: gzip, chunked\r\n\r\n",
        0,
        "HTTP/1.1 304\ntransfer-encoding: gzip, chunked\n\n",
    ),
    (
        "HTTP/1.1 200 OK\r\ncontent-encoding: gzip\r\ncontent-length: 2\r\n\r\n\x1f{",
        0,
        "HTTP/1.1 200\ncontent-encoding: gzip\ncontent-length: 2\n\n\x1f{",
    ),
    (
        "HTTP/1.1 100 Continue\r\n\r\nHTTP/1.1 200 OK\r\ncontent-length: 1\r\n\r\nx",
        0,
        "HTTP/1.1 200\ncontent-length: 1\n\nx",
    ),
    (
        "HTTP/1.1 103 Early Hints\r\nlink: a\r\n\r\nHTTP/1.1 102 Processing\r\n\r\n\
        HTTP/1.1 401 Unauthorized\r\ncontent-length: 1\r\n\r\nx",
        0,
        "HTTP/1.1 401\ncontent-length: 1\n\nx",
    ),
    (
        "HTTP/1.1 200 OK\r\ncontent-length: 64\r\n\r\n\
        0123456789abcdef0123456789abcdef0123456789abcdef0123456789abcdef",
        0,
        "HTTP/1.1 200\ncontent-length: 64\n\n\
        0123456789abcdef0123456789abcdef0123456789abcdef0123456789abcdef",
    ),
    (
        "HTTP/1.1 200 OK\r\ncontent-length: 0\r\n\
        x: 0123456789abcdef0123456789abcdef0123456789abcdef0123456789abcdef0123456789abc\r\n\r\n",
        0,
        "HTTP/1.1 200\ncontent-length: 0\n\
        x: 0123456789abcdef0123456789abcdef0123456789abcdef0123456789abcdef0123456789abc\n\n",
    ),
];

#[test]
fn replies_in_pieces(rt: HostRuntime) {
    for (came, past, wanted) in REPLIES {
        assert_reply_in_pieces(&rt, came, *past, wanted);
    }
}

// Replies that are cut (RFC 9112, 8).
const CUT: &[&str] = &[
    "",
    "HTTP/1.1 20",
    "HTTP/1.1 200 OK\r\ncontent-length: 2\r\n",
    "HTTP/1.1 100 Continue\r\n\r\n",
    "HTTP/1.1 200 OK\r\ncontent-length: 3\r\n\r\n{}",
    "HTTP/1.1 200 OK\r\ntransfer-encoding: chunked\r\n\r\n3\r\n{}",
    "HTTP/1.1 200 OK\r\ntransfer-encoding: chunked\r\n\r\n2\r\n{}\r\n",
    "HTTP/1.1 200 OK\r\ntransfer-encoding: chunked\r\n\r\n2\r\n{}\r\n0\r\n",
    "HTTP/1.1 200 OK\r\ntransfer-encoding: chunked\r\n\r\n2\r\n{}\r\n0\r\na: b\r\n",
];

#[test]
fn replies_that_are_cut(rt: HostRuntime) {
    for came in CUT {
        assert_reply_in_pieces(&rt, came, 1, "Reply(Response(UnexpectedEof))");
    }
}

// Texts that are no reply within the bounds, and the errors. RFC 9112: 2.2 (line ends), 2.3
// (versions), 4, 5.1 and 5.2 (fields), 6.1 to 6.3 (two lengths, or none that can be read), 7.1.
const REFUSED: &[(&str, &str)] = &[
    (
        "HTTP/1.1 200 OK\r\ntransfer-encoding: chunked\r\ncontent-length: 2\r\n\r\n\
        2\r\n{}\r\n0\r\n\r\n",
        "Reply(Response(Framing(LengthAndEncoding)))",
    ),
    (
        "HTTP/1.1 200 OK\r\ncontent-length: 2\r\ncontent-length: 3\r\n\r\n{}",
        "Reply(Response(Framing(InvalidContentLength)))",
    ),
    (
        "HTTP/1.1 200 OK\r\ncontent-length: +2\r\n\r\n{}",
        "Reply(Response(Framing(InvalidContentLength)))",
    ),
    (
        "HTTP/1.1 200 OK\r\ncontent-length: 2, 2\r\n\r\n{}",
        "Reply(Response(Framing(InvalidContentLength)))",
    ),
    (
        "HTTP/1.1 200 OK\r\ncontent-length:\r\n\r\n",
        "Reply(Response(Framing(InvalidContentLength)))",
    ),
    (
        "HTTP/1.1 200 OK\r\ntransfer-encoding: chunked, gzip\r\n\r\n2\r\n{}\r\n0\r\n\r\n",
        "Reply(Response(Framing(InvalidTransferEncoding)))",
    ),
    (
        "HTTP/1.1 200 OK\r\ntransfer-encoding: chunked\r\ntransfer-encoding: chunked\r\n\r\n",
        "Reply(Response(Framing(InvalidTransferEncoding)))",
    ),
    (
        "HTTP/1.0 200 OK\r\ntransfer-encoding: chunked\r\n\r\n2\r\n{}\r\n0\r\n\r\n",
        "Reply(Response(Framing(UnexpectedTransferEncoding)))",
    ),
    (
        "HTTP/1.1 200 OK\r\ntransfer-encoding: gzip, chunked\r\n\r\n2\r\n{}\r\n0\r\n\r\n",
        "Reply(TransferCoding)",
    ),
    (
        "HTTP/1.1 200 OK\r\ntransfer-encoding: gzip\r\ntransfer-encoding: chunked\r\n\r\n",
        "Reply(TransferCoding)",
    ),
    (
        "HTTP/1.1 200 OK\r\nTransfer-Encoding: gzip\r\n\r\n\x1f",
        "Reply(TransferCoding)",
    ),
    (
        "HTTP/1.1 100 Continue\r\n\r\nHTTP/1.1 500 No\r\ntransfer-encoding: xyz\r\n\r\n",
        "Reply(TransferCoding)",
    ),
    ("\r\nHTTP/1.1 204 No Content\r\n\r\n", "Reply(EmptyLine)"),
    ("\nHTTP/1.1 204 No Content\r\n\r\n", "Reply(EmptyLine)"),
    (
        "HTTP/1.1 100 Continue\r\n\r\n\r\nHTTP/1.1 204 No Content\r\n\r\n",
        "Reply(EmptyLine)",
    ),
    ("HTTP/1.2 200 OK\r\n\r\n", "Reply(Response(Parse(Version)))"),
    (
        "HTTP/1.1 200 OK\ncontent-length: 2\n\n{}",
        "Reply(Response(BareLineFeed))",
    ),
    (
        "HTTP/1.1 200 OK\r\ntransfer-encoding: chunked\r\n\r\n2\r\n{}x\r\n0\r\n\r\n",
        "Reply(Response(Chunk(MissingCrlf)))",
    ),
    (
        "HTTP/1.1 200 OK\r\ntransfer-encoding: chunked\r\n\r\n2\n{}\n0\n\n",
        "Reply(Response(Chunk(InvalidSize)))",
    ),
    (
        "HTTP/1.1 200 OK\r\ntransfer-encoding: chunked\r\n\r\n0x2\r\n{}\r\n0\r\n\r\n",
        "Reply(Response(Chunk(InvalidSize)))",
    ),
    (
        "HTTP/1.1 200 OK\r\ntransfer-encoding: chunked\r\n\r\n10000000000000000\r\n{}",
        "Reply(Response(Chunk(SizeOverflow)))",
    ),
    (
        "HTTP/1.1 200 OK\r\ntransfer-encoding: chunked\r\n\r\n2;a\x00\r\n{}\r\n0\r\n\r\n",
        "Reply(Response(Chunk(InvalidExtension)))",
    ),
    ("HTTP/2 200 OK\r\n\r\n", "Reply(Response(Parse(Version)))"),
    ("HTTP/1.1 20 OK\r\n\r\n", "Reply(Response(Parse(Status)))"),
    (
        "HTTP/1.1 200 OK\r\ncontent-length : 2\r\n\r\n{}",
        "Reply(Response(Parse(HeaderName)))",
    ),
    (
        "HTTP/1.1 200 OK\r\nx: a\r\n b\r\ncontent-length: 2\r\n\r\n{}",
        "Reply(Response(Parse(HeaderName)))",
    ),
    (
        "HTTP/1.1 200 OK\r\nx: a\x00\r\n\r\n",
        "Reply(Response(Parse(HeaderValue)))",
    ),
    (
        "HTTP/1.1 101 Switching Protocols\r\nupgrade: x\r\nconnection: upgrade\r\n\r\n",
        "Reply(Response(UnexpectedResponse))",
    ),
    (
        "HTTP/1.1 200 OK\r\ncontent-length: 65\r\n\r\n\
        0123456789abcdef0123456789abcdef0123456789abcdef0123456789abcdefX",
        "Reply(TooLong)",
    ),
    (
        "HTTP/1.1 200 OK\r\n\r\n\
        0123456789abcdef0123456789abcdef0123456789abcdef0123456789abcdefX",
        "Reply(TooLong)",
    ),
    (
        "HTTP/1.1 200 OK\r\ntransfer-encoding: chunked\r\n\r\n\
        20\r\n0123456789abcdef0123456789abcdef\r\n20\r\n0123456789abcdef0123456789abcdef\r\n\
        1\r\nX\r\n0\r\n\r\n",
        "Reply(TooLong)",
    ),
    (
        "HTTP/1.1 200 OK\r\ncontent-length: 0\r\n\
        x: 0123456789abcdef0123456789abcdef0123456789abcdef0123456789abcdef0123456789abcX\r\n\r\n",
        "Reply(Response(TooLarge))",
    ),
];

#[test]
fn what_is_no_reply(rt: HostRuntime) {
    for (came, wanted) in REFUSED {
        assert_reply_in_pieces(&rt, came, 0, wanted);
    }
}

// A request, its bytes, a reply to it, and what the call returns.
const BY_REQUEST: &[(RequestTexts<'static>, &str, &str, &str)] = &[
    (
        RequestTexts {
            method: "HEAD",
            target: "http://as.example/a",
            fields: &[],
            body: "",
        },
        "HEAD /a HTTP/1.1\r\nhost: as.example\r\n\
        accept-encoding: identity\r\nconnection: close\r\n\r\n",
        "HTTP/1.1 200 OK\r\ncontent-length: 5\r\n\r\n",
        "HTTP/1.1 200\ncontent-length: 5\n\n",
    ),
    (
        RequestTexts {
            method: "head",
            target: "http://as.example/a",
            fields: &[],
            body: "",
        },
        "head /a HTTP/1.1\r\nhost: as.example\r\n\
        accept-encoding: identity\r\nconnection: close\r\n\r\n",
        "HTTP/1.1 200 OK\r\ncontent-length: 2\r\n\r\n{}",
        "HTTP/1.1 200\ncontent-length: 2\n\n{}",
    ),
    (
        RequestTexts {
            method: "GET",
            target: "http://as.example/a",
            fields: &[("upgrade", "x"), ("connection", "upgrade")],
            body: "",
        },
        "GET /a HTTP/1.1\r\nhost: as.example\r\nupgrade: x\r\nconnection: upgrade\r\n\
        accept-encoding: identity\r\nconnection: close\r\n\r\n",
        "HTTP/1.1 101 Switching Protocols\r\nupgrade: x\r\nconnection: upgrade\r\n\r\n",
        "Reply(Response(UnexpectedResponse))",
    ),
];

fn assert_reply_to(
    rt: &(impl Abort + AllocGlobal),
    request: RequestTexts<'_>,
    sent: &str,
    came: &str,
    wanted: &str,
) {
    let mut wire = Wire::new(came.as_bytes(), sent.as_bytes());
    let outcome = outcome_of(rt, &mut wire, Bounds::default(), request);
    assert_text_at(rt, outcome.text.as_str(), wanted, sent);
    assert_at(rt, wire.is_written() && wire.reads == 1, sent);
}

#[test]
fn replies_by_request(rt: HostRuntime) {
    for (request, sent, came, wanted) in BY_REQUEST {
        assert_reply_to(&rt, *request, sent, came, wanted);
    }
}
