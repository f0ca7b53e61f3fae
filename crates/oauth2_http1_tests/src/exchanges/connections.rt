//! Tests of a client that has one connection, and of a client's bounds.

use crate::exchanges::checks::{GET_BYTES, assert_at, assert_text_at, text_of};
use crate::exchanges::exchange::{MemoryClient, call};
use crate::exchanges::wire::Wire;
use crate::support::{GET, request_of};
use oauth2_http1::{Duplex, Http1Client, Over, send};
use std::io::{self, Read};
use std::process::Abort;

// Checks one call of a client.
fn assert_call(rt: &(impl Abort + AllocGlobal), client: &mut MemoryClient<'_, '_>, wanted: &str) {
    let request = request_of(rt.alloc(), GET).expect(rt, "a request");
    let text = text_of(rt, &call(client, request));
    assert_text_at(rt, text.as_str(), wanted, wanted);
}

// Checks two calls of a client that has these bounds on the body and on the number of reads.
fn assert_two_calls(
    rt: &(impl Abort + AllocGlobal),
    wire: &mut Wire<'_>,
    bounds: (usize, u32),
    wanted: &str,
) {
    let mut client = Http1Client::new(rt.alloc(), Over::new(wire))
        .set_max_body(bounds.0)
        .set_max_reads(bounds.1);
    assert_call(rt, &mut client, wanted);
    assert_call(rt, &mut client, "Connect(NoConnection)");
}

// The bounds on the body and on the number of reads, and what the first call returns.
const FIRST: &[((usize, u32), &str)] = &[
    ((2, 1), "HTTP/1.1 200\ncontent-length: 2\n\n{}"),
    ((1, 1), "Reply(TooLong)"),
    ((2, 0), "Reply(TooManyReads)"),
];

#[test]
fn a_second_call(rt: HostRuntime) {
    for (bounds, wanted) in FIRST {
        let came = b"HTTP/1.1 200 OK\r\ncontent-length: 2\r\n\r\n{}";
        let mut wire = Wire::new(came, GET_BYTES.as_bytes());
        assert_two_calls(&rt, &mut wire, *bounds, wanted);
        assert_at(&rt, wire.is_written(), wanted);
    }
}

#[test]
fn a_reader_and_a_writer(rt: HostRuntime) -> io::Result<()> {
    let mut reader = Wire::new(b"reply", b"");
    let mut writer = Wire::new(b"", b"request").in_pieces(1, 1);
    let mut both = Duplex {
        reader: &mut reader,
        writer: &mut writer,
    };
    let mut bytes = [0; 8];
    send(&mut both, b"request")?;
    let len = both.read(&mut bytes)?;
    assert_at(&rt, &bytes[..len] == b"reply".as_slice(), "what is read");
    assert_at(&rt, writer.is_written() && writer.calls == 8, "the writer");
    assert_at(&rt, reader.calls == 1, "the reader");
    Ok(())
}
