//! Reads the bytes of a request as the kit's HTTP server does.

ghost use Rattle.httparse.specs.Spans.{IsRequestWithin};

use http1::{Event, Limits, Server};
use httparse::spans::{EMPTY_HEADER_SPAN, HeaderSpan, RequestSpans};
use std::io::{self, Write};

// Writes a head in the form of RFC 9112, 2.1, 3 and 5.
fn show_head<W: Write>(
    out: &mut W,
    input: &[u8],
    fields: &[HeaderSpan],
    head: &RequestSpans,
) -> io::Result<()>
    requires { IsRequestWithin input.now fields.now head.now }
{
    out.write_all(head.method.of(input))?;
    out.write_all(b" ")?;
    out.write_all(head.path.of(input))?;
    write!(out, " HTTP/1.{}\r\n", head.version)?;
    for field in &fields[..head.headers] {
        out.write_all(field.name.of(input))?;
        out.write_all(b": ")?;
        out.write_all(field.value.of(input))?;
        out.write_all(b"\r\n")?;
    }
    out.write_all(b"\r\n")
}

/// Writes the head and the body that the server reads, or why it reads no request that ends where
/// the bytes end.
///
/// A method and a target hold no space, a name no colon, and a value no line end. So requests with
/// the same text have the same parts.
pub fn show_request<W: Write>(out: &mut W, request: &[u8]) -> io::Result<()> {
    let mut server = Server::new(Limits::default());
    let mut fields = [EMPTY_HEADER_SPAN; 8];
    let mut left = request;
    // A head, a body and an end.
    for _ in 0..3 {
        let read = match server.read(left, &mut fields) {
            Ok(read) => read,
            Err(e) => return write!(out, "{e:?}"),
        };
        match read.event {
            Event::Head(head) => show_head(out, left, &fields, &head)?,
            Event::Data(piece) => out.write_all(piece.of(left))?,
            Event::End(0) if read.consumed == left.len() => return Ok(()),
            event => return write!(out, "{event:?}"),
        }
        left = &left[read.consumed..];
    }
    write!(out, "no end")
}
