//! One exchange over a connection in memory, and its result as a text.

use crate::exchanges::wire::Wire;
use http_header::{HeaderName, HeaderValue};
use oauth2_http1::{Bounds, Http1Client, Http1Error, NoConnection, Over};
use oauth2_wire::{HttpRequest, HttpResponse, SyncHttpClient};
use std::alloc::Global;
use std::io::{self, Write};

/// What one call returns.
pub type Answer = Result<HttpResponse, Http1Error<NoConnection>>;

/// A client whose connection is in memory.
pub type MemoryClient<'a, 'b> = Http1Client<Over<&'a mut Wire<'b>>>;

/// Calls a client.
pub fn call(client: &mut MemoryClient<'_, '_>, request: HttpRequest) -> Answer {
    client.call(request)
}

/// Calls a client once, which has this connection. Also returns whether the client opened it.
pub fn call_once(
    alloc: Global,
    wire: &mut Wire<'_>,
    bounds: Bounds,
    request: HttpRequest,
) -> (bool, Answer) {
    let mut client = Http1Client::new(alloc, Over::new(wire)).set_bounds(bounds);
    let answer = call(&mut client, request);
    (client.into_connect().into_stream().is_none(), answer)
}

fn show_field<W: Write>(out: &mut W, name: &HeaderName, value: &HeaderValue) -> io::Result<()> {
    write!(out, "{name}: ")?;
    out.write_all(value.as_bytes())?;
    out.write_all(b"\n")
}

fn show_reply<W: Write>(out: &mut W, reply: &HttpResponse) -> io::Result<()> {
    writeln!(out, "{:?} {}", reply.version(), reply.status().as_u16())?;
    for (name, value) in reply.headers() {
        show_field(out, name, value)?;
    }
    out.write_all(b"\n")?;
    out.write_all(reply.body())
}

/// Writes a reply as version and status, its fields each on a line, an empty line and the body, and
/// an error by its name.
pub fn show<W: Write>(out: &mut W, answer: &Answer) -> io::Result<()> {
    match answer {
        Ok(reply) => show_reply(out, reply),
        Err(error) => write!(out, "{error:?}"),
    }
}

/// Calls a client once, as `call_once` does, and writes the result. Returns whether the client
/// opened the connection.
pub fn show_once<W: Write>(
    alloc: Global,
    wire: &mut Wire<'_>,
    request: HttpRequest,
    out: &mut W,
) -> io::Result<bool> {
    let (is_open, answer) = call_once(alloc, wire, Bounds::default(), request);
    show(out, &answer)?;
    Ok(is_open)
}
