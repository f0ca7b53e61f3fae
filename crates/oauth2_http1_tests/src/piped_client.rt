//! A client of HTTP/1.1 that uses connections again, whose network is on the other side of standard
//! input and output.
//!
//! Each line is one of these. Bytes are hexadecimal digits, and `-` if there are none.
//!
//! - `client MOST_IDLE MAX_BODY [USER_AGENT]`: from now on the client is another one, with these
//!   settings, the last one in bytes. At first it has the default ones.
//! - `call METHOD URL BODY [NAME VALUE]..`: a request, with its fields. The body and the values are
//!   bytes.
//!
//! In a call the program prints what it asks, a line each, and reads a line for an answer:
//!
//! | It prints | The answer |
//! |---|---|
//! | `open SCHEME HOST PORT` | a number for the connection, or anything else if there is none |
//! | `write NUMBER BYTES` | how many of the bytes were written, or anything else if it failed |
//! | `read NUMBER MOST` | the next bytes, at most so many, `-` at their end, or anything else |
//! | `look NUMBER` | `silent` if it is open and no byte waits on it, or anything else |
//!
//! `close NUMBER` needs no answer: the connection was dropped. The last line of a call is `= ` and
//! what it returned: `= reply STATUS BODY [CONTENT_TYPE]`, in bytes, `= failed ERROR`, or
//! `= unanswered AGAIN ERROR`, where AGAIN says whether the request may be sent again. `= client`
//! follows a line of settings, and `= ?` a line that is no such line.

mod pipe;
mod results;
mod words;

use http_header::HeaderValue;
use oauth2_http1::Bounds;
use oauth2_http1_connections::KeepAliveClient;
use oauth2_wire::SyncHttpClient;
pub use pipe::Pipe;
use pipe::{PipeConnector, PipeStream};
use std::alloc::Global;
use std::str::SplitWhitespace;

pub type PipeClient<'r> = KeepAliveClient<PipeConnector<'r>, PipeStream<'r>>;

/// A client with the default settings.
pub fn default_client<'r>(pipe: &'r Pipe<'r>) -> PipeClient<'r> {
    KeepAliveClient::new(pipe.rt.alloc(), PipeConnector { pipe })
}

/// The client that the words of a line set.
pub fn client_of<'r>(
    pipe: &'r Pipe<'r>,
    words: &mut SplitWhitespace<'_>,
) -> Option<PipeClient<'r>> {
    let alloc = pipe.rt.alloc();
    let most_idle = words.next()?.parse::<usize>().ok()?;
    let max_body = words.next()?.parse::<usize>().ok()?;
    let client = default_client(pipe)
        .set_most_idle(most_idle)
        .set_bounds(Bounds::default().set_max_body(max_body));
    match words.next() {
        Some(word) => {
            let bytes = words::bytes_of(alloc, word)?;
            let agent = HeaderValue::from_bytes(alloc, bytes.as_slice()).ok()?;
            Some(client.set_user_agent(agent))
        }
        None => Some(client),
    }
}

/// The words for what became of the request that the words of a line are.
pub fn call(
    alloc: Global,
    client: &mut PipeClient<'_>,
    words: &mut SplitWhitespace<'_>,
) -> Option<String> {
    let request = words::request_of(alloc, words)?;
    results::result_words(alloc, client.call(request))
}
