//! Functions that several of these test files share.

use crate::exchanges::exchange::{Answer, call_once, show};
use crate::exchanges::server::show_request;
use crate::exchanges::wire::Wire;
use crate::support::{RequestTexts, request_of};
use oauth2_http1::Bounds;
use std::fmt::Display;
use std::process::Abort;

/// The bytes of `support::GET`, by RFC 9112, 3 and 3.2, with the header fields that the client adds.
pub const GET_BYTES: &str = "GET /jwks HTTP/1.1\r\nhost: as.example\r\n\
accept-encoding: identity\r\nconnection: close\r\n\r\n";

/// The outcome of one call.
#[derive(Drop)]
pub struct Outcome {
    /// Whether the client opened the connection.
    pub is_open: bool,
    /// The reply or the error.
    pub text: String,
}

/// The reply or the error as a text.
pub fn text_of(rt: &(impl Abort + AllocGlobal), answer: &Answer) -> String {
    let mut text = Vec::new(rt.alloc());
    show(&mut text, answer).expect(rt, "a text");
    String::from_utf8(text).expect(rt, "a text")
}

/// The request that the kit's server reads from these bytes, as a text.
pub fn text_of_request(rt: &(impl Abort + AllocGlobal), bytes: &str) -> String {
    let mut text = Vec::new(rt.alloc());
    show_request(&mut text, bytes.as_bytes()).expect(rt, "a text");
    String::from_utf8(text).expect(rt, "a text")
}

/// Calls a client once over this connection.
pub fn outcome_of(
    rt: &(impl Abort + AllocGlobal),
    wire: &mut Wire<'_>,
    bounds: Bounds,
    request: RequestTexts<'_>,
) -> Outcome {
    let request = request_of(rt.alloc(), request).expect(rt, "a request");
    let (is_open, answer) = call_once(rt.alloc(), wire, bounds, request);
    Outcome {
        is_open,
        text: text_of(rt, &answer),
    }
}

/// Checks a condition for one row of a table. (A call is much cheaper to prove than the assertion.)
pub fn assert_at(rt: &impl Abort, is_so: bool, row: &str) {
    assert!(rt; is_so, "at {row}");
}

/// Checks a text for one row of a table.
pub fn assert_text_at(rt: &impl Abort, found: &str, wanted: &str, row: &str) {
    assert!(rt; found == wanted, "at {row}: {found}");
}

/// Checks the text that a value displays.
pub fn assert_displayed_as<T: Display>(rt: &(impl Abort + AllocGlobal), value: &T, wanted: &str) {
    let text = format!(in rt.alloc(); "{value}").expect(rt, "a text");
    assert_text_at(rt, text.as_str(), wanted, wanted);
}
