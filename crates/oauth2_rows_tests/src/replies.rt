//! Makes replies from their parts.

use http::{Response, StatusCode};
use http_header::{HeaderMap, HeaderName, HeaderValue};
use oauth2_wire::HttpResponse;
use std::alloc::Global;

/// A reply; `None` if the number is no status.
pub fn reply_of(
    alloc: Global,
    status: &str,
    headers: HeaderMap,
    body: Vec<u8>,
) -> Option<HttpResponse> {
    let status = status_of(status)?;
    let (mut head, body) = Response::new(alloc, body).into_parts();
    head.status = status;
    head.headers = headers;
    Some(Response::from_parts(head, body))
}

fn status_of(word: &str) -> Option<StatusCode> {
    StatusCode::from_u16(word.parse::<u16>().ok()?).ok()
}

/// Adds a header field with this value. Returns whether it is a valid one.
pub fn add_field(alloc: Global, headers: &mut HeaderMap, name: HeaderName, value: &[u8]) -> bool {
    match HeaderValue::from_bytes(alloc, value) {
        Ok(value) => headers.append(name, value).is_ok(),
        Err(_) => false,
    }
}
