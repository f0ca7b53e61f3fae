//! Values whose bytes proofs do not see, so that no proof parses them or computes their digest.

use http::response::Parts;
use http::{Response, StatusCode};
use http_header::{CONTENT_TYPE, HeaderValue};
use oauth2_json::{FromJson, ReadError, read_body};
use oauth2_wire::HttpResponse;
use std::alloc::{AllocError, Global};
use std::test::Fail;
use url::{ParseError, Url};

/// A copy of the text.
pub fn text(alloc: Global, text: &str) -> Result<String, AllocError> {
    String::from_str(alloc, text)
}

/// The URL of this text.
pub fn url(alloc: Global, text: &str) -> Result<Url, ParseError> {
    Url::parse(alloc, text)
}

/// Reads a body of JSON.
pub fn read<T: FromJson>(alloc: Global, body: &str) -> Result<T, ReadError> {
    read_body(alloc, body.as_bytes())
}

/// A reply with this status, these values of Content-Type and this body.
pub fn reply_of(
    alloc: Global,
    status: u16,
    types: &[&[u8]],
    body: &[u8],
) -> Result<HttpResponse, Fail> {
    let mut head = Parts::new(alloc);
    head.status = StatusCode::from_u16(status)?;
    for value in types {
        let value = HeaderValue::from_bytes(alloc, value)?;
        let _ = head.headers.append(CONTENT_TYPE, value)?;
    }
    Ok(Response::from_parts(head, body.to_vec(alloc)?))
}
