//! What several modules share: requests by their texts, and bytes that come in pieces.

ghost use Rattle.std.specs.Prelude.{◌≤◌, length};

use http::request::Parts;
use http::{Method, Request, Version};
use http_header::{HeaderMap, HeaderName, HeaderValue};
use http_uri::Uri;
use oauth2_wire::HttpRequest;
use std::alloc::Global;

/// The texts of a request.
#[derive(Clone, Copy)]
pub struct RequestTexts<'a> {
    pub method: &'a str,
    pub target: &'a str,
    pub fields: &'a [(&'a str, &'a str)],
    pub body: &'a str,
}

/// A request without a body.
pub const GET: RequestTexts<'static> = RequestTexts {
    method: "GET",
    target: "http://as.example/jwks",
    fields: &[],
    body: "",
};

fn method_of(alloc: Global, text: &str) -> Option<Method> {
    Method::from_bytes(alloc, text.as_bytes()).ok()
}

fn target_of(alloc: Global, text: &str) -> Option<Uri> {
    Uri::from_str(alloc, text).ok()
}

fn head_of(alloc: Global, method: &str, target: &str, headers: HeaderMap) -> Option<Parts> {
    let method = method_of(alloc, method)?;
    let uri = target_of(alloc, target)?;
    Some(Parts {
        method,
        uri,
        version: Version::HTTP_11,
        headers,
    })
}

/// Adds a field. `None` if memory runs out, or if the name or the value is not valid.
pub fn add_field(alloc: Global, fields: &mut HeaderMap, name: &str, value: &[u8]) -> Option<()> {
    let name = HeaderName::from_bytes(alloc, name.as_bytes()).ok()?;
    let value = HeaderValue::from_bytes(alloc, value).ok()?;
    fields.append(name, value).ok()?;
    Some(())
}

fn fields_of(alloc: Global, fields: &[(&str, &str)]) -> Option<HeaderMap> {
    let mut map = HeaderMap::new(alloc);
    for (name, value) in fields {
        add_field(alloc, &mut map, name, value.as_bytes())?;
    }
    Some(map)
}

/// The request of this method and this target. `None` if memory runs out, or if one of them is not
/// valid.
pub fn request_with(
    alloc: Global,
    method: &str,
    target: &str,
    headers: HeaderMap,
    body: Vec<u8>,
) -> Option<HttpRequest> {
    Some(Request::from_parts(head_of(alloc, method, target, headers)?, body))
}

/// The request of these texts. `None` if memory runs out, or if one of them is not valid in a
/// request.
pub fn request_of(alloc: Global, texts: RequestTexts<'_>) -> Option<HttpRequest> {
    let body = texts.body.as_bytes().to_vec(alloc).ok()?;
    let headers = fields_of(alloc, texts.fields)?;
    request_with(alloc, texts.method, texts.target, headers, body)
}

/// Reads at most `most` of the bytes that are left into `chunk`, and returns how many came.
pub fn read_piece(left: &mut &[u8], most: usize, chunk: &mut [u8]) -> usize
    ensures { result ≤ length chunk.new }
{
    let len = left.len().min(most).min(chunk.len());
    let (piece, rest) = left.split_at(len);
    chunk[..len].copy_from_slice(piece);
    *left = rest;
    len
}
