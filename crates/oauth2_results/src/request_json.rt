//! Requests as JSON.

ghost use Rattle.std.specs.Prelude.{◌≡◌, IfOk, map, option_map, string_bytes};
ghost use Rattle.http_header.specs.FieldValue.{FieldValue};
ghost use Rattle.oauth2_wire.specs.Request.{view_of};
ghost use Rattle.oauth2_wire.specs.ServerView.{pair_texts};
ghost use Rattle.oauth2_results.specs.RequestJson as spec;

use crate::decoded::decode;
use crate::json_text::{list_text, object_text, pair_json};
use http_header::{HeaderMap, HeaderName, HeaderValue};
use oauth2_wire::HttpRequest;
use oauth2_world::quoted;
use std::alloc::{AllocError, Global};

/// The bytes as a JSON string, with U+FFFD in place of what is not UTF-8.
pub fn lossy_json(alloc: Global, bytes: &[u8]) -> Result<String, AllocError>
    ensures { IfOk result (λ s. string_bytes s ≡ spec.lossy_json bytes.now) }
{
    let text = String::from_utf8_lossy(alloc, bytes)?;
    let json = quoted(alloc, text.as_str())?;
    Ok(json)
}

fn header_json(alloc: Global, name: &HeaderName, value: &HeaderValue) -> Result<String, AllocError>
    ensures { IfOk result (λ s. string_bytes s ≡ spec.header_json (name.now, value.now)) }
{
    let value = String::from_utf8_lossy(alloc, value.as_bytes())?;
    let json = pair_json(alloc, name.as_str(), value.as_str())?;
    Ok(json)
}

fn headers_json(alloc: Global, headers: &HeaderMap) -> Result<String, AllocError>
    ensures { IfOk result (λ s. string_bytes s ≡ spec.headers_json headers.now) }
{
    let mut items = Vec::new(alloc);
    for (name, value) in headers {
        items.push(header_json(alloc, name, value)?)?;
    }
    let json = list_text(alloc, items.as_slice())?;
    Ok(json)
}

fn basic_json(alloc: Global, credentials: &Option<(String, String)>) -> Result<String, AllocError>
    ensures { IfOk result (λ s. string_bytes s
        ≡ spec.basic_json (option_map pair_texts credentials.now)) }
{
    match credentials {
        Some((id, secret)) => pair_json(alloc, id.as_str(), secret.as_str()),
        None => String::from_str(alloc, "null"),
    }
}

fn pairs_json(alloc: Global, pairs: &[(String, String)]) -> Result<String, AllocError>
    ensures { IfOk result (λ s. string_bytes s
        ≡ spec.pairs_json (map pair_texts pairs.now)) }
{
    let mut items = Vec::new(alloc);
    for (name, value) in pairs {
        items.push(pair_json(alloc, name.as_str(), value.as_str())?)?;
    }
    let json = list_text(alloc, items.as_slice())?;
    Ok(json)
}

/// A request as a JSON object.
pub fn request_json(alloc: Global, request: &HttpRequest) -> Result<String, AllocError>
    ensures { IfOk result (λ s. string_bytes s ≡ spec.request_json (view_of request.now)) }
{
    let decoded = decode(alloc, request)?;
    let method = quoted(alloc, request.method().as_str())?;
    let url = quoted(alloc, request.uri().to_string(alloc)?.as_str())?;
    let headers = headers_json(alloc, request.headers())?;
    let body = lossy_json(alloc, request.body())?;
    let basic = basic_json(alloc, &decoded.basic)?;
    let pairs = pairs_json(alloc, decoded.pairs.as_slice())?;
    let members = [
        ("method", method.as_str()),
        ("url", url.as_str()),
        ("headers", headers.as_str()),
        ("body", body.as_str()),
        ("basic", basic.as_str()),
        ("pairs", pairs.as_str()),
    ];
    let json = object_text(alloc, &members)?;
    Ok(json)
}
