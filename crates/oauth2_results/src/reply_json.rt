//! Replies as JSON.

ghost use Rattle.std.specs.Prelude.{◌≡◌, IfOk, option_map, string_bytes};
ghost use Rattle.oauth2_script.specs.Views.{http_reply_view};
ghost use Rattle.oauth2_world.specs.Replies.{view_of_http_reply};
ghost use Rattle.oauth2_results.specs.ReplyJson as spec;

use crate::json_text::object_text;
use crate::request_json::lossy_json;
use http_header::HeaderValue;
use oauth2_script::HttpReply;
use serde_json::Value;
use std::alloc::{AllocError, Global};

// A text that is one JSON value as it is, and `null` for another text.
fn text_json(alloc: Global, text: &str) -> Result<String, AllocError>
    ensures { IfOk result (λ s. string_bytes s ≡ spec.text_json text.now) }
{
    match Value::from_str(alloc, text) {
        Ok(_) => String::from_str(alloc, text),
        Err(error) => if error.is_memory() {
            Err(AllocError)
        } else {
            String::from_str(alloc, "null")
        },
    }
}

fn body_json(alloc: Global, body: &[u8]) -> Result<String, AllocError>
    ensures { IfOk result (λ s. string_bytes s ≡ spec.body_json body.now) }
{
    match str::from_utf8(body) {
        Ok(text) => text_json(alloc, text),
        Err(_) => String::from_str(alloc, "null"),
    }
}

fn content_type_json(alloc: Global, value: &Option<HeaderValue>) -> Result<String, AllocError>
    ensures { IfOk result (λ s. string_bytes s
        ≡ spec.content_type_json (option_map (λ v. v.bytes) value.now)) }
{
    match value {
        Some(value) => lossy_json(alloc, value.as_bytes()),
        None => String::from_str(alloc, "null"),
    }
}

// A reply that came, as a JSON object.
fn one_reply_json(alloc: Global, reply: &HttpReply) -> Result<String, AllocError>
    ensures { IfOk result (λ s. string_bytes s
        ≡ spec.one_reply_json (view_of_http_reply (http_reply_view reply.now))) }
{
    let status = reply.status.as_u16().to_string(alloc)?;
    let content_type = content_type_json(alloc, &reply.content_type)?;
    let body = body_json(alloc, reply.body.as_slice())?;
    let members = [
        ("status", status.as_str()),
        ("content_type", content_type.as_str()),
        ("json", body.as_str()),
    ];
    let json = object_text(alloc, &members)?;
    Ok(json)
}

/// A reply as a JSON object, or `null` if there is none.
pub fn reply_json(alloc: Global, reply: &Option<HttpReply>) -> Result<String, AllocError>
    ensures { IfOk result (λ s. string_bytes s ≡ spec.reply_json
        (option_map (λ r. view_of_http_reply (http_reply_view r)) reply.now)) }
{
    match reply {
        Some(reply) => one_reply_json(alloc, reply),
        None => String::from_str(alloc, "null"),
    }
}
