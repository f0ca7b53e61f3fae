//! The replies of a script.

ghost use Rattle.std.specs.Prelude.{◌≡◌, option_map, IfOk};
ghost use Rattle.serde_json.specs.View.{view};
ghost use Rattle.oauth2_script_values.specs.Gives.{Gives};
ghost use Rattle.oauth2_script.specs.Replies as spec;

use base64::DecodeAllocError;
use base64::engine::general_purpose::STANDARD;
use http::StatusCode;
use http_header::HeaderValue;
use oauth2_script_values::{
    Part, PartError, ScriptCause, Step, an_object, bad, bad_member, needed, optional, read_inside,
};
use serde_json::Value;
use std::alloc::{AllocError, Global};

/// An HTTP reply of the server.
#[derive(Drop)]
pub struct HttpReply {
    pub status: StatusCode,
    pub content_type: Option<HeaderValue>,
    pub body: Vec<u8>,
}

/// What one call of the scripted client returns.
#[derive(Drop)]
pub enum Reply {
    Replied(HttpReply),
    Failed,
}

// The bytes of a text in Base64; `None` for any other text.
#[tactic(auto, unfolding(crate::specs::Replies::base64_of))]
fn base64_of(alloc: Global, text: &str) -> Result<Option<Vec<u8>>, AllocError>
    ensures { IfOk result (λ found. option_map (λ v. v.items) found ≡ spec.base64_of text.now) }
{
    match STANDARD.decode(alloc, text.as_bytes()) {
        Ok(bytes) => Ok(Some(bytes)),
        Err(DecodeAllocError::DecodeError(_)) => Ok(None),
        Err(DecodeAllocError::OutOfMemory) => Err(AllocError),
    }
}

// A body that a script has in Base64.
#[derive(Drop)]
struct Base64Body {
    bytes: Vec<u8>,
}

impl Part for Base64Body {
    ghost use Rattle.std.specs.Prelude.{ℕ, List};

    ghost Meaning = { List ℕ };

    ghost meaning = { λ body. body.bytes.items };

    ghost reading = { spec.base64_bytes };

    fn from_value(alloc: Global, value: &Value) -> Result<Base64Body, PartError> {
        let text = value.as_str().ok_or(bad(ScriptCause::WrongType))?;
        match base64_of(alloc, text)? {
            Some(bytes) => Ok(Base64Body { bytes }),
            None => Err(bad(ScriptCause::BadText)),
        }
    }
}

#[tactic(auto, unfolding(crate::specs::Replies::body_of))]
fn body_of(alloc: Global, value: &Value) -> Result<Vec<u8>, PartError>
    ensures { Gives (λ v. v.items) result (spec.body_of (view value.now)) }
{
    match (value.get("body"), value.get("body_base64")) {
        (Some(text), None) => {
            let text: String = read_inside(alloc, Step::Member("body"), text)?;
            Ok(text.into_bytes())
        }
        (None, Some(encoded)) => {
            let body: Base64Body = read_inside(alloc, Step::Member("body_base64"), encoded)?;
            Ok(body.bytes)
        }
        (Some(_), Some(_)) => Err(PartError::Bad(bad_member("body_base64", ScriptCause::Excluded))),
        (None, None) => Err(PartError::Bad(bad_member("body", ScriptCause::Missing))),
    }
}

impl Part for HttpReply {
    ghost use Rattle.oauth2_script.specs.Views.{http_reply_view};

    ghost Meaning = { spec.HttpReply };

    ghost meaning = { http_reply_view };

    ghost reading = { spec.http_reply };

    #[tactic(auto, unfolding(crate::specs::Replies::http_reply))]
    fn from_value(alloc: Global, value: &Value) -> Result<HttpReply, PartError> {
        let status: StatusCode = match needed(alloc, value, "status") {
            Ok(status) => status,
            Err(e) => return Err(e),
        };
        let content_type = optional(alloc, value, "content_type")?;
        let body = body_of(alloc, value)?;
        Ok(HttpReply {
            status,
            content_type,
            body,
        })
    }
}

impl Part for Reply {
    ghost use Rattle.oauth2_script.specs.Views.{stored_reply};

    ghost Meaning = { spec.Reply };

    ghost meaning = { stored_reply };

    ghost reading = { spec.reply };

    fn from_value(alloc: Global, value: &Value) -> Result<Reply, PartError> {
        an_object(value)?;
        match value.get("fail") {
            None => Ok(Reply::Replied(HttpReply::from_value(alloc, value)?)),
            Some(Value::Bool(true)) => Ok(Reply::Failed),
            Some(_) => Err(PartError::Bad(bad_member("fail", ScriptCause::WrongType))),
        }
    }
}
