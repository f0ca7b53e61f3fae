//! Replies that are allocated before a row's call.

ghost use Rattle.std.specs.Prelude.{◌≡◌, IfOk};
ghost use Rattle.oauth2_wire.specs.Reply.{reply_of};

use http_header::{CONTENT_TYPE, HeaderValue};
use oauth2::HttpResponse;
use oauth2::http::response::Parts;
use oauth2::http::{Response, StatusCode};
use oauth2_refusals_support::{Ended, Want, text};
use std::alloc::Global;

/// The status, the Content-Type and the body of a reply.
#[derive(Clone, Copy)]
pub struct ReplyTexts<'a> {
    pub status: u16,
    pub content_type: Option<&'a str>,
    pub body: &'a str,
}

fn typed(alloc: Global, head: &mut Parts, content_type: &str) -> Result<(), Ended>
    ensures { head.new.status ≡ head.old.status }
{
    let Ok(value) = HeaderValue::from_bytes(alloc, content_type.as_bytes()) else {
        return Err(Ended::Starved(Want::Row));
    };
    match head.headers.insert(CONTENT_TYPE, value) {
        Ok(_) => Ok(()),
        Err(_) => Err(Ended::Starved(Want::Row)),
    }
}

/// Makes the reply.
pub fn ready_reply(alloc: Global, texts: ReplyTexts<'_>) -> Result<HttpResponse, Ended>
    ensures body { IfOk result (λ reply. (reply_of reply).body ≡ texts.entry.body.now) }
    ensures status { IfOk result (λ reply. (reply_of reply).status ≡ texts.entry.status) }
{
    let Ok(status) = StatusCode::from_u16(texts.status) else {
        return Err(Ended::Refused);
    };
    let mut head = Parts::new(alloc);
    head.status = status;
    if let Some(content_type) = texts.content_type {
        typed(alloc, &mut head, content_type)?;
    }
    let body = text(alloc, texts.body)?;
    Ok(Response::from_parts(head, body.into_bytes()))
}
