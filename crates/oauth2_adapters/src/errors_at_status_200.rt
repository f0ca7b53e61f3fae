//! Error responses that a server sends with status 200.

ghost use Rattle.std.specs.Prelude.{◌≡◌, ◌==◌};
ghost use Rattle.oauth2_adapters.specs.Reply.{reply_values};

use crate::error_body::tells_error;
use crate::reply_adapter::ReplyAdapter;
use http::{Response, StatusCode};
use oauth2_wire::HttpResponse;
use std::alloc::{AllocError, Global};

/// Sets the status of an error response to 400 if it came with status 200, as the replies of GitHub
/// need.
#[derive(Clone, Copy, Debug, PartialEq, Eq)]
pub struct ErrorsAtStatus200;

impl ReplyAdapter for ErrorsAtStatus200 {
    ghost use Rattle.oauth2_adapters.specs.ErrorsAtStatus200.{error_at_400, is_read};

    ghost adapted = { λ _. error_at_400 };

    ghost needs_memory = { λ _. is_read };

    fn adapt(&self, alloc: Global, reply: HttpResponse) -> Result<HttpResponse, AllocError> {
        if is_success(&reply) && tells_error(alloc, reply.body())? {
            return Ok(at_status_400(reply));
        }
        Ok(reply)
    }
}

fn is_success(reply: &HttpResponse) -> bool
    ensures { result ≡ (reply_values reply.now).status == 200 }
{
    reply.status().as_u16() == 200
}

fn at_status_400(reply: HttpResponse) -> HttpResponse
    ensures { reply_values result ≡ record (reply_values reply) { status = 400 } }
{
    let (mut head, body) = reply.into_parts();
    head.status = StatusCode::BAD_REQUEST;
    Response::from_parts(head, body)
}
