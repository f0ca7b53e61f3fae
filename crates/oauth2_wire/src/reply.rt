//! What a reply says (RFC 6749, sections 5.1 and 5.2).

ghost use Rattle.std.specs.Prelude.{◌≡◌, ◌==◌, Ok};
ghost use Rattle.oauth2_wire.specs.declared.content_type.ReplyRule.TheVariants.{Prefix};
ghost use Rattle.oauth2_wire.specs.ContentType.{unexpected_type_text};
ghost use Rattle.oauth2_wire.specs.Reply.{reply_of, answer_of, status_answer_of, success_answer};
ghost use Rattle.oauth2_wire.specs.Reply.{failure_answer, body_answer, ShowsAnswer, other};
ghost use Rattle.oauth2_wire.specs.private.Failure.{ShowsFailure};

use crate::content_type::{ReplyRule, is_json_type, unexpected_type_text};
use crate::error::RequestTokenError;
use crate::http_client::HttpResponse;
use http_header::CONTENT_TYPE;
use oauth2_json::{FromJson, ReadError, read_body};
use std::alloc::{AllocError, Global};

/// Reads a reply as a `DO` (status 200) or as the server's error (any other; RFC 6749, section 5).
/// The Content-Type of a success is judged by the rule `Prefix`. If memory runs out, the error is
/// `Memory { sent: true }`, here and in the next two functions.
pub fn endpoint_response<RE, TE: FromJson, DO: FromJson>(
    alloc: Global,
    reply: HttpResponse,
) -> Result<DO, RequestTokenError<RE, TE>>
    ensures { ShowsAnswer DO.meaning TE.meaning
        (answer_of Prefix DO.reading TE.reading (reply_of reply)) result }
{
    endpoint_response_with(alloc, ReplyRule::Prefix, reply)
}

/// Reads a reply as a `DO` or as the server's error (RFC 6749, section 5), by a given rule for its
/// Content-Type.
pub fn endpoint_response_with<RE, TE: FromJson, DO: FromJson>(
    alloc: Global,
    rule: ReplyRule,
    reply: HttpResponse,
) -> Result<DO, RequestTokenError<RE, TE>>
    ensures { ShowsAnswer DO.meaning TE.meaning
        (answer_of rule DO.reading TE.reading (reply_of reply)) result }
{
    if !is_success(&reply) {
        return Err(read_failure(alloc, reply.into_body()));
    }
    read_success(alloc, rule, reply)
}

/// Reads from a reply whether the request succeeded (RFC 7009, section 2.2). The body of a success
/// is not read.
pub fn endpoint_response_status_only<RE, TE: FromJson>(
    alloc: Global,
    reply: HttpResponse,
) -> Result<(), RequestTokenError<RE, TE>>
    ensures answer { ShowsAnswer (λ done. done) TE.meaning
        (status_answer_of TE.reading (reply_of reply)) result }
    ensures success { (reply_of reply).status ≡ 200 → result ≡ Ok tt }
{
    if is_success(&reply) {
        Ok(())
    } else {
        Err(read_failure(alloc, reply.into_body()))
    }
}

// Whether the reply is a success: only status 200 is.
fn is_success(reply: &HttpResponse) -> bool
    ensures { result ≡ (reply_of reply.now).status == 200 }
{
    reply.status().as_u16() == 200
}

// Reads the reply of a success.
fn read_success<RE, TE: FromJson, DO: FromJson>(
    alloc: Global,
    rule: ReplyRule,
    reply: HttpResponse,
) -> Result<DO, RequestTokenError<RE, TE>>
    ensures { let seen = reply_of reply in
        ShowsAnswer DO.meaning TE.meaning
        (success_answer rule DO.reading seen.content_type seen.body) result }
{
    match reply.headers().get(CONTENT_TYPE) {
        Some(value) => if is_json_type(rule, value.as_bytes()) {
            read_answer(alloc, reply.into_body())
        } else {
            Err(refused_type(alloc, value.as_bytes()))
        },
        None => read_answer(alloc, reply.into_body()),
    }
}

// Reads the body of a success.
fn read_answer<RE, TE: FromJson, DO: FromJson>(
    alloc: Global,
    body: Vec<u8>,
) -> Result<DO, RequestTokenError<RE, TE>>
    ensures { ShowsAnswer DO.meaning TE.meaning (body_answer DO.reading body.items) result }
{
    if body.is_empty() {
        return Err(RequestTokenError::with_text(
            alloc,
            "server returned empty response body",
            true,
        ));
    }
    match read_body::<DO>(alloc, &body) {
        Ok(answer) => Ok(answer),
        Err(ReadError::Fault(fault)) => Err(RequestTokenError::Parse(fault, body)),
        Err(ReadError::Memory) => Err(RequestTokenError::Memory { sent: true }),
    }
}

// Reads the body of a reply that is not a success, as the server's error.
fn read_failure<RE, TE: FromJson>(alloc: Global, body: Vec<u8>) -> RequestTokenError<RE, TE>
    ensures { ShowsFailure TE.meaning (failure_answer TE.reading body.items) result }
{
    if body.is_empty() {
        return RequestTokenError::with_text(alloc, "server returned empty error response", true);
    }
    match read_body::<TE>(alloc, &body) {
        Ok(error) => RequestTokenError::ServerResponse(error),
        Err(ReadError::Fault(fault)) => RequestTokenError::Parse(fault, body),
        Err(ReadError::Memory) => RequestTokenError::Memory { sent: true },
    }
}

// The error for a Content-Type that is not JSON.
fn refused_type<RE, TE: FromJson>(alloc: Global, value: &[u8]) -> RequestTokenError<RE, TE>
    ensures { ShowsFailure TE.meaning (other (unexpected_type_text value.now)) result }
{
    match unexpected_type_text(alloc, value) {
        Ok(text) => RequestTokenError::Other(text),
        Err(AllocError) => RequestTokenError::Memory { sent: true },
    }
}
