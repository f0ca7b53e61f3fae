//! Sending a push once, and reading its reply: status 201 is its success (RFC 9126, section 2.2).

ghost use Rattle.std.specs.Prelude.{◌≡◌, ◌==◌, if◌then◌else◌};
ghost use Rattle.oauth2_wire.specs.Once.{SendsOnce};
ghost use Rattle.oauth2_wire.specs.Reply.{ShowsAnswer, reply_of};
ghost use Rattle.oauth2_pushed_requests.specs.Pushed.{pushed_answer_of};

use crate::pushed_authorization_response::PushedAuthorizationResponse;
use http::{Response, StatusCode};
use oauth2_json::FromJson;
use oauth2_wire::{
    HttpRequest, HttpResponse, ReplyRule, RequestFault, RequestTokenError, SyncHttpClient,
    endpoint_response_with,
};
use std::alloc::Global;

// Sends a prepared request once, and reads its reply. If the request could not be prepared, nothing
// is sent.
pub(crate) fn send_push<C: SyncHttpClient, TE: FromJson>(
    alloc: Global,
    rule: ReplyRule,
    prepared: Result<HttpRequest, RequestFault>,
    http_client: &mut C,
) -> Result<PushedAuthorizationResponse, RequestTokenError<C::Error, TE>>
    requires { C.is_ready http_client.old }
    ensures once { SendsOnce (λ r. r) TE.meaning C.step (pushed_answer_of rule TE.reading)
        http_client.old prepared result http_client.new }
    ensures ready { C.is_ready http_client.new }
{
    match prepared {
        Ok(request) => match http_client.call(request) {
            Ok(reply) => read_created(alloc, rule, reply),
            Err(error) => Err(RequestTokenError::Request(error)),
        },
        Err(fault) => Err(RequestTokenError::unprepared(alloc, fault, false)),
    }
}

// Reads a reply, of which only one with status 201 is a success.
fn read_created<RE, TE: FromJson>(
    alloc: Global,
    rule: ReplyRule,
    reply: HttpResponse,
) -> Result<PushedAuthorizationResponse, RequestTokenError<RE, TE>>
    ensures { ShowsAnswer (λ r. r) TE.meaning
        (pushed_answer_of rule TE.reading (reply_of reply)) result }
{
    endpoint_response_with(alloc, rule, as_token_reply(reply))
}

// The reply by which a token endpoint says the same: its success has status 200 instead of 201, and
// every error has status 400.
fn as_token_reply(reply: HttpResponse) -> HttpResponse
    ensures { let seen = reply_of reply in
        reply_of result ≡ record seen { status = (if seen.status == 201 then 200 else 400) } }
{
    let (mut head, body) = reply.into_parts();
    head.status = token_status(head.status);
    Response::from_parts(head, body)
}

fn token_status(status: StatusCode) -> StatusCode
    ensures { result ≡ (if status == 201 then 200 else 400) }
{
    if status.as_u16() == 201 {
        StatusCode::OK
    } else {
        StatusCode::BAD_REQUEST
    }
}
