//! Sending one request and reading its reply.

ghost use Rattle.oauth2_wire.specs.Reply.{accepted, reply_of, answer_of, status_answer_of};
ghost use Rattle.oauth2_wire.specs.Once.{KeepsSuccess, SendsOnce};
ghost use Rattle.oauth2_wire.specs.declared.error.RequestTokenError.TheVariants.{Memory};
ghost use Rattle.std.specs.Prelude.{◌≢◌, true, IfErr};

use crate::content_type::ReplyRule;
use crate::error::RequestTokenError;
use crate::http_client::{HttpResponse, SyncHttpClient};
use crate::reply::{endpoint_response_status_only, endpoint_response_with};
use crate::request::{HttpRequest, RequestFault};
use oauth2_json::FromJson;
use std::alloc::Global;

/// Sends a prepared request once, and reads its reply by this rule for the Content-Type. If the
/// request could not be prepared, nothing is sent.
pub fn send_once<C: SyncHttpClient, TE: FromJson, DO: FromJson>(
    alloc: Global,
    rule: ReplyRule,
    prepared: Result<HttpRequest, RequestFault>,
    http_client: &mut C,
) -> Result<DO, RequestTokenError<C::Error, TE>>
    requires { C.is_ready http_client.old }
    ensures once { SendsOnce DO.meaning TE.meaning C.step (answer_of rule DO.reading TE.reading)
        http_client.old prepared result http_client.new }
    ensures ready { C.is_ready http_client.new }
{
    match call(alloc, prepared, http_client) {
        Ok(reply) => endpoint_response_with(alloc, rule, reply),
        Err(error) => Err(error),
    }
}

/// Sends a prepared request once, and reads from the status of its reply whether it succeeded. The
/// body of a success is not read. If the request could not be prepared, nothing is sent.
pub fn send_once_status_only<C: SyncHttpClient, TE: FromJson>(
    alloc: Global,
    prepared: Result<HttpRequest, RequestFault>,
    http_client: &mut C,
) -> Result<(), RequestTokenError<C::Error, TE>>
    requires { C.is_ready http_client.old }
    ensures once { SendsOnce (λ done. done) TE.meaning C.step (status_answer_of TE.reading)
        http_client.old prepared result http_client.new }
    ensures success { SendsOnce (λ done. done) TE.meaning (KeepsSuccess C.step result)
        (status_answer_of TE.reading) http_client.old prepared result http_client.new }
    ensures ready { C.is_ready http_client.new }
{
    match call(alloc, prepared, http_client) {
        Ok(reply) => endpoint_response_status_only(alloc, reply),
        Err(error) => Err(error),
    }
}

// The reply to a prepared request, or why there is none: it could not be prepared, or the client
// failed.
fn call<C: SyncHttpClient, TE>(
    alloc: Global,
    prepared: Result<HttpRequest, RequestFault>,
    http_client: &mut C,
) -> Result<HttpResponse, RequestTokenError<C::Error, TE>>
    requires { C.is_ready http_client.old }
    ensures once { SendsOnce reply_of (λ error. error) C.step accepted
        http_client.old prepared result http_client.new }
    ensures unsent { IfErr result (λ error. error ≢ Memory true) }
    ensures ready { C.is_ready http_client.new }
{
    match prepared {
        Ok(request) => match http_client.call(request) {
            Ok(reply) => Ok(reply),
            Err(error) => Err(RequestTokenError::Request(error)),
        },
        Err(fault) => Err(RequestTokenError::unprepared(alloc, fault, false)),
    }
}
