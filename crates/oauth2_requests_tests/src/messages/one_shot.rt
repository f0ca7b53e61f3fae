//! Tests of sending one request by an HTTP client, which is called at most once.

use crate::messages::replies::{
    JSON_FOO_REFUSED, RevocationError, TextResult, check_text_result, json_foo,
};
use oauth2::http::{Request, Response};
use oauth2::{
    FnClient, HttpRequest, HttpResponse, ReplyRule, RequestFault, send_once, send_once_status_only,
};
use oauth2_tests_support::{OneReply, check, check_equal};
use std::alloc::Global;
use std::test::Fail;

// A request without headers and with an empty body.
fn empty_request(alloc: Global) -> HttpRequest {
    Request::new(alloc, Vec::new(alloc))
}

// A prepared request, or this fault.
fn prepared_or(alloc: Global, fault: Option<RequestFault>) -> Result<HttpRequest, RequestFault> {
    match fault {
        Some(fault) => Err(fault),
        None => Ok(empty_request(alloc)),
    }
}

// Checks the result of one request under a reply rule, and how often the client is called. The
// request could not be prepared if there is a fault. The reply has the Content-Type
// `application/jsonfoo`.
fn check_sent_once(
    alloc: Global,
    rule: ReplyRule,
    fault: Option<RequestFault>,
    wanted: &str,
    calls: u64,
) -> Result<(), Fail> {
    let mut client = OneReply::new(json_foo(alloc)?);
    let answer: TextResult = send_once(alloc, rule, prepared_or(alloc, fault), &mut client);
    check_text_result(alloc, answer, wanted)?;
    check_equal(client.calls, calls)
}

#[test]
fn one_call_at_most(rt: HostRuntime) -> Result<(), Fail> {
    let alloc = rt.alloc();
    check_sent_once(alloc, ReplyRule::Prefix, None, "a token", 1)?;
    check_sent_once(alloc, ReplyRule::MediaType, None, JSON_FOO_REFUSED, 1)?;
    let fault = Some(RequestFault::NotHttp);
    let wanted = "Other error: failed to prepare request: endpoint URL is not an HTTP target";
    check_sent_once(alloc, ReplyRule::Prefix, fault, wanted, 0)?;
    let fault = Some(RequestFault::Memory);
    check_sent_once(alloc, ReplyRule::Prefix, fault, "Out of memory", 0)
}

#[test]
fn closures(rt: HostRuntime) -> Result<(), Fail> {
    let alloc = rt.alloc();
    let mut calls = 0u8;
    let mut client = FnClient::new(|request: HttpRequest| -> Result<HttpResponse, u8> {
        calls = calls.saturating_add(1);
        Ok(Response::new(alloc, request.into_body()))
    });
    let prepared = Ok(empty_request(alloc));
    let answer: Result<(), RevocationError> = send_once_status_only(alloc, prepared, &mut client);
    let is_done = answer.is_ok();
    drop(answer);
    drop(client.into_inner());
    check(is_done, "a success")?;
    check_equal(calls, 1)
}
