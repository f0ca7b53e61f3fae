//! Tests of how replies are read (RFC 6749, sections 5.1 and 5.2; RFC 7009, section 2.2).

use oauth2::basic::BasicRequestTokenError;
use oauth2::{
    HttpResponse, ReplyRule, RequestTokenError, RevocationErrorResponseType, StandardErrorResponse,
    endpoint_response, endpoint_response_status_only, endpoint_response_with,
};
use oauth2_tests_support::{NoReply, check_display, check_text, reply_of};
use std::alloc::Global;
use std::test::Fail;

/// The result of a request whose response is a text.
pub type TextResult = Result<String, BasicRequestTokenError<NoReply>>;

/// The error of a revocation.
pub type RevocationError = RequestTokenError<
    u8,
    StandardErrorResponse<RevocationErrorResponseType>,
>;

/// Checks what was read from a reply: its text, or the text of the error.
pub fn check_text_result(alloc: Global, answer: TextResult, wanted: &str) -> Result<(), Fail> {
    match answer {
        Ok(text) => check_text(text.as_str(), wanted),
        Err(error) => check_display(alloc, &error, wanted),
    }
}

// Checks how a reply is read whose response is a text.
fn check_reply(alloc: Global, types: &[&[u8]], wanted: &str) -> Result<(), Fail> {
    let reply = reply_of(alloc, 200, types, b"\"a token\"")?;
    check_text_result(alloc, endpoint_response(alloc, reply), wanted)
}

/// A reply whose body is a text, with the Content-Type `application/jsonfoo`.
pub fn json_foo(alloc: Global) -> Result<HttpResponse, Fail> {
    reply_of(
        alloc,
        200,
        &[b"application/jsonfoo".as_slice()],
        b"\"a token\"",
    )
}

/// The error that the rule `MediaType` returns for `json_foo`.
pub const JSON_FOO_REFUSED: &str =
    "Other error: unexpected response Content-Type: \"application/jsonfoo\", should be \
    `application/json`";

#[test]
fn replies_that_a_caller_got(rt: HostRuntime) -> Result<(), Fail> {
    let alloc = rt.alloc();
    check_reply(alloc, &[], "a token")?;
    let types = [b"application/json".as_slice(), b"text/html".as_slice()];
    check_reply(alloc, &types, "a token")?;
    let answer = endpoint_response_with(alloc, ReplyRule::MediaType, json_foo(alloc)?);
    check_text_result(alloc, answer, JSON_FOO_REFUSED)
}

// Checks what is read from a reply when only its status says whether the request succeeded.
fn check_reply_by_status(alloc: Global, status: u16, body: &str, wanted: &str) -> Result<(), Fail> {
    let types = [b"application/octet-stream".as_slice()];
    let reply = reply_of(alloc, status, &types, body.as_bytes())?;
    let answer: Result<(), RevocationError> = endpoint_response_status_only(alloc, reply);
    match answer {
        Ok(()) => check_text("done", wanted),
        Err(error) => check_display(alloc, &error, wanted),
    }
}

#[test]
fn status_alone(rt: HostRuntime) -> Result<(), Fail> {
    check_reply_by_status(rt.alloc(), 200, "\x01\x02\x03", "done")?;
    check_reply_by_status(
        rt.alloc(),
        400,
        "{\"error\":\"unsupported_token_type\",\"error_description\":\"stuff happened\"}",
        "Server returned error response: unsupported_token_type: stuff happened",
    )
}
