//! Replies to a push (RFC 9126, sections 2.2 and 2.3), and the URL for the user (section 4).

use crate::pushed_requests::pusher::{PARAMETERS, Pusher};
use oauth2_json::ParseCause;
use oauth2_pushed_requests::PushedAuthorizationResponse;
use oauth2_tests_support::{
    NoReply, OneReply, check, check_debug, check_display, check_equal, check_fault, check_text,
    check_written, read,
};
use oauth2_wire::{AuthType, BasicRequestTokenError, RequestTokenError};
use std::alloc::Global;
use std::test::Fail;
use std::time::Duration;

// The body of the example in section 2.2.
const CREATED: &str = "{\n \"request_uri\":\n   \
\"urn:ietf:params:oauth:request_uri:6esc_11ACC5bwc014ltc14eY22c\",\n \"expires_in\": 60\n}";

// The body of the example in section 2.3.
const REFUSED: &str = "{\n  \"error\": \"invalid_request\",\n  \"error_description\":\n    \
\"The redirect_uri is not valid for the given client\"\n}";

// What a push returns.
type Answer = Result<PushedAuthorizationResponse, BasicRequestTokenError<NoReply>>;

// What the push of the example's parameters returns.
fn answer(alloc: Global, pusher: &Pusher, client: &mut OneReply) -> Result<Answer, Fail> {
    let push = pusher.push(alloc, PARAMETERS)??;
    Ok(push.request(alloc, client))
}

// What it returns if the reply has this status and this body.
fn answer_to(alloc: Global, pusher: &Pusher, status: u16, body: &str) -> Result<Answer, Fail> {
    let mut client = OneReply::with_body(alloc, status, body)?;
    answer(alloc, pusher, &mut client)
}

// Checks the URL that the user is sent to after this response.
fn check_url(
    alloc: Global,
    pusher: &Pusher,
    pushed: &PushedAuthorizationResponse,
    wanted: &str,
) -> Result<(), Fail> {
    let url = pushed.authorization_url(alloc, &pusher.auth_url, &pusher.id)?;
    check_text(url.as_str(), wanted)
}

// Checks what is read of the reply of section 2.2, and the URL of section 4.
fn check_created(alloc: Global, pusher: &Pusher, answer: Answer) -> Result<(), Fail> {
    match answer {
        Ok(pushed) => {
            check_equal(pushed.expires_in(), Duration::from_secs(60))?;
            check_url(
                alloc,
                pusher,
                &pushed,
                "https://as.example.com/authorize?client_id=s6BhdRkqt3\
&request_uri=urn%3Aietf%3Aparams%3Aoauth%3Arequest_uri%3A6esc_11ACC5bwc014ltc14eY22c",
            )
        }
        Err(_) => Err(Fail::new(format_args!("no response"))),
    }
}

// The reply of section 2.2, for which one request is sent.
#[test]
fn the_example(rt: HostRuntime) -> Result<(), Fail> {
    let alloc = rt.alloc();
    let pusher = Pusher::of_the_example(alloc)?;
    let mut client = OneReply::with_body(alloc, 201, CREATED)?;
    let answer = answer(alloc, &pusher, &mut client)?;
    check_created(alloc, &pusher, answer)?;
    check_equal(client.calls, 1)
}

// Checks that the server's error was read.
fn check_server_error(alloc: Global, answer: Answer) -> Result<(), Fail> {
    match answer {
        Err(RequestTokenError::ServerResponse(error)) => check_display(
            alloc,
            &error,
            "invalid_request: The redirect_uri is not valid for the given client",
        ),
        _ => Err(Fail::new(format_args!("no error"))),
    }
}

// The error of section 2.3.
#[test]
fn an_error(rt: HostRuntime) -> Result<(), Fail> {
    let alloc = rt.alloc();
    let pusher = Pusher::of_the_example(alloc)?;
    let answer = answer_to(alloc, &pusher, 400, REFUSED)?;
    check_server_error(alloc, answer)
}

// Whether the body was read as that of an error, and has no code.
fn is_unread(answer: &Answer) -> bool {
    match answer {
        Err(RequestTokenError::Parse(fault, _)) => fault.member.as_str() == "error",
        _ => false,
    }
}

fn check_unread(alloc: Global, pusher: &Pusher, status: u16) -> Result<(), Fail> {
    let answer = answer_to(alloc, pusher, status, CREATED)?;
    check(is_unread(&answer), "a status")
}

// Only status 201 is a success.
#[test]
fn other_statuses(rt: HostRuntime) -> Result<(), Fail> {
    let pusher = Pusher::of_the_example(rt.alloc())?;
    for status in [200, 202, 204, 400] {
        check_unread(rt.alloc(), &pusher, status)?;
    }
    Ok(())
}

#[test]
fn responses(rt: HostRuntime) -> Result<(), Fail> {
    let alloc = rt.alloc();
    let pushed: PushedAuthorizationResponse = read(alloc, CREATED)?;
    check_text(
        pushed.request_uri(),
        "urn:ietf:params:oauth:request_uri:6esc_11ACC5bwc014ltc14eY22c",
    )?;
    check_debug(alloc, &pushed, "PushedAuthorizationResponse([redacted])")?;
    check_written(
        alloc,
        &pushed,
        "{\"expires_in\":60,\
\"request_uri\":\"urn:ietf:params:oauth:request_uri:6esc_11ACC5bwc014ltc14eY22c\"}",
    )
}

#[test]
fn faults(rt: HostRuntime) -> Result<(), Fail> {
    for (body, member, cause) in [
        ("{\"expires_in\":60}", "request_uri", ParseCause::Missing),
        (
            "{\"request_uri\":1,\"expires_in\":60}",
            "request_uri",
            ParseCause::WrongType,
        ),
        ("{\"request_uri\":\"u\"}", "expires_in", ParseCause::Missing),
        (
            "{\"request_uri\":\"u\",\"expires_in\":\"60\"}",
            "expires_in",
            ParseCause::WrongType,
        ),
        (
            "{\"request_uri\":\"u\",\"expires_in\":-1}",
            "expires_in",
            ParseCause::OutOfRange,
        ),
        (
            "{\"request_uri\":\"\",\"expires_in\":60}",
            "request_uri",
            ParseCause::Missing,
        ),
        (
            "{\"request_uri\":\"u\",\"expires_in\":0}",
            "expires_in",
            ParseCause::OutOfRange,
        ),
        ("{\"request_uri\":\"\"}", "expires_in", ParseCause::Missing),
    ] {
        check_fault::<PushedAuthorizationResponse>(rt.alloc(), body, member, cause)?;
    }
    Ok(())
}

// The query of the endpoint is kept.
#[test]
fn a_query_of_the_endpoint(rt: HostRuntime) -> Result<(), Fail> {
    let alloc = rt.alloc();
    let pusher = Pusher::new(alloc, AuthType::BasicAuth, None, "?t=1")?;
    let pushed: PushedAuthorizationResponse = read(
        alloc,
        "{\"request_uri\":\"u\",\"expires_in\":1}",
    )?;
    check_url(
        alloc,
        &pusher,
        &pushed,
        "https://as.example.com/authorize?t=1&client_id=s6BhdRkqt3&request_uri=u",
    )
}
