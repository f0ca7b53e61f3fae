//! Tests of queries without a URL, and of error codes. Scripts test whole URLs.

use oauth2_codes::AuthorizationErrorResponseType::{
    self, AccessDenied, InvalidRequest, InvalidScope, ServerError, TemporarilyUnavailable,
    UnauthorizedClient, UnsupportedResponseType,
};
use oauth2_redirect::{ExpectedIssuer, RedirectError, read_redirect_query};
use oauth2_tests_support::{check, check_display, check_equal, check_text};
use oauth2_types::{AuthorizationCode, CsrfToken};
use std::alloc::{AllocError, Global};
use std::test::Fail;

// Describes the result of reading a redirect, in one line.
fn describe(
    alloc: Global,
    read: Result<AuthorizationCode, RedirectError>,
) -> Result<String, AllocError> {
    match read {
        Ok(code) => format!(in alloc; "code {}", code.secret()),
        Err(error) => format!(in alloc; "{error}"),
    }
}

// Reads a query for a login with the state `s7`, and describes the result.
fn describe_query(alloc: Global, query: &str) -> Result<String, AllocError> {
    let state = CsrfToken::from_str(alloc, "s7")?;
    let read = read_redirect_query(alloc, query, &state, ExpectedIssuer::Unknown);
    describe(alloc, read)
}

// A query, and what it is read as.
const QUERIES: [(&str, &str); 4] = [
    ("state=s7&code=a+b%20c%2Bd", "code a b c+d"),
    ("", "redirect has another state"),
    (
        "error=access_denied&error_description=the+user%20said%20no&state=s7",
        "access_denied: the user said no",
    ),
    ("state=s7", "redirect has no code"),
];

#[test]
fn reads_a_query(rt: HostRuntime) -> Result<(), Fail> {
    for (query, expected) in QUERIES {
        check_text(describe_query(rt.alloc(), query)?.as_str(), expected)?;
    }
    Ok(())
}

// The error code with this text.
fn code(alloc: Global, text: &str) -> Result<AuthorizationErrorResponseType, AllocError> {
    Ok(AuthorizationErrorResponseType::from_text(String::from_str(alloc, text)?))
}

#[test]
fn names_the_codes(rt: HostRuntime) -> Result<(), Fail> {
    let alloc = rt.alloc();
    let rows = [
        ("access_denied", AccessDenied),
        ("invalid_request", InvalidRequest),
        ("invalid_scope", InvalidScope),
        ("server_error", ServerError),
        ("temporarily_unavailable", TemporarilyUnavailable),
        ("unauthorized_client", UnauthorizedClient),
        ("unsupported_response_type", UnsupportedResponseType),
    ];
    for (text, expected) in rows {
        check_display(alloc, &expected, text)?;
        check_equal(code(alloc, text)?, expected)?;
    }
    check(code(alloc, "Access_denied")? != AccessDenied, "capitals")
}
