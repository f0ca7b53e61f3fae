//! Responses to an exchange (RFC 8693, section 2.2).

use oauth2_grants::{TokenExchangeErrorType, TokenExchangeResponse};
use oauth2_json::{ParseCause, ReadError};
use oauth2_tests_support::{check_debug, check_display, check_fault, check_written, read};
use std::alloc::Global;
use std::test::Fail;

// A response with the members of the example of RFC 8693, section 2.3.
const ISSUED: &str = "{\"access_token\":\"eyJhbGciOiJFUzI1NiJ9\",\
\"issued_token_type\":\"urn:ietf:params:oauth:token-type:access_token\",\
\"token_type\":\"Bearer\",\"expires_in\":60}";

fn response(alloc: Global, body: &str) -> Result<TokenExchangeResponse, ReadError> {
    read(alloc, body)
}

// Checks which type the response tells.
fn check_told(alloc: Global, response: &TokenExchangeResponse, wanted: &str) -> Result<(), Fail> {
    check_debug(alloc, &response.extra_fields().issued_token_type(), wanted)
}

#[test]
fn the_example(rt: HostRuntime) -> Result<(), Fail> {
    let alloc = rt.alloc();
    let response = response(alloc, ISSUED)?;
    check_told(alloc, &response, "AccessToken")?;
    check_written(
        alloc,
        &response,
        "{\"access_token\":\"eyJhbGciOiJFUzI1NiJ9\",\"expires_in\":60,\
\"issued_token_type\":\"urn:ietf:params:oauth:token-type:access_token\",\"token_type\":\"bearer\"}",
    )
}

fn check_type(alloc: Global, body: &str, wanted: &str) -> Result<(), Fail> {
    let response = response(alloc, body)?;
    check_told(alloc, &response, wanted)
}

// Section 3's types, another one, and `N_A` for a token that is no access token (2.2.1).
#[test]
fn types(rt: HostRuntime) -> Result<(), Fail> {
    check_type(
        rt.alloc(),
        "{\"access_token\":\"t\",\"token_type\":\"N_A\",\
\"issued_token_type\":\"urn:ietf:params:oauth:token-type:saml2\"}",
        "Saml2",
    )?;
    check_type(
        rt.alloc(),
        "{\"access_token\":\"t\",\"token_type\":\"N_A\",\"issued_token_type\":\"urn:example:x\"}",
        "Other(\"urn:example:x\")",
    )
}

#[test]
fn no_type(rt: HostRuntime) -> Result<(), Fail> {
    let (member, missing) = ("issued_token_type", ParseCause::Missing);
    check_fault::<TokenExchangeResponse>(
        rt.alloc(),
        "{\"access_token\":\"t\",\"token_type\":\"N_A\"}",
        member,
        missing,
    )?;
    check_fault::<TokenExchangeResponse>(
        rt.alloc(),
        "{\"access_token\":\"t\",\"token_type\":\"N_A\",\"issued_token_type\":1}",
        member,
        ParseCause::WrongType,
    )
}

fn check_code(alloc: Global, json: &str, wanted: &str) -> Result<(), Fail> {
    let code: TokenExchangeErrorType = read(alloc, json)?;
    check_display(alloc, &code, wanted)?;
    check_written(alloc, &code, json)
}

// Section 2.2.2, and a code of RFC 6749, section 5.2.
#[test]
fn error_codes(rt: HostRuntime) -> Result<(), Fail> {
    check_code(rt.alloc(), "\"invalid_target\"", "invalid_target")?;
    check_code(rt.alloc(), "\"invalid_request\"", "invalid_request")?;
    check_code(rt.alloc(), "\"other\"", "other")
}
