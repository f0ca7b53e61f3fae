//! Error codes and error responses (RFC 6749, section 5.2), and the body that holds one.

use crate::support::is_fault;
use oauth2::basic::{BasicErrorResponse, BasicErrorResponseType};
use oauth2::{
    DeviceCodeErrorResponseType, ErrorResponse, ParseCause, StandardErrorResponse,
    TextErrorResponseType, TryClone, WriteError, compact, read_body,
};
use oauth2_tests_support::{
    check, check_debug, check_display, check_equal, check_fault, check_text, check_written, read,
    text,
};
use std::alloc::Global;
use std::convert::AsStr;
use std::test::Fail;

#[test]
fn codes_are_compared_with_case(rt: HostRuntime) -> Result<(), Fail> {
    let error = read::<BasicErrorResponseType>(rt.alloc(), r#""Invalid_Client""#)?;
    check_debug(rt.alloc(), &error, "Invalid_Client")?;
    let extension = BasicErrorResponseType::Extension(text(rt.alloc(), "Invalid_Client")?);
    check_equal(error, extension)
}

// The JSON text of an extension code, as one of the codes of a device's poll.
fn written_code(alloc: Global, code: String) -> Result<String, WriteError> {
    let basic = BasicErrorResponseType::Extension(code);
    compact(alloc, &DeviceCodeErrorResponseType::Basic(basic))
}

#[test]
fn written_code_reads_as_its_own_variant(rt: HostRuntime) -> Result<(), Fail> {
    let written = written_code(rt.alloc(), text(rt.alloc(), "slow_down")?)?;
    check_text(written.as_str(), r#""slow_down""#)?;
    let read = read::<DeviceCodeErrorResponseType>(rt.alloc(), written.as_str())?;
    check_equal(read, DeviceCodeErrorResponseType::SlowDown)
}

#[test]
fn code_of_any_text(rt: HostRuntime) -> Result<(), Fail> {
    let code = read::<TextErrorResponseType>(rt.alloc(), r#""Invalid_Client""#)?;
    check_equal(code.try_clone(rt.alloc())?, code)?;
    check_fault::<TextErrorResponseType>(rt.alloc(), "1", "", ParseCause::WrongType)
}

// Checks what a generic caller prints that knows only this trait.
fn check_error_response<E: ErrorResponse>(
    alloc: Global,
    response: &E,
    wanted: &str,
) -> Result<(), Fail> {
    check_display(alloc, response, wanted)
}

#[test]
fn response_with_a_code_of_any_text(rt: HostRuntime) -> Result<(), Fail> {
    let written = r#"{"error":"too_many_requests","error_description":"wait"}"#;
    let response = read::<StandardErrorResponse<TextErrorResponseType>>(rt.alloc(), written)?;
    check_error_response(rt.alloc(), &response, "too_many_requests: wait")?;
    check_written(rt.alloc(), &response, written)
}

fn invalid_client(alloc: Global) -> Result<BasicErrorResponse, Fail> {
    let description = text(alloc, "Invalid client_id")?;
    let uri = text(alloc, "https://example.com/errors/invalid_client")?;
    Ok(StandardErrorResponse::new(
        BasicErrorResponseType::InvalidClient,
        Some(description),
        Some(uri),
    ))
}

#[test]
fn error_response_is_written(rt: HostRuntime) -> Result<(), Fail> {
    let written = "{\"error\":\"invalid_client\",\"error_description\":\"Invalid client_id\",\
        \"error_uri\":\"https://example.com/errors/invalid_client\"}";
    let response = invalid_client(rt.alloc())?;
    check_written(rt.alloc(), &response, written)?;
    check_equal(read::<BasicErrorResponse>(rt.alloc(), written)?, response)
}

#[test]
fn body_is_utf8(rt: HostRuntime) -> Result<(), Fail> {
    let read = read_body::<BasicErrorResponse>(rt.alloc(), &[255]);
    check(is_fault(read, "", ParseCause::NotJson), "no UTF-8")
}

// An error response with a member whose value is this many nested lists.
fn nest_lists(alloc: Global, lists: usize) -> Result<String, Fail> {
    let open = "[".repeat(alloc, lists)?;
    let close = "]".repeat(alloc, lists)?;
    Ok(format!(in alloc; "{{\"error\":\"x\",\"more\":{open}{close}}}")?)
}

// Checks that a body with this many nested lists is read.
fn check_nested(alloc: Global, lists: usize) -> Result<(), Fail> {
    let body = nest_lists(alloc, lists)?;
    let read = read::<BasicErrorResponse>(alloc, body.as_str())?;
    check_text(read.error().as_str(), "x")
}

// Checks that a body with this many nested lists is refused.
fn check_too_deep(alloc: Global, lists: usize) -> Result<(), Fail> {
    let body = nest_lists(alloc, lists)?;
    check_fault::<BasicErrorResponse>(alloc, body.as_str(), "", ParseCause::NotJson)
}

#[test]
fn body_nests_to_127(rt: HostRuntime) -> Result<(), Fail> {
    check_nested(rt.alloc(), 126)?;
    check_too_deep(rt.alloc(), 127)
}
