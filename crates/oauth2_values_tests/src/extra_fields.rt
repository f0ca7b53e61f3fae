//! Responses with extra fields.

use crate::support::{check_not_written, check_rewritten};
use oauth2::basic::BasicTokenType;
use oauth2::{
    AccessToken, DeviceAuthorizationResponse, ExtraFields, ParseCause, StandardTokenResponse,
    WriteError,
};
use oauth2_tests_support::{check, check_equal, check_fault, read, text};
use std::alloc::Global;
use std::test::Fail;

type RawToken = StandardTokenResponse<ExtraFields, BasicTokenType>;

#[test]
fn members_left_are_extra_fields(rt: HostRuntime) -> Result<(), Fail> {
    let token = r#"{"access_token":"t","id_token":"x","n":1,"token_type":"bearer"}"#;
    check_rewritten::<RawToken>(rt.alloc(), token, token)?;
    check_rewritten::<RawToken>(
        rt.alloc(),
        "{\"z\":1,\"token_type\":\"Bearer\",\"y\":{\"b\":[\"\\u0061\",{\"c\":null}],\"a\":-1},\
        \"access_token\":\"t\",\"z\":true}",
        r#"{"access_token":"t","token_type":"bearer","y":{"a":-1,"b":["a",{"c":null}]},"z":true}"#,
    )
}

#[test]
fn extra_fields_of_a_device_response(rt: HostRuntime) -> Result<(), Fail> {
    let written = "{\"device_code\":\"d\",\"expires_in\":1,\"interval\":5,\"user_code\":\"u\",\
        \"verification_uri\":\"https://v/\",\"z\":[]}";
    check_rewritten::<DeviceAuthorizationResponse<ExtraFields>>(rt.alloc(), written, written)?;
    check_rewritten::<DeviceAuthorizationResponse<ExtraFields>>(
        rt.alloc(),
        "{\"device_code\":\"d\",\"user_code\":\"u\",\"verification_url\":\"https://v/\",\
        \"expires_in\":1,\"z\":[]}",
        written,
    )
}

// Checks what the getters return for a text, for a number and for a member that is absent.
fn check_fields(fields: &ExtraFields) -> Result<(), Fail> {
    check_equal(fields.text("id_token"), Some("x"))?;
    check_equal(fields.text("n"), None)?;
    let number = fields.get("n").ok_or("no member")?;
    check_equal(number.as_u64(), Some(1))?;
    check(fields.get("m").is_none(), "m")
}

#[test]
fn members_that_are_left(rt: HostRuntime) -> Result<(), Fail> {
    check_fault::<ExtraFields>(rt.alloc(), "[]", "", ParseCause::NotObject)?;
    let fields = read::<ExtraFields>(rt.alloc(), r#"{"id_token":"x","n":1}"#)?;
    check_fields(&fields)
}

// A token response with these extra fields.
fn with_raw(alloc: Global, fields: &str) -> Result<RawToken, Fail> {
    let access_token = AccessToken::new(text(alloc, "t")?);
    let extra_fields = read::<ExtraFields>(alloc, fields)?;
    Ok(StandardTokenResponse::new(access_token, BasicTokenType::Bearer, extra_fields))
}

#[test]
fn clash_is_refused_before_a_float(rt: HostRuntime) -> Result<(), Fail> {
    for (fields, refusal) in [
        (r#"{"scope":"x"}"#, WriteError::NameClash),
        (r#"{"scope":[1.5]}"#, WriteError::NameClash),
        (r#"{"a":{"b":[1.5]}}"#, WriteError::Float),
        (r#"{"c":[{"d":1.5}]}"#, WriteError::Float),
        (r#"{"a":{"b":[1.5]},"scope":"x"}"#, WriteError::NameClash),
    ] {
        check_not_written(rt.alloc(), with_raw(rt.alloc(), fields)?, refusal, fields)?;
    }
    Ok(())
}
