//! Extra fields as a list of named members: a text, a number, a truth value and any value.

ghost use Rattle.std.specs.Prelude.{codes};

use crate::support::{check_copy_kept, check_kept, check_not_written, check_rewritten};
use oauth2::basic::BasicTokenType;
use oauth2::{
    DeviceAuthorizationResponse, EmptyExtraDeviceAuthorizationFields, EmptyExtraTokenFields,
    ExtraFields, ExtraTokenFields, NamedMember, ParseCause, StandardTokenIntrospectionResponse,
    StandardTokenResponse, TryClone, WithMember, WriteError,
};
use oauth2_tests_support::{check, check_equal, check_fault, check_text, read, text};
use serde_json::Value;
use std::alloc::Global;
use std::test::Fail;

struct IdToken;

impl NamedMember for IdToken {
    type Value = String;

    ghost name = { codes "id_token" };

    fn name() -> &'static str {
        "id_token"
    }
}

struct ExtExpiresIn;

impl NamedMember for ExtExpiresIn {
    type Value = u64;

    ghost name = { codes "ext_expires_in" };

    fn name() -> &'static str {
        "ext_expires_in"
    }
}

struct Offline;

impl NamedMember for Offline {
    type Value = bool;

    ghost name = { codes "offline" };

    fn name() -> &'static str {
        "offline"
    }
}

struct Confirmation;

impl NamedMember for Confirmation {
    type Value = Value;

    ghost name = { codes "cnf" };

    fn name() -> &'static str {
        "cnf"
    }
}

type OfflineFields = WithMember<Offline, WithMember<Confirmation, EmptyExtraTokenFields>>;

type IdentityFields = WithMember<IdToken, WithMember<ExtExpiresIn, OfflineFields>>;

type DeviceFields = WithMember<Confirmation, EmptyExtraDeviceAuthorizationFields>;

// Checks the text, the number, the truth value and the list.
fn check_told(fields: &IdentityFields) -> Result<(), Fail> {
    let id_token = fields.value().ok_or("no text")?;
    check_text(id_token.as_str(), "x")?;
    let rest = fields.rest();
    check_equal(rest.value(), Some(&7))?;
    let rest = rest.rest();
    check_equal(rest.value(), Some(&true))?;
    let confirmation = rest.rest().value().ok_or("no value")?;
    check(confirmation.is_array(), "cnf")
}

#[test]
fn named_members_are_told(rt: HostRuntime) -> Result<(), Fail> {
    let fields = read::<IdentityFields>(
        rt.alloc(),
        r#"{"n":1,"id_token":"x","ext_expires_in":7,"offline":true,"cnf":[]}"#,
    )?;
    check_told(&fields)
}

// Checks that the lifetime is the only member.
fn check_lifetime_alone(fields: &IdentityFields) -> Result<(), Fail> {
    check(fields.value().is_none(), "id_token")?;
    let rest = fields.rest();
    check(rest.value().is_some(), "ext_expires_in")?;
    let rest = rest.rest();
    check(rest.value().is_none(), "offline")?;
    check(rest.rest().value().is_none(), "cnf")
}

#[test]
fn absent_and_null_members_are_none(rt: HostRuntime) -> Result<(), Fail> {
    for body in [
        r#"{"ext_expires_in":7}"#,
        r#"{"cnf":null,"ext_expires_in":7,"id_token":null,"offline":null}"#,
    ] {
        check_lifetime_alone(&read::<IdentityFields>(rt.alloc(), body)?)?;
    }
    Ok(())
}

#[test]
fn members_of_another_kind_are_refused(rt: HostRuntime) -> Result<(), Fail> {
    for (body, member, cause) in [
        (r#"{"id_token":1}"#, "id_token", ParseCause::WrongType),
        (
            r#"{"ext_expires_in":"7"}"#,
            "ext_expires_in",
            ParseCause::WrongType,
        ),
        (
            r#"{"ext_expires_in":-1}"#,
            "ext_expires_in",
            ParseCause::OutOfRange,
        ),
        (
            r#"{"ext_expires_in":1.5}"#,
            "ext_expires_in",
            ParseCause::NotWhole,
        ),
        (r#"{"offline":0}"#, "offline", ParseCause::WrongType),
        (
            r#"{"ext_expires_in":-1,"id_token":1}"#,
            "id_token",
            ParseCause::WrongType,
        ),
        ("[]", "", ParseCause::NotObject),
    ] {
        check_fault::<IdentityFields>(rt.alloc(), body, member, cause)?;
    }
    Ok(())
}

// Checks that responses with these fields are written with them. (The function is generic, so that
// what the fields are is proved once, at the call, and not for each type of response.)
fn check_identity_written<Fields: ExtraTokenFields + TryClone + Drop>(
    alloc: Global,
) -> Result<(), Fail> {
    let whole = "{\"access_token\":\"t\",\"cnf\":[],\"ext_expires_in\":7,\"id_token\":\"x\",\
        \"offline\":true,\"token_type\":\"bearer\"}";
    check_copy_kept::<StandardTokenResponse<Fields, BasicTokenType>>(alloc, whole)?;
    check_rewritten::<StandardTokenResponse<Fields, BasicTokenType>>(
        alloc,
        r#"{"access_token":"t","token_type":"bearer","n":1,"offline":null,"ext_expires_in":7}"#,
        r#"{"access_token":"t","ext_expires_in":7,"token_type":"bearer"}"#,
    )?;
    check_kept::<StandardTokenIntrospectionResponse<Fields, BasicTokenType>>(
        alloc,
        r#"{"active":true,"id_token":"x"}"#,
    )
}

#[test]
fn named_members_are_written(rt: HostRuntime) -> Result<(), Fail> {
    check_identity_written::<IdentityFields>(rt.alloc())?;
    check_kept::<DeviceAuthorizationResponse<DeviceFields>>(
        rt.alloc(),
        "{\"cnf\":[],\"device_code\":\"d\",\"expires_in\":1,\"interval\":5,\"user_code\":\"u\",\
        \"verification_uri\":\"https://v/\"}",
    )
}

#[test]
fn name_that_the_rest_writes_is_refused(rt: HostRuntime) -> Result<(), Fail> {
    let id_token = text(rt.alloc(), "x")?;
    let rest = read::<ExtraFields>(rt.alloc(), r#"{"id_token":"y"}"#)?;
    let fields = WithMember::<IdToken, ExtraFields>::new(Some(id_token), rest);
    check_not_written(rt.alloc(), fields, WriteError::NameClash, "id_token")
}
