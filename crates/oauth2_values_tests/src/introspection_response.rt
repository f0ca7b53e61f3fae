//! The members of an introspection response (RFC 7662, section 2.2).

use crate::support::scope_list;
use jiff::Timestamp;
use oauth2::basic::{BasicTokenIntrospectionResponse, BasicTokenType};
use oauth2::{ClientId, EmptyExtraTokenFields, TokenIntrospectionResponse};
use oauth2_tests_support::{check, check_equal, check_written, text};
use std::alloc::Global;
use std::test::Fail;

fn active_response() -> BasicTokenIntrospectionResponse {
    BasicTokenIntrospectionResponse::new(true, EmptyExtraTokenFields {})
}

fn time(nanosecond: i128) -> Result<Timestamp, Fail> {
    Ok(Timestamp::from_nanosecond(nanosecond)?)
}

// Checks the times of a token that is not active.
fn check_times(
    response: &BasicTokenIntrospectionResponse,
    exp: Timestamp,
    iat: Timestamp,
    nbf: Timestamp,
) -> Result<(), Fail> {
    check(!response.active(), "active")?;
    check_equal(response.exp(), Some(exp))?;
    check_equal(response.iat(), Some(iat))?;
    check_equal(response.nbf(), Some(nbf))
}

// Times are set as they are, and written as whole seconds, rounded down.
#[test]
fn times_are_set(rt: HostRuntime) -> Result<(), Fail> {
    let exp = time(3_999_999_999)?;
    let iat = time(1_000_000_000)?;
    let nbf = time(-500_000_000)?;
    let mut response = active_response();
    response.set_active(false);
    response.set_exp(Some(exp));
    response.set_iat(Some(iat));
    response.set_nbf(Some(nbf));
    check_times(&response, exp, iat, nbf)?;
    check_written(
        rt.alloc(),
        &response,
        r#"{"active":false,"exp":3,"iat":1,"nbf":-1}"#,
    )
}

fn set_texts(alloc: Global, response: &mut BasicTokenIntrospectionResponse) -> Result<(), Fail> {
    response.set_username(Some(text(alloc, "demo")?));
    response.set_sub(Some(text(alloc, "subject")?));
    response.set_iss(Some(text(alloc, "issuer")?));
    response.set_jti(Some(text(alloc, "identifier")?));
    Ok(())
}

fn check_texts(response: &BasicTokenIntrospectionResponse) -> Result<(), Fail> {
    check_equal(response.username(), Some("demo"))?;
    check_equal(response.sub(), Some("subject"))?;
    check_equal(response.iss(), Some("issuer"))?;
    check_equal(response.jti(), Some("identifier"))
}

#[test]
fn texts_are_set(rt: HostRuntime) -> Result<(), Fail> {
    let mut response = active_response();
    set_texts(rt.alloc(), &mut response)?;
    check_texts(&response)?;
    check_written(
        rt.alloc(),
        &response,
        r#"{"active":true,"iss":"issuer","jti":"identifier","sub":"subject","username":"demo"}"#,
    )
}

fn set_others(alloc: Global, response: &mut BasicTokenIntrospectionResponse) -> Result<(), Fail> {
    let aud = vec![in alloc; text(alloc, "audience")?]?;
    response.set_aud(Some(aud));
    response.set_scopes(Some(scope_list(alloc, "read")?));
    response.set_client_id(Some(ClientId::new(text(alloc, "aaa")?)));
    response.set_token_type(Some(BasicTokenType::Bearer));
    response.set_extra_fields(EmptyExtraTokenFields {});
    Ok(())
}

fn check_others(response: &BasicTokenIntrospectionResponse) -> Result<(), Fail> {
    check(
        response.scopes().is_some() && response.aud().is_some(),
        "the lists",
    )?;
    check(
        response.client_id().is_some() && response.token_type().is_some(),
        "the texts",
    )?;
    check(
        *response.extra_fields() == EmptyExtraTokenFields {},
        "the extra fields",
    )
}

#[test]
fn other_members_are_set(rt: HostRuntime) -> Result<(), Fail> {
    let mut response = active_response();
    set_others(rt.alloc(), &mut response)?;
    check_others(&response)?;
    check_written(
        rt.alloc(),
        &response,
        "{\"active\":true,\"aud\":[\"audience\"],\"client_id\":\"aaa\",\"scope\":\"read\",\
        \"token_type\":\"bearer\"}",
    )
}
