//! Texts that are read and written again as the same text, and copies of what was read.

use crate::support::{check_copy_kept, check_kept, check_rewritten};
use oauth2::basic::{
    BasicErrorResponse, BasicErrorResponseType, BasicRevocationErrorResponse,
    BasicTokenIntrospectionResponse, BasicTokenResponse, BasicTokenType,
};
use oauth2::{
    AccessToken, AuthUrl, AuthorizationCode, ClientId, ClientSecret, CsrfToken,
    DeviceAuthorizationUrl, DeviceCode, DeviceCodeErrorResponse, DeviceCodeErrorResponseType,
    EmptyExtraDeviceAuthorizationFields, EmptyExtraTokenFields, EndUserVerificationUrl,
    ExtraFields, IntrospectionUrl, ParseCause, PkceCodeChallenge, PkceCodeChallengeMethod,
    PkceCodeVerifier, RedirectUrl, RefreshToken, ResourceOwnerUsername, ResponseType,
    RevocationErrorResponseType, RevocationUrl, Scope, StandardDeviceAuthorizationResponse,
    StandardRevocableToken, TextErrorResponseType, TokenUrl, UserCode, VerificationUriComplete,
};
use oauth2_tests_support::check_fault;
use std::test::Fail;

const TEXT: &str = "\"a \\\"b\\\"\"";

#[test]
fn texts_are_kept(rt: HostRuntime) -> Result<(), Fail> {
    check_kept::<String>(rt.alloc(), TEXT)?;
    check_kept::<ClientId>(rt.alloc(), TEXT)?;
    check_kept::<PkceCodeChallengeMethod>(rt.alloc(), TEXT)?;
    check_kept::<ResourceOwnerUsername>(rt.alloc(), TEXT)?;
    check_kept::<ResponseType>(rt.alloc(), TEXT)?;
    check_kept::<Scope>(rt.alloc(), TEXT)
}

#[test]
fn secrets_are_kept(rt: HostRuntime) -> Result<(), Fail> {
    check_kept::<AccessToken>(rt.alloc(), TEXT)?;
    check_kept::<AuthorizationCode>(rt.alloc(), TEXT)?;
    check_kept::<ClientSecret>(rt.alloc(), TEXT)?;
    check_kept::<CsrfToken>(rt.alloc(), TEXT)?;
    check_kept::<DeviceCode>(rt.alloc(), TEXT)?;
    check_kept::<PkceCodeVerifier>(rt.alloc(), TEXT)?;
    check_kept::<RefreshToken>(rt.alloc(), TEXT)?;
    check_kept::<UserCode>(rt.alloc(), TEXT)?;
    check_kept::<VerificationUriComplete>(rt.alloc(), TEXT)
}

#[test]
fn urls_are_kept_as_given(rt: HostRuntime) -> Result<(), Fail> {
    let text = r#""https://example.com""#;
    check_kept::<AuthUrl>(rt.alloc(), text)?;
    check_kept::<DeviceAuthorizationUrl>(rt.alloc(), text)?;
    check_kept::<EndUserVerificationUrl>(rt.alloc(), text)?;
    check_kept::<IntrospectionUrl>(rt.alloc(), text)?;
    check_kept::<RedirectUrl>(rt.alloc(), text)?;
    check_kept::<RevocationUrl>(rt.alloc(), text)?;
    check_kept::<TokenUrl>(rt.alloc(), text)?;
    check_fault::<AuthUrl>(rt.alloc(), r#""x""#, "", ParseCause::BadUrl)?;
    check_fault::<AuthUrl>(rt.alloc(), "1", "", ParseCause::WrongType)
}

#[test]
fn challenge_is_kept(rt: HostRuntime) -> Result<(), Fail> {
    check_kept::<PkceCodeChallenge>(
        rt.alloc(),
        r#"{"code_challenge":"c","code_challenge_method":"S256"}"#,
    )?;
    check_fault::<PkceCodeChallenge>(
        rt.alloc(),
        r#"{"code_challenge":"c"}"#,
        "code_challenge_method",
        ParseCause::Missing,
    )
}

#[test]
fn token_types_are_kept(rt: HostRuntime) -> Result<(), Fail> {
    for text in [r#""bearer""#, r#""mac""#, r#""Bearer""#] {
        check_copy_kept::<BasicTokenType>(rt.alloc(), text)?;
    }
    Ok(())
}

#[test]
fn copies_of_codes_are_written_alike(rt: HostRuntime) -> Result<(), Fail> {
    for text in [
        r#""slow_down""#,
        r#""unsupported_token_type""#,
        r#""invalid_grant""#,
        r#""invalid_client""#,
        r#""Invalid_Client""#,
        r#""x""#,
    ] {
        check_copy_kept::<BasicErrorResponseType>(rt.alloc(), text)?;
        check_copy_kept::<DeviceCodeErrorResponseType>(rt.alloc(), text)?;
        check_copy_kept::<RevocationErrorResponseType>(rt.alloc(), text)?;
        check_copy_kept::<TextErrorResponseType>(rt.alloc(), text)?;
    }
    Ok(())
}

#[test]
fn copies_of_error_responses_are_written_alike(rt: HostRuntime) -> Result<(), Fail> {
    let text = r#"{"error":"slow_down","error_description":"d","error_uri":"u"}"#;
    check_copy_kept::<BasicErrorResponse>(rt.alloc(), text)?;
    check_copy_kept::<BasicRevocationErrorResponse>(rt.alloc(), text)?;
    check_copy_kept::<DeviceCodeErrorResponse>(rt.alloc(), text)
}

#[test]
fn copies_of_responses_are_written_alike(rt: HostRuntime) -> Result<(), Fail> {
    check_copy_kept::<BasicTokenResponse>(
        rt.alloc(),
        "{\"access_token\":\"t\",\"expires_in\":1,\"refresh_token\":\"r\",\
        \"scope\":\"read write\",\"token_type\":\"bearer\"}",
    )?;
    check_copy_kept::<BasicTokenIntrospectionResponse>(
        rt.alloc(),
        "{\"active\":true,\"aud\":[\"audience\"],\"client_id\":\"aaa\",\"exp\":3,\"iat\":1,\
        \"iss\":\"issuer\",\"jti\":\"identifier\",\"nbf\":2,\"scope\":\"read write\",\
        \"sub\":\"subject\",\"token_type\":\"bearer\",\"username\":\"demo\"}",
    )?;
    check_copy_kept::<StandardDeviceAuthorizationResponse>(
        rt.alloc(),
        "{\"device_code\":\"d\",\"expires_in\":300,\"interval\":7,\"user_code\":\"u\",\
        \"verification_uri\":\"https://v/\",\"verification_uri_complete\":\"https://v/u\"}",
    )
}

#[test]
fn copies_of_extra_fields_are_written_alike(rt: HostRuntime) -> Result<(), Fail> {
    check_copy_kept::<EmptyExtraTokenFields>(rt.alloc(), "{}")?;
    check_copy_kept::<EmptyExtraDeviceAuthorizationFields>(rt.alloc(), "{}")?;
    check_copy_kept::<ExtraFields>(rt.alloc(), r#"{"a":[1,null,"x"],"b":{"c":true}}"#)?;
    check_rewritten::<EmptyExtraTokenFields>(rt.alloc(), r#"{"a":1}"#, "{}")?;
    check_rewritten::<EmptyExtraDeviceAuthorizationFields>(rt.alloc(), r#"{"a":1}"#, "{}")
}

#[test]
fn revocable_token_is_one_member(rt: HostRuntime) -> Result<(), Fail> {
    for text in [r#"{"AccessToken":"a"}"#, r#"{"RefreshToken":"b"}"#] {
        check_copy_kept::<StandardRevocableToken>(rt.alloc(), text)?;
    }
    for (body, member, cause) in [
        (r#"{"AccessToken":1}"#, "AccessToken", ParseCause::WrongType),
        (
            r#"{"AccessToken":"a","RefreshToken":"b"}"#,
            "",
            ParseCause::Refused,
        ),
        (r#"{"AccessToken":"a","x":"b"}"#, "", ParseCause::Refused),
        ("{}", "", ParseCause::Refused),
        (r#""AccessToken""#, "", ParseCause::NotObject),
    ] {
        check_fault::<StandardRevocableToken>(rt.alloc(), body, member, cause)?;
    }
    Ok(())
}
