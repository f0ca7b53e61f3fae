//! The members of a token response (RFC 6749, section 5.1).

use crate::support::scope_list;
use oauth2::basic::{BasicTokenResponse, BasicTokenType};
use oauth2::{AccessToken, EmptyExtraTokenFields, RefreshToken, TokenResponse};
use oauth2_tests_support::{check, check_equal, check_text, check_written, read, text};
use std::alloc::Global;
use std::test::Fail;
use std::time::Duration;

// A token response with only the required members.
fn least_response(alloc: Global) -> Result<BasicTokenResponse, Fail> {
    let access_token = AccessToken::new(text(alloc, "t")?);
    Ok(BasicTokenResponse::new(access_token, BasicTokenType::Mac, EmptyExtraTokenFields {}))
}

#[test]
fn lifetime_keeps_whole_seconds(rt: HostRuntime) -> Result<(), Fail> {
    let mut token = least_response(rt.alloc())?;
    token.set_expires_in(Some(&Duration::from_millis(1900)));
    check_equal(token.expires_in(), Some(Duration::from_secs(1)))?;
    token.set_expires_in(None);
    check_equal(token.expires_in(), None)
}

fn set_members(alloc: Global, token: &mut BasicTokenResponse) -> Result<(), Fail> {
    token.set_access_token(AccessToken::new(text(alloc, "u")?));
    token.set_token_type(BasicTokenType::Bearer);
    token.set_refresh_token(Some(RefreshToken::new(text(alloc, "r")?)));
    token.set_scopes(Some(scope_list(alloc, "read")?));
    token.set_extra_fields(EmptyExtraTokenFields {});
    Ok(())
}

// Checks what the getters return.
fn check_members(token: &BasicTokenResponse) -> Result<(), Fail> {
    check_text(token.access_token().secret().as_str(), "u")?;
    check(*token.token_type() == BasicTokenType::Bearer, "the type")?;
    check(token.refresh_token().is_some(), "the refresh token")?;
    check_equal(token.scopes().ok_or("no scopes")?.len(), 1)?;
    check(
        *token.extra_fields() == EmptyExtraTokenFields {},
        "the extra fields",
    )
}

#[test]
fn token_response_is_set(rt: HostRuntime) -> Result<(), Fail> {
    let mut token = least_response(rt.alloc())?;
    set_members(rt.alloc(), &mut token)?;
    check_members(&token)?;
    check_written(
        rt.alloc(),
        &token,
        r#"{"access_token":"u","refresh_token":"r","scope":"read","token_type":"bearer"}"#,
    )
}

#[test]
fn empty_scope_is_one_entry(rt: HostRuntime) -> Result<(), Fail> {
    let token = read::<BasicTokenResponse>(
        rt.alloc(),
        r#"{"access_token":"u","token_type":"BEARER","scope":"","refresh_token":"r"}"#,
    )?;
    check_members(&token)
}
