//! Tokens that can be revoked (RFC 7009, section 2.1).

use oauth2::helpers::variant_name;
use oauth2::{AccessToken, RefreshToken, RevocableToken, StandardRevocableToken};
use oauth2_tests_support::{check_equal, check_text, text};
use std::alloc::Global;
use std::test::Fail;

// Checks the secret, the hint and the name of a token.
fn check_token(
    token: &StandardRevocableToken,
    secret: &str,
    hint: &'static str,
    name: &str,
) -> Result<(), Fail> {
    check_text(token.secret(), secret)?;
    check_equal(token.type_hint(), Some(hint))?;
    check_text(variant_name(token), name)
}

fn check_access_token(alloc: Global, access_token: &AccessToken) -> Result<(), Fail> {
    let token = StandardRevocableToken::from_access_token_ref(alloc, access_token)?;
    check_token(&token, "a", "access_token", "AccessToken")
}

#[test]
fn access_tokens(rt: HostRuntime) -> Result<(), Fail> {
    let access_token = AccessToken::new(text(rt.alloc(), "a")?);
    check_access_token(rt.alloc(), &access_token)?;
    check_text(StandardRevocableToken::from(access_token).secret(), "a")
}

fn check_refresh_token(alloc: Global, refresh_token: &RefreshToken) -> Result<(), Fail> {
    let token = StandardRevocableToken::from_refresh_token_ref(alloc, refresh_token)?;
    check_token(&token, "b", "refresh_token", "RefreshToken")
}

#[test]
fn refresh_tokens(rt: HostRuntime) -> Result<(), Fail> {
    let refresh_token = RefreshToken::new(text(rt.alloc(), "b")?);
    check_refresh_token(rt.alloc(), &refresh_token)?;
    check_text(StandardRevocableToken::from(refresh_token).secret(), "b")
}
