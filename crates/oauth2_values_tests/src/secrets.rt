//! Tests of secrets: hidden by `{:?}`, compared by their digests, copied and turned into texts.

ghost use Rattle.std.specs.Prelude.{◌≡◌, IsTrue};

use crate::support::{check_debug_in_lines, check_different};
use oauth2::{
    AccessToken, AuthorizationCode, ClientSecret, CsrfToken, DeviceCode, RefreshToken,
    ResourceOwnerPassword, TryClone, UserCode, VerificationUriComplete,
};
use oauth2_tests_support::{check, check_text, text};
use std::test::Fail;

#[test]
fn secrets_are_hidden(rt: HostRuntime) -> Result<(), Fail> {
    let alloc = rt.alloc();
    check_different(alloc, AccessToken::new, "AccessToken([redacted])")?;
    check_different(
        alloc,
        AuthorizationCode::new,
        "AuthorizationCode([redacted])",
    )?;
    check_different(alloc, ClientSecret::new, "ClientSecret([redacted])")?;
    check_different(alloc, CsrfToken::new, "CsrfToken([redacted])")?;
    check_different(alloc, DeviceCode::new, "DeviceCode([redacted])")?;
    check_different(alloc, RefreshToken::new, "RefreshToken([redacted])")?;
    check_different(
        alloc,
        ResourceOwnerPassword::new,
        "ResourceOwnerPassword([redacted])",
    )?;
    check_different(alloc, UserCode::new, "UserCode([redacted])")?;
    check_different(
        alloc,
        VerificationUriComplete::new,
        "VerificationUriComplete([redacted])",
    )
}

#[test]
fn texts_of_secrets(rt: HostRuntime) -> Result<(), Fail> {
    let secret = ClientSecret::new(text(rt.alloc(), "top_secret")?);
    check_debug_in_lines(rt.alloc(), &secret, "ClientSecret([redacted])")?;
    check_text(secret.secret().as_str(), "top_secret")?;
    check_text(secret.into_secret().as_str(), "top_secret")
}

// Two secrets with the same text are equal.
fn equal_texts(a: &AccessToken, b: &AccessToken) -> bool
    requires { a.now ≡ b.now }
    ensures { IsTrue result }
{
    a == b
}

// Equality is reflexive, symmetric and transitive.
fn is_lawful<T: Eq>(a: &T, b: &T, c: &T) -> bool
    ensures { IsTrue result }
{
    *a == *a && (*a == *b) == (*b == *a) && (!(*a == *b && *b == *c) || *a == *c)
}

// Checks the laws for a secret and its copy.
fn check_laws(token: &AccessToken, copy: &AccessToken) -> Result<(), Fail>
    requires { token.now ≡ copy.now }
{
    check(equal_texts(token, copy), "equal texts")?;
    check(is_lawful(token, copy, token), "the laws")
}

#[test]
fn laws_of_secrets(rt: HostRuntime) -> Result<(), Fail> {
    let token = AccessToken::new(text(rt.alloc(), "a")?);
    let copy = token.try_clone(rt.alloc())?;
    check_laws(&token, &copy)
}
