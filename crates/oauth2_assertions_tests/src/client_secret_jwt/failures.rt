//! Secrets that are refused, and calls without an assertion.

use crate::client_secret_jwt::parts::{Counting, SECRET, Stopped, Ticking, issuer};
use oauth2_client_assertions::AssertionSource;
use oauth2_client_secret_jwt::{ClientSecretJwt, ClientSecretJwtError, SecretTooShort};
use oauth2_tests_support::{check, check_display, text};
use oauth2_types::{ClientId, ClientSecret};
use std::alloc::Global;
use std::test::Fail;

fn source(
    alloc: Global,
    secret: &str,
    clock: Ticking,
    generator: Counting,
) -> Result<Result<ClientSecretJwt<Ticking, Counting>, SecretTooShort>, Fail> {
    Ok(ClientSecretJwt::new(
        ClientId::new(text(alloc, "a")?),
        ClientSecret::new(text(alloc, secret)?),
        issuer(alloc, "https://as.example")?,
        clock,
        generator,
    ))
}

fn is_taken(alloc: Global, secret: &str) -> Result<bool, Fail> {
    Ok(source(alloc, secret, Ticking(Some(0)), Counting(Some(0)))?.is_ok())
}

const TWO_BYTES_EACH: &str = "éééééééééééééééé";

// At least 32 bytes. The second secret has 16 characters of two bytes each.
#[test]
fn secrets(rt: HostRuntime) -> Result<(), Fail> {
    let alloc = rt.alloc();
    check(is_taken(alloc, SECRET)?, SECRET)?;
    check(is_taken(alloc, TWO_BYTES_EACH)?, TWO_BYTES_EACH)?;
    for secret in ["", "secret", "0123456789abcdef0123456789abcde"] {
        check(!is_taken(alloc, secret)?, secret)?;
    }
    check_display(
        alloc,
        &SecretTooShort,
        "the client secret is shorter than 32 bytes",
    )
}

type Answer = Result<String, ClientSecretJwtError<Stopped, Stopped>>;

fn answer(alloc: Global, clock: Option<i128>, generator: Option<u8>) -> Result<Answer, Fail> {
    match source(alloc, SECRET, Ticking(clock), Counting(generator))? {
        Ok(mut source) => Ok(source.assertion(alloc)),
        Err(_) => Err(Fail::new("no source")),
    }
}

#[test]
fn no_time(rt: HostRuntime) -> Result<(), Fail> {
    match answer(rt.alloc(), None, Some(0))? {
        Err(ClientSecretJwtError::Clock(Stopped)) => Ok(()),
        _ => Err(Fail::new("another answer")),
    }
}

#[test]
fn a_time_before_1970(rt: HostRuntime) -> Result<(), Fail> {
    match answer(rt.alloc(), Some(-1), Some(0))? {
        Err(ClientSecretJwtError::Before1970) => Ok(()),
        _ => Err(Fail::new("another answer")),
    }
}

// None of the 16 bytes, and not all of them.
#[test]
fn too_few_bytes(rt: HostRuntime) -> Result<(), Fail> {
    for generator in [None, Some(241)] {
        match answer(rt.alloc(), Some(0), generator)? {
            Err(ClientSecretJwtError::Generator(Stopped)) => {}
            _ => return Err(Fail::new("another answer")),
        }
    }
    Ok(())
}

#[test]
fn texts(rt: HostRuntime) -> Result<(), Fail> {
    let errors: [(ClientSecretJwtError<Stopped, Stopped>, &str); 4] = [
        (ClientSecretJwtError::Clock(Stopped), "it stopped"),
        (
            ClientSecretJwtError::Before1970,
            "the clock shows a time before 1970",
        ),
        (ClientSecretJwtError::Generator(Stopped), "it stopped"),
        (ClientSecretJwtError::Memory, "out of memory"),
    ];
    for (error, wanted) in &errors {
        check_display(rt.alloc(), error, wanted)?;
    }
    Ok(())
}
