//! Requests by a grant type that is a URI (RFC 6749, section 4.5).

use crate::grants::asking::{Asker, Asking, check_body};
use oauth2_grants::{ExtensionTokenRequest, GrantFault};
use oauth2_tests_support::{check, text};
use oauth2_types::Scope;
use std::alloc::Global;
use std::test::Fail;

fn request_of<'a>(
    alloc: Global,
    asker: &'a Asker,
    grant_type: &'a str,
) -> Result<Asking<'a>, GrantFault> {
    ExtensionTokenRequest::new(alloc, asker.at_endpoint(), grant_type)
}

// A request with an assertion and a scope.
fn with_assertion_and_scope(alloc: Global, asker: &Asker) -> Result<Asking<'_>, Fail> {
    let scope = Scope::new(text(alloc, "a")?);
    let request = request_of(
        alloc,
        asker,
        "urn:ietf:params:oauth:grant-type:saml2-bearer",
    )?
    .add_param("assertion".into(), "PHNhbWxwOl...".into())?
    .add_scope(scope)?;
    Ok(request)
}

// The parameters of RFC 7522, section 2.1, by a client without a secret.
#[test]
fn an_extension(rt: HostRuntime) -> Result<(), Fail> {
    let alloc = rt.alloc();
    let asker = Asker::public(alloc)?;
    let request = with_assertion_and_scope(alloc, &asker)?;
    check_body(
        alloc,
        &request,
        "grant_type=urn%3Aietf%3Aparams%3Aoauth%3Agrant-type%3Asaml2-bearer&scope=a&client_id=aaa\
&assertion=PHNhbWxwOl...",
    )
}

fn is_taken(alloc: Global, asker: &Asker, name: &str) -> Result<bool, Fail> {
    match request_of(alloc, asker, "urn:example:grant")?.add_param(name.into(), "x".into()) {
        Err(GrantFault::NameIsTaken) => Ok(true),
        _ => Ok(false),
    }
}

#[test]
fn names_of_the_request(rt: HostRuntime) -> Result<(), Fail> {
    let asker = Asker::public(rt.alloc())?;
    for name in ["grant_type", "scope", "client_id", "client_secret"] {
        check(is_taken(rt.alloc(), &asker, name)?, name)?;
    }
    for name in ["Scope", "resource", ""] {
        check(!is_taken(rt.alloc(), &asker, name)?, name)?;
    }
    Ok(())
}

#[test]
fn a_grant_of_the_standard(rt: HostRuntime) -> Result<(), Fail> {
    let asker = Asker::public(rt.alloc())?;
    match request_of(rt.alloc(), &asker, "client_credentials") {
        Err(GrantFault::GrantTypeIsNoUri) => Ok(()),
        _ => Err(Fail::new(format_args!("it is taken"))),
    }
}
