//! Grants that are an assertion of another party (RFC 7523 and RFC 7522).

use crate::grants::asking::{Asker, Asking, check_body};
use oauth2_grants::{ExtensionTokenRequest, GrantFault, JWT_BEARER, SAML2_BEARER};
use oauth2_tests_support::{check_text, text};
use oauth2_types::Scope;
use std::alloc::{AllocError, Global};
use std::test::Fail;

// A request of this client by a JWT.
fn by_jwt<'a>(alloc: Global, asker: &'a Asker, assertion: &str) -> Result<Asking<'a>, AllocError> {
    ExtensionTokenRequest::jwt_bearer(alloc, asker.at_endpoint(), assertion)
}

// The request of RFC 7523, section 4. The standard leaves out the middle of the JWT.
#[test]
fn the_jwt(rt: HostRuntime) -> Result<(), Fail> {
    let alloc = rt.alloc();
    let asker = Asker::of_the_example(alloc)?;
    let request = by_jwt(
        alloc,
        &asker,
        "eyJhbGciOiJFUzI1NiIsImtpZCI6IjE2In0.eyJpc3Mi.J9l-ZhwP",
    )?;
    check_body(
        alloc,
        &request,
        "grant_type=urn%3Aietf%3Aparams%3Aoauth%3Agrant-type%3Ajwt-bearer\
&assertion=eyJhbGciOiJFUzI1NiIsImtpZCI6IjE2In0.eyJpc3Mi.J9l-ZhwP",
    )
}

// Checks the body of a request by a SAML 2.0 assertion.
fn check_saml2(alloc: Global, asker: &Asker, xml: &str, encoded: &str) -> Result<(), Fail> {
    let body = format!(in alloc;
        "grant_type=urn%3Aietf%3Aparams%3Aoauth%3Agrant-type%3Asaml2-bearer&assertion={encoded}"
    )?;
    let request: Asking<'_> = ExtensionTokenRequest::saml2_bearer(alloc, asker.at_endpoint(), xml)?;
    check_body(alloc, &request, body.as_str())
}

// The request of RFC 7522, section 4, with the start and the end of its assertion, which are all
// that the standard shows.
#[test]
fn the_assertions(rt: HostRuntime) -> Result<(), Fail> {
    let asker = Asker::of_the_example(rt.alloc())?;
    for (xml, encoded) in [
        (
            "<Assertion IssueInstant=\"2011-05",
            "PEFzc2VydGlvbiBJc3N1ZUluc3RhbnQ9IjIwMTEtMDU",
        ),
        (
            "hnStatement></Assertion>",
            "aG5TdGF0ZW1lbnQ-PC9Bc3NlcnRpb24-",
        ),
    ] {
        check_saml2(rt.alloc(), &asker, xml, encoded)?;
    }
    Ok(())
}

// A request with a scope between two resources.
fn with_scope_and_resources(alloc: Global, asker: &Asker) -> Result<Asking<'_>, Fail> {
    let scope = Scope::new(text(alloc, "read")?);
    let request = by_jwt(alloc, asker, "a.b.c")?
        .add_resource("https://rs.example/1".into())?
        .add_scope(scope)?
        .add_resource("urn:example:rs".into())?;
    Ok(request)
}

// The scope and the resources of a client without a secret, which tells its identifier.
#[test]
fn a_scope_and_resources(rt: HostRuntime) -> Result<(), Fail> {
    let alloc = rt.alloc();
    let asker = Asker::public(alloc)?;
    let request = with_scope_and_resources(alloc, &asker)?;
    check_body(
        alloc,
        &request,
        "grant_type=urn%3Aietf%3Aparams%3Aoauth%3Agrant-type%3Ajwt-bearer&scope=read&client_id=aaa\
&assertion=a.b.c&resource=https%3A%2F%2Frs.example%2F1&resource=urn%3Aexample%3Ars",
    )
}

fn asking(alloc: Global, asker: &Asker, resource: &str) -> Result<(), GrantFault> {
    let request = by_jwt(alloc, asker, "a")?;
    drop(request.add_resource(resource.into())?);
    Ok(())
}

#[test]
fn resources_that_are_refused(rt: HostRuntime) -> Result<(), Fail> {
    let asker = Asker::public(rt.alloc())?;
    for resource in ["", "/api", "https://rs.example/#f"] {
        match asking(rt.alloc(), &asker, resource) {
            Err(GrantFault::ResourceIsNoUri) => {}
            _ => return Err(Fail::new(format_args!("taken: {resource}"))),
        }
    }
    Ok(())
}

#[test]
fn names_of_the_grants(_rt: HostRuntime) -> Result<(), Fail> {
    check_text(JWT_BEARER, "urn:ietf:params:oauth:grant-type:jwt-bearer")?;
    check_text(
        SAML2_BEARER,
        "urn:ietf:params:oauth:grant-type:saml2-bearer",
    )
}
