//! Identifiers of issuers (RFC 8414, section 2), and the audiences of assertions.

use crate::client_secret_jwt::parts::{issuer, token_endpoint};
use oauth2_client_secret_jwt::{IssuerFault, IssuerIdentifier};
use oauth2_tests_support::{check_display, check_equal, check_text, text};
use std::alloc::Global;
use std::test::Fail;

// The text that is kept, or why it is no identifier.
fn check_issuer(alloc: Global, given: &str, wanted: Option<IssuerFault>) -> Result<(), Fail> {
    match IssuerIdentifier::new(alloc, text(alloc, given)?) {
        Ok(issuer) => {
            check_equal(None, wanted)?;
            check_text(issuer.as_str(), given)
        }
        Err(fault) => check_equal(Some(fault), wanted),
    }
}

#[test]
fn identifiers(rt: HostRuntime) -> Result<(), Fail> {
    for (given, wanted) in [
        ("https://as.example", None),
        ("https://as.example/tenant/", None),
        ("HTTPS://AS.example", None),
        ("", Some(IssuerFault::NotUrl)),
        ("as.example", Some(IssuerFault::NotUrl)),
        ("http://as.example", Some(IssuerFault::NotHttps)),
        ("mailto:as@as.example", Some(IssuerFault::NotHttps)),
        ("https://as.example?", Some(IssuerFault::HasQuery)),
        (
            "https://as.example/?tenant=1#a",
            Some(IssuerFault::HasQuery),
        ),
        ("https://as.example/#", Some(IssuerFault::HasFragment)),
    ] {
        check_issuer(rt.alloc(), given, wanted)?;
    }
    Ok(())
}

// What is given is what is sent: no slash is added, and no letter is changed.
#[test]
fn audiences(rt: HostRuntime) -> Result<(), Fail> {
    let alloc = rt.alloc();
    let named = issuer(alloc, "https://AS.example")?;
    check_text(named.as_str(), "https://AS.example")?;
    let endpoint = token_endpoint(alloc, "https://AS.example:443/token")?;
    check_text(endpoint.as_str(), "https://AS.example:443/token")
}

#[test]
fn texts(rt: HostRuntime) -> Result<(), Fail> {
    for (fault, wanted) in [
        (IssuerFault::NotUrl, "issuer is not a URL"),
        (IssuerFault::NotHttps, "issuer is not an https URL"),
        (IssuerFault::HasQuery, "issuer has a query"),
        (IssuerFault::HasFragment, "issuer has a fragment"),
        (IssuerFault::Memory, "out of memory"),
    ] {
        check_display(rt.alloc(), &fault, wanted)?;
    }
    Ok(())
}
