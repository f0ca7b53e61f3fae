//! Resources that are refused, and others that are sent (RFC 8707, section 2).

use crate::resource_indicators::sender::{Sender, client};
use oauth2_resource_indicators::{ResourceFault, ResourceIndicators, is_absolute_uri};
use oauth2_tests_support::{check, check_display, check_equal};
use std::alloc::Global;
use std::test::Fail;

fn add(alloc: Global, client: &Sender, resource: &str) -> Result<(), ResourceFault> {
    drop(
        client
            .exchange_client_credentials(alloc)
            .add_resource(resource.into())?,
    );
    Ok(())
}

// A fragment, a relative reference, nothing, a bad percent sign, no scheme, and a scheme or a
// character that no URI has.
const REFUSED: [&str; 13] = [
    "https://api.example.com/#f",
    "https://api.example.com/#",
    "/api",
    "//api.example.com/",
    "api.example.com/v1",
    "",
    "https://api.example.com/%",
    "https://api.example.com/%4",
    "https://api.example.com/%4g",
    ":api",
    "1a:b",
    "https://api.example.com/a b",
    "https://api.example.com/\u{e9}",
];

#[test]
fn refused(rt: HostRuntime) -> Result<(), Fail> {
    let client = client(rt.alloc())?;
    for resource in REFUSED {
        check(!is_absolute_uri(resource), resource)?;
        check_equal(
            add(rt.alloc(), &client, resource),
            Err(ResourceFault::ResourceIsNoUri),
        )?;
    }
    Ok(())
}

#[test]
fn sent(rt: HostRuntime) -> Result<(), Fail> {
    let client = client(rt.alloc())?;
    for resource in [
        "https://api.example.com",
        "https://api.example.com/v1?tenant=a",
        "https://[2001:db8::1]/%4F",
        "urn:example:rs",
        "a+b-c.1:",
    ] {
        check(is_absolute_uri(resource), resource)?;
        check(add(rt.alloc(), &client, resource).is_ok(), resource)?;
    }
    Ok(())
}

#[test]
fn texts(rt: HostRuntime) -> Result<(), Fail> {
    check_display(
        rt.alloc(),
        &ResourceFault::ResourceIsNoUri,
        "resource is not an absolute URI without a fragment",
    )?;
    check_display(rt.alloc(), &ResourceFault::Memory, "Out of memory")
}
