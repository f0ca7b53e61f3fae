//! Texts that are no authorization details (RFC 9396, section 2).

use oauth2_grants::{AuthorizationDetails, DetailsFault};
use oauth2_tests_support::{check_display, check_equal};
use std::alloc::Global;
use std::test::Fail;

fn check_fault(alloc: Global, text: &str, wanted: DetailsFault) -> Result<(), Fail> {
    match AuthorizationDetails::from_text(alloc, text) {
        Err(fault) => check_equal(fault, wanted),
        Ok(_) => Err(Fail::new(format_args!("taken: {text}"))),
    }
}

#[test]
fn refused(rt: HostRuntime) -> Result<(), Fail> {
    for (text, fault) in [
        ("", DetailsFault::NotJson),
        ("[{\"type\":\"a\"}", DetailsFault::NotJson),
        ("[{\"type\":\"a\"}] x", DetailsFault::NotJson),
        ("{\"type\":\"a\"}", DetailsFault::NotArray),
        ("\"a\"", DetailsFault::NotArray),
        ("null", DetailsFault::NotArray),
        ("[\"a\"]", DetailsFault::NotObject(0)),
        (
            "[{\"type\":\"a\"},[{\"type\":\"a\"}]]",
            DetailsFault::NotObject(1),
        ),
        ("[{}]", DetailsFault::NoType(0)),
        (
            "[{\"type\":\"a\"},{\"Type\":\"a\"}]",
            DetailsFault::NoType(1),
        ),
        (
            "[{\"type\":\"a\"},{\"type\":\"b\"},{\"type\":1}]",
            DetailsFault::NoType(2),
        ),
        ("[{\"type\":null},1]", DetailsFault::NoType(0)),
    ] {
        check_fault(rt.alloc(), text, fault)?;
    }
    Ok(())
}

#[test]
fn texts(rt: HostRuntime) -> Result<(), Fail> {
    for (fault, wanted) in [
        (DetailsFault::NotJson, "not one JSON value"),
        (DetailsFault::NotArray, "not an array"),
        (DetailsFault::NotObject(12), "item 12 is not an object"),
        (DetailsFault::NoType(0), "item 0 has no text under type"),
        (DetailsFault::Memory, "out of memory"),
    ] {
        check_display(rt.alloc(), &fault, wanted)?;
    }
    Ok(())
}
