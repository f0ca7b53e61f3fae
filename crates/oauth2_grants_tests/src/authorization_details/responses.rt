//! Token responses that tell which details were granted (RFC 9396, section 7).

use crate::authorization_details::examples::{COMPACT_PAYMENT, PAYMENT};
use oauth2::basic::BasicTokenType;
use oauth2::{ParseCause, StandardTokenResponse, TryClone};
use oauth2_grants::AuthorizationDetailsFields;
use oauth2_tests_support::{check, check_fault, check_text, check_written, read};
use std::alloc::Global;
use std::test::Fail;

type Response = StandardTokenResponse<AuthorizationDetailsFields, BasicTokenType>;

fn granted(alloc: Global, response: &Response) -> Result<String, Fail> {
    match response.extra_fields().value() {
        Some(details) => Ok(details.to_text(alloc)?),
        None => Err(Fail::new("no details")),
    }
}

// The response of section 7, whose token type is another one; and a copy of it.
#[test]
fn the_example(rt: HostRuntime) -> Result<(), Fail> {
    let alloc = rt.alloc();
    let body = format!(in alloc;
        "{{\"access_token\":\"2YotnFZFEjr1zCsicMWpAA\",\"token_type\":\"example\",\
\"expires_in\":3600,\"refresh_token\":\"tGzv3JOkF0XG5Qx2TlKWIA\",\
\"authorization_details\":{PAYMENT}}}"
    )?;
    let response: Response = read(alloc, body.as_str())?;
    check_text(granted(alloc, &response)?.as_str(), COMPACT_PAYMENT)?;
    let copy = response.try_clone(alloc)?;
    check_text(granted(alloc, &copy)?.as_str(), COMPACT_PAYMENT)?;
    let wanted = format!(in alloc;
        "{{\"access_token\":\"2YotnFZFEjr1zCsicMWpAA\",\"authorization_details\":{COMPACT_PAYMENT},\
\"expires_in\":3600,\"refresh_token\":\"tGzv3JOkF0XG5Qx2TlKWIA\",\"token_type\":\"example\"}}"
    )?;
    check_written(alloc, &response, wanted.as_str())
}

#[test]
fn no_details(rt: HostRuntime) -> Result<(), Fail> {
    for body in [
        "{\"access_token\":\"t\",\"token_type\":\"bearer\"}",
        "{\"access_token\":\"t\",\"token_type\":\"bearer\",\"authorization_details\":null}",
    ] {
        let response: Response = read(rt.alloc(), body)?;
        check(response.extra_fields().value().is_none(), body)?;
    }
    Ok(())
}

#[test]
fn other_shapes(rt: HostRuntime) -> Result<(), Fail> {
    for body in [
        "{\"access_token\":\"t\",\"token_type\":\"bearer\",\"authorization_details\":{}}",
        "{\"access_token\":\"t\",\"token_type\":\"bearer\",\"authorization_details\":[{}]}",
        "{\"access_token\":\"t\",\"token_type\":\"bearer\",\"authorization_details\":\"[]\"}",
    ] {
        check_fault::<Response>(
            rt.alloc(),
            body,
            "authorization_details",
            ParseCause::Refused,
        )?;
    }
    Ok(())
}
