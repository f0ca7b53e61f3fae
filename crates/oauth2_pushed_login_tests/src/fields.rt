//! The two members of metadata (RFC 9126, section 5).

use oauth2::ParseCause;
use oauth2_metadata::ServerMetadata;
use oauth2_pushed_login::PushMetadata;
use oauth2_tests_support::{check_equal, check_fault, check_text, check_written, read};
use std::alloc::Global;
use std::test::Fail;

// The example of RFC 8414, section 3.2, shortened, with the two members.
const EXAMPLE: &str = r#"{"issuer":"https://server.example.com",
"authorization_endpoint":"https://server.example.com/authorize",
"token_endpoint":"https://server.example.com/token",
"pushed_authorization_request_endpoint":"https://server.example.com/as/par",
"require_pushed_authorization_requests":true,
"userinfo_endpoint":"https://server.example.com/userinfo",
"ui_locales_supported":["en-US","en-GB"]}"#;

// The same in byte order of the names, without the member that nothing reads.
const WRITTEN: &str = concat!(
    r#"{"authorization_endpoint":"https://server.example.com/authorize","#,
    r#""issuer":"https://server.example.com","#,
    r#""pushed_authorization_request_endpoint":"https://server.example.com/as/par","#,
    r#""require_pushed_authorization_requests":true,"#,
    r#""token_endpoint":"https://server.example.com/token","#,
    r#""ui_locales_supported":["en-US","en-GB"]}"#,
);

fn check_fields(fields: &PushMetadata) -> Result<(), Fail> {
    let endpoint = fields
        .pushed_authorization_request_endpoint()
        .ok_or("no endpoint")?;
    check_text(endpoint.as_str(), "https://server.example.com/as/par")?;
    check_equal(fields.require_pushed_authorization_requests(), true)
}

// Checks what is read of the metadata, and what they are written as.
fn check_metadata(alloc: Global, body: &str) -> Result<(), Fail> {
    let metadata: ServerMetadata<PushMetadata> = read(alloc, body)?;
    check_fields(metadata.extra_fields())?;
    check_written(alloc, &metadata, WRITTEN)
}

#[test]
fn example(rt: HostRuntime) -> Result<(), Fail> {
    check_metadata(rt.alloc(), EXAMPLE)?;
    check_metadata(rt.alloc(), WRITTEN)
}

fn check_values(alloc: Global, body: &str, required: bool, written: &str) -> Result<(), Fail> {
    let fields: PushMetadata = read(alloc, body)?;
    check_equal(fields.require_pushed_authorization_requests(), required)?;
    check_written(alloc, &fields, written)
}

// Both may be absent or null. A URL is written as it was given.
#[test]
fn values(rt: HostRuntime) -> Result<(), Fail> {
    for (body, required, written) in [
        ("{}", false, "{}"),
        (
            r#"{"pushed_authorization_request_endpoint":null,
"require_pushed_authorization_requests":null}"#,
            false,
            "{}",
        ),
        (
            r#"{"require_pushed_authorization_requests":false}"#,
            false,
            r#"{"require_pushed_authorization_requests":false}"#,
        ),
        (
            r#"{"pushed_authorization_request_endpoint":"HTTPS://a.example"}"#,
            false,
            r#"{"pushed_authorization_request_endpoint":"HTTPS://a.example"}"#,
        ),
    ] {
        check_values(rt.alloc(), body, required, written)?;
    }
    Ok(())
}

#[test]
fn faults(rt: HostRuntime) -> Result<(), Fail> {
    for (body, member, cause) in [
        ("[]", "", ParseCause::NotObject),
        (
            r#"{"pushed_authorization_request_endpoint":"par",
"require_pushed_authorization_requests":1}"#,
            "pushed_authorization_request_endpoint",
            ParseCause::BadUrl,
        ),
        (
            r#"{"pushed_authorization_request_endpoint":1}"#,
            "pushed_authorization_request_endpoint",
            ParseCause::WrongType,
        ),
        (
            r#"{"require_pushed_authorization_requests":"true"}"#,
            "require_pushed_authorization_requests",
            ParseCause::WrongType,
        ),
    ] {
        check_fault::<PushMetadata>(rt.alloc(), body, member, cause)?;
    }
    Ok(())
}
