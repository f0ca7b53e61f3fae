//! Checks of what is sent.

use oauth2_tests_support::{check, check_text};
use oauth2_wire::HttpRequest;
use std::test::Fail;

/// Checks the body of a request.
pub(crate) fn check_sent(sent: &HttpRequest, body: &str) -> Result<(), Fail> {
    check_text(std::str::from_utf8(sent.body().as_slice())?, body)
}

/// Checks the Authorization header of a request.
pub(crate) fn check_authorization(sent: &HttpRequest, wanted: &[u8]) -> Result<(), Fail> {
    let header = sent
        .headers()
        .get("authorization")
        .map(|value| value.as_bytes());
    check(header == Some(wanted), "authorization")
}
