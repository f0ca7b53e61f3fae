//! Tests of the texts of errors.

use oauth2::{ConfigurationError, HttpClientError, RequestFault, RequestTokenError, ViewError};
use oauth2_tests_support::{check, check_display, text};
use std::alloc::{AllocError, Global};
use std::error::Error;
use std::io;
use std::test::Fail;

// Checks what a generic caller prints that knows only this trait.
fn check_error<E: Error + Drop>(alloc: Global, error: E, wanted: &str) -> Result<(), Fail> {
    check_display(alloc, &error, wanted)
}

#[test]
fn texts_of_errors(rt: HostRuntime) -> Result<(), Fail> {
    let alloc = rt.alloc();
    let missing = ConfigurationError::MissingUrl("token");
    check_error(alloc, missing, "No token endpoint URL specified")?;
    let insecure = ConfigurationError::InsecureUrl("revocation");
    check_error(
        alloc,
        insecure,
        "Scheme for revocation endpoint URL must be HTTPS",
    )?;
    check_error(
        alloc,
        RequestFault::NotHttp,
        "endpoint URL is not an HTTP target",
    )?;
    check_error(alloc, RequestFault::Memory, "Out of memory")?;
    let wanted = "Authorization header holds no identifier and secret";
    check_error(alloc, ViewError::BadBasic, wanted)?;
    check_error(alloc, ViewError::Memory, "Out of memory")
}

#[test]
fn texts_of_exchanges(rt: HostRuntime) -> Result<(), Fail> {
    let of_client: RequestTokenError<u8, String> = RequestTokenError::from(7);
    check_error(rt.alloc(), of_client, "Request failed")?;
    let refused: RequestTokenError<u8, String> = RequestTokenError::refused(AllocError);
    let is_unsent = matches!(&refused, RequestTokenError::Memory { sent: false });
    check_error(rt.alloc(), refused, "Out of memory")?;
    check(is_unsent, "no memory for the request")
}

#[test]
fn texts_of_http_clients(rt: HostRuntime) -> Result<(), Fail> {
    let alloc = rt.alloc();
    let library: HttpClientError<u8> = HttpClientError::from(Box::new(alloc, 7u8)?);
    check_error(alloc, library, "client error")?;
    let status: HttpClientError<u8> = HttpClientError::from(oauth2::http::Error::StatusCode);
    check_error(alloc, status, "HTTP error")?;
    let not_found = io::Error::from(io::ErrorKind::NotFound);
    let not_found: HttpClientError<u8> = HttpClientError::from(not_found);
    check_error(alloc, not_found, "I/O error")?;
    let other: HttpClientError<u8> = HttpClientError::Other(text(alloc, "no answer")?);
    check_error(alloc, other, "no answer")
}
