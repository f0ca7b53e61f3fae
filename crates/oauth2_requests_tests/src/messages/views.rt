//! Tests of what a server gets that does nothing but decode a request's form and header (RFC 6749,
//! section 2.3.1).

use http_header::{AUTHORIZATION, HeaderValue};
use oauth2::http::Request;
use oauth2::{HttpRequest, ServerView, ViewError, basic_header, server_view};
use oauth2_tests_support::{check, check_equal, check_text, text};
use std::alloc::{AllocError, Global};
use std::test::Fail;

fn header(alloc: Global, text: &str) -> Result<HeaderValue, Fail> {
    Ok(HeaderValue::from_str(alloc, text)?)
}

// A request with this Authorization header and nothing else.
fn request_with(alloc: Global, value: HeaderValue) -> Result<HttpRequest, Fail> {
    let mut request = Request::new(alloc, Vec::new(alloc));
    let _ = request.headers_mut().insert(AUTHORIZATION, value)?;
    Ok(request)
}

// What a server decodes from a request with this header.
fn view_of(alloc: Global, value: HeaderValue) -> Result<ServerView, Fail> {
    let request = request_with(alloc, value)?;
    Ok(server_view(alloc, &request)?)
}

// Checks the identifier and the secret that a server decoded.
fn check_basic(view: &ServerView, id: &str, secret: &str) -> Result<(), Fail> {
    match &view.basic {
        Some((read_id, read_secret)) => {
            check_text(read_id.as_str(), id)?;
            check_text(read_secret.as_str(), secret)
        }
        None => Err(Fail::new("no credentials")),
    }
}

// Checks the identifier and the secret that a server decodes from a request with this header.
fn check_credentials(
    alloc: Global,
    value: HeaderValue,
    id: &str,
    secret: &str,
) -> Result<(), Fail> {
    let view = view_of(alloc, value)?;
    check_basic(&view, id, secret)
}

#[test]
fn credentials_of_a_header(rt: HostRuntime) -> Result<(), Fail> {
    let value = basic_header(rt.alloc(), "a:b", "c+d e")?;
    check_equal(value.as_bytes(), b"Basic YSUzQWI6YyUyQmQrZQ==".as_slice())?;
    check_credentials(rt.alloc(), value, "a:b", "c+d e")?;
    check_credentials(
        rt.alloc(),
        header(rt.alloc(), "Basic YTpiOmM=")?,
        "a",
        "b:c",
    )
}

#[test]
fn bad_credentials(rt: HostRuntime) -> Result<(), Fail> {
    for value in ["Basic YWFh", "Basic !!", "Bearer x"] {
        let request = request_with(rt.alloc(), header(rt.alloc(), value)?)?;
        let fault = server_view(rt.alloc(), &request).err();
        check(fault == Some(ViewError::BadBasic), value)?;
    }
    Ok(())
}

// The pairs of a form, each as a line.
fn lines(alloc: Global, form: &[(String, String)]) -> Result<String, AllocError> {
    let mut shown = String::new(alloc);
    for (name, value) in form {
        shown.push_str(format!(in alloc; "{name} is {value}\n")?.as_str())?;
    }
    Ok(shown)
}

fn check_lines(alloc: Global, view: &ServerView, wanted: &str) -> Result<(), Fail> {
    let shown = lines(alloc, view.form.as_slice())?;
    check_text(shown.as_str(), wanted)
}

#[test]
fn pairs_of_a_body(rt: HostRuntime) -> Result<(), Fail> {
    let body = text(rt.alloc(), "a&=b&&c==d&e=%zz")?.into_bytes();
    let view = server_view(rt.alloc(), &Request::new(rt.alloc(), body))?;
    check_lines(rt.alloc(), &view, "a is \n is b\nc is =d\ne is %zz\n")
}
