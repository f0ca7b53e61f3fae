//! Requests before an assertion is added.

use http::request::Parts;
use http::{Method, Request};
use http_header::{AUTHORIZATION, CONTENT_TYPE, HeaderValue};
use http_uri::Uri;
use oauth2_tests_support::{text, url};
use oauth2_types::ClientId;
use oauth2_wire::{AuthType, HttpRequest, endpoint_request};
use std::alloc::Global;
use std::test::Fail;

/// The token endpoint, to which the requests go.
pub(crate) const TOKEN_ENDPOINT: &str = "https://server.example.com/token";

/// A POST to this target, with this Content-Type and this body.
pub(crate) fn post_to(
    alloc: Global,
    target: &str,
    media_type: &str,
    body: &str,
) -> Result<HttpRequest, Fail> {
    let mut head = Parts::new(alloc);
    head.method = Method::POST;
    head.uri = Uri::from_str(alloc, target)?;
    let value = HeaderValue::from_bytes(alloc, media_type.as_bytes())?;
    let _ = head.headers.insert(CONTENT_TYPE, value)?;
    Ok(Request::from_parts(head, body.as_bytes().to_vec(alloc)?))
}

/// A POST with this Content-Type and this body.
pub(crate) fn post(alloc: Global, media_type: &str, body: &str) -> Result<HttpRequest, Fail> {
    post_to(alloc, TOKEN_ENDPOINT, media_type, body)
}

/// A POST of a form to this target.
pub(crate) fn form_to(alloc: Global, target: &str, body: &str) -> Result<HttpRequest, Fail> {
    post_to(alloc, target, "application/x-www-form-urlencoded", body)
}

/// A POST of a form.
pub(crate) fn form(alloc: Global, body: &str) -> Result<HttpRequest, Fail> {
    form_to(alloc, TOKEN_ENDPOINT, body)
}

/// A POST of a form with an Authorization header.
pub(crate) fn with_header(alloc: Global, body: &str) -> Result<HttpRequest, Fail> {
    let (mut head, body) = form(alloc, body)?.into_parts();
    let _ = head
        .headers
        .insert(AUTHORIZATION, HeaderValue::from_static("Basic YTpi"))?;
    Ok(Request::from_parts(head, body))
}

/// A GET of a form, from this target.
pub(crate) fn get_from(alloc: Global, target: &str, body: &str) -> Result<HttpRequest, Fail> {
    let (mut head, body) = form_to(alloc, target, body)?.into_parts();
    head.method = Method::GET;
    Ok(Request::from_parts(head, body))
}

/// A request of a client without a secret.
pub(crate) fn of_a_client(alloc: Global) -> Result<HttpRequest, Fail> {
    let id = ClientId::new(text(alloc, "s6BhdRkqt3")?);
    Ok(endpoint_request(
        alloc,
        &AuthType::BasicAuth,
        &id,
        None,
        &[],
        None,
        None,
        &url(alloc, TOKEN_ENDPOINT)?,
        &[("grant_type", "client_credentials")],
    )?)
}
