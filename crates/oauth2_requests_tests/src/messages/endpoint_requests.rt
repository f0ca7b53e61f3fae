//! Requests to an endpoint (RFC 6749, section 2.3.1): what is in their bodies, and how many
//! headers they have.

use oauth2::AuthType::{BasicAuth, RequestBody};
use oauth2::{
    AuthType, ClientId, ClientSecret, HttpRequest, ParamText, RedirectRef, RedirectUrl, ReplyRule,
    Scope, TryClone, endpoint_request,
};
use oauth2_tests_support::{check_equal, check_text, text, url};
use std::alloc::{AllocError, Global};
use std::test::Fail;

fn redirect_url(alloc: Global) -> Result<RedirectUrl, Fail> {
    Ok(RedirectUrl::new(alloc, text(alloc, "https://example.com")?)?)
}

fn two_scopes(alloc: Global) -> Result<Vec<Scope>, AllocError> {
    let (first, second) = (text(alloc, "a")?, text(alloc, "b c")?);
    Ok(vec![in alloc; Scope::new(first), Scope::new(second)]?)
}

// The request of the client `aaa` with these scopes and these extra parameters, with or without a
// secret.
fn request_with(
    alloc: Global,
    auth_type: AuthType,
    secret: Option<&ClientSecret>,
    scopes: &[Scope],
    extra: &[(ParamText<'_>, ParamText<'_>)],
) -> Result<HttpRequest, Fail> {
    let url = url(alloc, "https://example.com/token")?;
    let redirect = redirect_url(alloc)?;
    let id = ClientId::new(text(alloc, "aaa")?);
    let request = endpoint_request(
        alloc,
        &auth_type,
        &id,
        secret,
        extra,
        Some(&redirect),
        Some(scopes),
        &url,
        &[("grant_type", "client_credentials")],
    );
    Ok(request?)
}

// The request of the client `aaa`, with or without a secret. The name of its extra parameter is
// borrowed, and the value is owned.
fn request_of(
    alloc: Global,
    auth_type: AuthType,
    secret: Option<&ClientSecret>,
) -> Result<HttpRequest, Fail> {
    let scopes = two_scopes(alloc)?;
    let extra = [(ParamText::from("x y"), ParamText::from(text(alloc, "é&=")?))];
    request_with(
        alloc,
        auth_type,
        secret,
        scopes.as_slice(),
        extra.as_slice(),
    )
}

// Checks the body of a request, and the number of its headers.
fn check_request(request: &HttpRequest, body: &str, headers: usize) -> Result<(), Fail> {
    check_equal(request.body().as_slice(), body.as_bytes())?;
    check_equal(request.headers().len(), headers)
}

// Checks the client's credentials in the body, and the number of headers.
fn check_sent(
    alloc: Global,
    auth_type: AuthType,
    secret: Option<&ClientSecret>,
    credentials: &str,
    headers: usize,
) -> Result<(), Fail> {
    let body = format!(in alloc;
        "grant_type=client_credentials&scope=a+b+c{credentials}\
        &redirect_uri=https%3A%2F%2Fexample.com&x+y=%C3%A9%26%3D"
    )?;
    let request = request_of(alloc, auth_type, secret)?;
    check_request(&request, body.as_str(), headers)
}

#[test]
fn credentials_in_the_header_or_the_body(rt: HostRuntime) -> Result<(), Fail> {
    let alloc = rt.alloc();
    let secret = ClientSecret::new(text(alloc, "bbb")?);
    let secret = Some(&secret);
    let both = "&client_id=aaa&client_secret=bbb";
    check_sent(alloc, BasicAuth, secret, "", 3)?;
    check_sent(alloc, BasicAuth, None, "&client_id=aaa", 2)?;
    check_sent(alloc, RequestBody, secret, both, 2)?;
    check_sent(alloc, RequestBody, None, "&client_id=aaa", 2)
}

fn check_redirect(redirect: RedirectRef<'_>, wanted: &str) -> Result<(), Fail> {
    check_text(redirect.redirect_url().as_str(), wanted)
}

#[test]
fn redirects_are_borrowed_or_owned(rt: HostRuntime) -> Result<(), Fail> {
    let url = redirect_url(rt.alloc())?;
    check_redirect(RedirectRef::from(&url), "https://example.com")?;
    check_redirect(RedirectRef::from(url), "https://example.com")
}

#[test]
fn copies_of_settings(rt: HostRuntime) -> Result<(), Fail> {
    check_equal(RequestBody.try_clone(rt.alloc())?, RequestBody)?;
    for rule in [ReplyRule::Prefix, ReplyRule::MediaType] {
        check_equal(rule.try_clone(rt.alloc())?, rule)?;
    }
    Ok(())
}
