//! The implicit flow (RFC 6749, section 4.2), for servers that support no other flow. The token is
//! in the fragment of the redirect's URL. A browser sends the fragment to no server, so a page has
//! to read it.

use oauth2::basic::BasicClient;
use oauth2::url::{ParseError, Url};
use oauth2::{AuthUrl, ClientId, CsrfToken, RedirectUrl};
use std::alloc::{AllocError, Global};

/// The URL to send the user to.
fn url(alloc: Global, state: CsrfToken) -> Result<Url, ParseError> {
    let id = ClientId::from_str(alloc, "aaa")?;
    let auth_url = AuthUrl::parse(alloc, "https://as.example/authorize")?;
    let redirect = RedirectUrl::parse(alloc, "https://app.example/back")?;
    let client = BasicClient::new(id)
        .set_auth_uri(auth_url)
        .set_redirect_uri(redirect);
    let request = client.authorize_url(alloc, move || state);
    Ok(request.use_implicit_flow().url(alloc)?.0)
}

/// The value of a parameter in the redirect's fragment; the first one with this name.
fn parameter(alloc: Global, redirect: &Url, name: &str) -> Result<Option<String>, AllocError> {
    let fragment = redirect.fragment().unwrap_or("");
    for pair in form_urlencoded::parse(alloc, fragment.as_bytes()) {
        let (found, value) = pair?;
        if found.as_str() == name {
            return Ok(Some(value.into_owned(alloc)?));
        }
    }
    Ok(None)
}

/// The token in the redirect's fragment, if the redirect has this state; otherwise `None`.
fn token(alloc: Global, redirect: &Url, state: &str) -> Result<Option<String>, AllocError> {
    match parameter(alloc, redirect, "state")? {
        Some(found) if found.as_str() == state => parameter(alloc, redirect, "access_token"),
        _ => Ok(None),
    }
}

/// Prints the URL of a login, and the token of a redirect.
pub fn main(rt: HostRuntime) -> anyhow::Result<()> {
    let alloc = rt.alloc();
    let state = CsrfToken::from_str(alloc, "xyz")?;
    println!(rt; "browse to: {}", url(alloc, state)?)?;
    let redirect = "https://app.example/back#access_token=abc&token_type=bearer&state=xyz";
    let redirect = Url::parse(alloc, redirect)?;
    println!(rt; "token: {:?}", token(alloc, &redirect, "xyz")?)?;
    Ok(())
}
