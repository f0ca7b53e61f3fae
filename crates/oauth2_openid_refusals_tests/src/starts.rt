//! The start of a login: its URL, and the stored login.

use crate::client::{client, provider};
use oauth2::url::Url;
use oauth2::{RedirectUrl, Scope, compact, read_body};
use oauth2_openid_login::{OpenIdClient, OpenIdLogin, OpenIdLoginRequest, OpenIdLoginUrlFault};
use oauth2_refusals_support::{Ended, Want, text};
use rand_pcg::Pcg32;
use std::alloc::Global;
use std::io::Write;
use std::time::Duration;

/// A stored login, with each of its members and one member with another name.
pub const STORED: &str =
    "{\"state\":\"af0ifjsldkj\",\"verifier\":\"dBjftJeZ4CVP-mB92K27uhbUJU1p1r_wW1gFWFOEjXk\",\
    \"redirect_uri\":\"https://client.example.org/cb\",\"nonce\":\"n-0S6_WzA2Mj\",\
    \"client_id\":\"s6BhdRkqt3\",\"token_url\":\"https://server.example.com/token\",\
    \"issuer\":\"http://server.example.com\",\"issuer_in_each_redirect\":true,\
    \"max_age\":100,\"user\":null}";

/// Starts a login with everything set, and prints its URL and the stored login.
pub fn show_start<W: Write>(alloc: Global, out: &mut W) -> Result<bool, Ended> {
    let client = client(alloc)?;
    let redirect_uri = RedirectUrl::new(alloc, text(alloc, "https://client.example.org/cb")?)?;
    let request = started(alloc, &client, &mut Pcg32::new(42, 54))?.set_redirect_uri(&redirect_uri);
    show_request(alloc, request, out)
}

// Starts the login. Its state, its verifier and its nonce come from the generator.
fn started<'a>(
    alloc: Global,
    client: &'a OpenIdClient,
    rng: &mut Pcg32,
) -> Result<OpenIdLoginRequest<'a>, Ended> {
    let request = OpenIdLogin::start(alloc, client, &provider(), rng)?;
    let request = request.set_max_age(alloc, Duration::from_millis(3_600_999))?;
    let request = request.add_extra_param("prompt".into(), "consent".into())?;
    with_scopes(alloc, request)
}

fn with_scopes(
    alloc: Global,
    request: OpenIdLoginRequest<'_>,
) -> Result<OpenIdLoginRequest<'_>, Ended> {
    let profile = Scope::new(text(alloc, "profile")?);
    let email = Scope::new(text(alloc, "email")?);
    Ok(request.add_scope(profile)?.add_scopes(Some(email))?)
}

fn show_request<W: Write>(
    alloc: Global,
    request: OpenIdLoginRequest<'_>,
    out: &mut W,
) -> Result<bool, Ended> {
    let (url, login) = url_of(alloc, request)?;
    writeln!(out, "url {}", url.as_str())?;
    show_stored(alloc, &login, out)
}

// The URL of a login. An error returns the request too, so this tries once more.
fn url_of(alloc: Global, request: OpenIdLoginRequest<'_>) -> Result<(Url, OpenIdLogin), Ended> {
    match request.url(alloc) {
        Ok(made) => Ok(made),
        Err(refused) => match refused.request.url(alloc) {
            Ok(made) => Ok(made),
            Err(refused) => Err(ended(refused.error)),
        },
    }
}

fn ended(fault: OpenIdLoginUrlFault) -> Ended {
    match fault {
        OpenIdLoginUrlFault::Memory => Ended::Starved(Want::ParseError),
        OpenIdLoginUrlFault::NoRedirectUri | OpenIdLoginUrlFault::TooLong => Ended::Refused,
    }
}

/// Reads the stored login, and prints how it is stored again.
pub fn show_stored_login<W: Write>(alloc: Global, out: &mut W) -> Result<bool, Ended> {
    let login = stored_login(alloc, STORED)?;
    show_stored(alloc, &login, out)
}

/// The login that was stored as this text, which proofs do not see, so that no proof reads it.
pub fn stored_login(alloc: Global, stored: &str) -> Result<OpenIdLogin, Ended> {
    Ok(read_body(alloc, stored.as_bytes())?)
}

fn show_stored<W: Write>(alloc: Global, login: &OpenIdLogin, out: &mut W) -> Result<bool, Ended> {
    let stored = compact(alloc, login)?;
    writeln!(out, "stored {stored}")?;
    Ok(true)
}
