//! The end of a login: from the redirect to the ID token.

use crate::client::{NoReply, OneReply, client, provider};
use crate::starts::{STORED, stored_login};
use crate::tokens::{now, show_user};
use oauth2::RequestTokenError;
use oauth2::basic::BasicErrorResponse;
use oauth2::url::Url;
use oauth2_openid_login::{
    OpenIdClient, OpenIdLogin, OpenIdLoginEnd, OpenIdLoginError, OpenIdLoginRefusal,
    OpenIdTokenResponse, RefusedOpenIdLogin,
};
use oauth2_redirect::{LoginRefusal, RedirectError};
use oauth2_refusals_support::{Ended, Want};
use std::alloc::Global;
use std::io::Write;

// The redirect of the standard's example (3.1.2.5), with the issuer (RFC 9207).
const REDIRECT: &str = "https://client.example.org/cb?code=SplxlOBeZQQYbYS6WxSbIA&state=af0ifjsldkj\
    &iss=http%3A%2F%2Fserver.example.com";

// The token response of the standard's example (3.1.3.3). Its ID token was made and encoded by
// Python. It has the claims of the example, the time at which the user logged in, and the hash of
// the access token.
const TOKENS: &str = "{\"access_token\":\"SlAV32hkKG\",\"token_type\":\"Bearer\",\
    \"refresh_token\":\"8xLOxBtZp8\",\"expires_in\":3600,\"id_token\":\
    \"eyJhbGciOiJSUzI1NiJ9.eyJpc3MiOiJodHRwOi8vc2VydmVyLmV4YW1wbGUuY29tIiwic3ViIjoiMjQ4Mjg5NzY\
    xMDAxIiwiYXVkIjoiczZCaGRSa3F0MyIsIm5vbmNlIjoibi0wUzZfV3pBMk1qIiwiZXhwIjoxMzExMjgxOTcwLCJ\
    pYXQiOjEzMTEyODA5NzAsImF1dGhfdGltZSI6MTMxMTI4MDk2OSwiYXRfaGFzaCI6InJYSDdRV1ZUWm5YWUNvdV8\
    2VmRwZmcifQ.c2ln\"}";

// The result of a login.
type End = Result<
    OpenIdLoginEnd<OpenIdTokenResponse>,
    OpenIdLoginError<NoReply, BasicErrorResponse>,
>;

/// Finishes the stored login, and prints the result.
pub fn show_login<W: Write>(alloc: Global, out: &mut W) -> Result<bool, Ended> {
    let client = client(alloc)?;
    let redirect = url(alloc, REDIRECT)?;
    let http_client = OneReply::new(alloc, TOKENS)?;
    let login = stored_login(alloc, STORED)?;
    show_finished(alloc, &client, login, &redirect, http_client, out)
}

// A URL made from a text that proofs do not see, so that no proof parses it.
fn url(alloc: Global, url: &str) -> Result<Url, Ended> {
    Ok(Url::parse(alloc, url)?)
}

fn show_finished<W: Write>(
    alloc: Global,
    client: &OpenIdClient,
    login: OpenIdLogin,
    redirect: &Url,
    mut http_client: OneReply,
    out: &mut W,
) -> Result<bool, Ended> {
    let now = now()?;
    let end = login.finish_without_signature(
        alloc,
        client,
        &mut http_client,
        redirect,
        &provider(),
        || now,
    );
    show_request(out, &http_client)?;
    show_end(out, end)
}

// Prints how often the HTTP client was called, and the body of its request.
fn show_request<W: Write>(out: &mut W, http_client: &OneReply) -> Result<(), Ended> {
    writeln!(out, "calls {}", http_client.calls)?;
    let Some(request) = &http_client.request else {
        return Ok(());
    };
    let Ok(body) = str::from_utf8(request.body()) else {
        return Err(Ended::Refused);
    };
    writeln!(out, "body {body}")?;
    Ok(())
}

fn show_end<W: Write>(out: &mut W, end: End) -> Result<bool, Ended> {
    match end {
        Ok(end) => show_user(out, &end.id_token, end.access_token_hash),
        Err(OpenIdLoginError::Memory) => {
            // This error is returned only after the token response has come.
            writeln!(out, "memory OpenIdLoginError {{ sent: true }}")?;
            Ok(false)
        }
        Err(error) => Err(ended(error)),
    }
}

fn ended(error: OpenIdLoginError<NoReply, BasicErrorResponse>) -> Ended {
    match error {
        OpenIdLoginError::Token(RequestTokenError::Memory { sent }) => {
            Ended::Starved(Want::RequestTokenError { sent })
        }
        OpenIdLoginError::Refused(
            RefusedOpenIdLogin {
                error: OpenIdLoginRefusal::Login(LoginRefusal::Redirect(RedirectError::Memory)),
                login: _,
            },
        ) => Ended::Starved(Want::RedirectError),
        _ => Ended::Refused,
    }
}
