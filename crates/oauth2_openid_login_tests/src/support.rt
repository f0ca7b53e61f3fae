//! The client of the standard's examples, and its logins.

use jiff::Timestamp;
use oauth2::basic::BasicErrorResponse;
use oauth2::{AuthUrl, Client, ClientId, RedirectUrl, TokenUrl};
use oauth2_openid_login::{
    OpenIdClient, OpenIdLogin, OpenIdLoginEnd, OpenIdLoginError, OpenIdProvider,
    OpenIdTokenResponse,
};
use oauth2_tests_support::{NoReply, OneReply, check_text, read, text, url};
use std::alloc::Global;
use std::test::Fail;

/// The result of a login.
pub(crate) type End = Result<
    OpenIdLoginEnd<OpenIdTokenResponse>,
    OpenIdLoginError<NoReply, BasicErrorResponse>,
>;

/// A stored login with the nonce of the standard's examples. Its redirect URI is used for the
/// provider alone.
pub(crate) const STORED: &str = r#"{"client_id":"s6BhdRkqt3","issuer":"http://server.example.com",
    "issuer_in_each_redirect":false,"nonce":"n-0S6_WzA2Mj",
    "redirect_uri":"https://client.example.org/cb","state":"af0ifjsldkj",
    "token_url":"https://server.example.com/token","verifier":"v"}"#;

/// A client with this identifier and this token endpoint, without a redirect URI.
pub(crate) fn client_at(alloc: Global, id: &str, token_url: &str) -> Result<OpenIdClient, Fail> {
    let auth = AuthUrl::new(alloc, text(alloc, "https://server.example.com/authorize")?)?;
    let token = TokenUrl::new(alloc, text(alloc, token_url)?)?;
    let client = Client::new(ClientId::new(text(alloc, id)?));
    Ok(client.set_auth_uri(auth).set_token_uri(token))
}

/// The client of the standard's examples, without a redirect URI.
pub(crate) fn client_without_redirect(alloc: Global) -> Result<OpenIdClient, Fail> {
    client_at(alloc, "s6BhdRkqt3", "https://server.example.com/token")
}

/// The client of the standard's examples.
pub(crate) fn client(alloc: Global) -> Result<OpenIdClient, Fail> {
    let redirect = RedirectUrl::new(alloc, text(alloc, "https://client.example.org/cb")?)?;
    Ok(client_without_redirect(alloc)?.set_redirect_uri(redirect))
}

// A time at which the ID tokens of the standard's examples are valid.
fn now() -> Result<Timestamp, Fail> {
    Ok(Timestamp::from_second(1311281000).ok().ok_or("no time")?)
}

/// Finishes the login that was stored as this text, with this query of the redirect to the client's
/// redirect URI.
pub(crate) fn finish_query(
    alloc: Global,
    http_client: &mut OneReply,
    stored: &str,
    query: &str,
    provider: &OpenIdProvider<'_>,
) -> Result<End, Fail> {
    let now = now()?;
    let client = client(alloc)?;
    let called = url(alloc, "https://client.example.org/cb")?;
    let login: OpenIdLogin = read(alloc, stored)?;
    Ok(login.finish_query_without_signature(
        alloc,
        &client,
        http_client,
        &called,
        query,
        provider,
        || now,
    ))
}

/// Finishes the login that was stored as this text, with this redirect.
pub(crate) fn finish(
    alloc: Global,
    http_client: &mut OneReply,
    stored: &str,
    redirect: &str,
    provider: &OpenIdProvider<'_>,
) -> Result<End, Fail> {
    finish_by(
        alloc,
        &client(alloc)?,
        http_client,
        stored,
        redirect,
        provider,
    )
}

/// Finishes the login that was stored as this text, by this client.
pub(crate) fn finish_by(
    alloc: Global,
    client: &OpenIdClient,
    http_client: &mut OneReply,
    stored: &str,
    redirect: &str,
    provider: &OpenIdProvider<'_>,
) -> Result<End, Fail> {
    let now = now()?;
    let redirect = url(alloc, redirect)?;
    let login: OpenIdLogin = read(alloc, stored)?;
    Ok(login.finish_without_signature(alloc, client, http_client, &redirect, provider, || now))
}

/// The response of the standard's example with these claims.
pub(crate) fn response(alloc: Global, claims: &str) -> Result<String, Fail> {
    Ok(format!(in alloc;
        "{{\"access_token\":\"SlAV32hkKG\",\"token_type\":\"Bearer\",\
             \"refresh_token\":\"8xLOxBtZp8\",\"id_token\":\"eyJhbGciOiJSUzI1NiJ9.{claims}.c2ln\"}}"
    )?)
}

/// Checks the result of a login: its comparison of the access token's hash, or the text of its
/// error.
pub(crate) fn check_end(alloc: Global, end: End, wanted: &str) -> Result<(), Fail> {
    let line = match end {
        Ok(end) => {
            let hash = end.access_token_hash;
            format!(in alloc; "{hash:?}")?
        }
        Err(error) => format!(in alloc; "{error}")?,
    };
    check_text(line.as_str(), wanted)
}
