//! Signs a user in with OpenID Connect (Core 1.0, section 3.1), as a web application does: one
//! handler starts the login and keeps it with the session, and another one finishes it.

use crate::canned_client::CannedClient;
use jiff::Timestamp;
use oauth2::url::{ParseError, Url};
use oauth2::{AuthUrl, Client, ClientId, RedirectUrl, Scope, TokenUrl, compact, read_body};
use oauth2_openid_login::{OpenIdClient, OpenIdLogin, OpenIdProvider, RedirectIssuer};
use rand::rngs::StdRng;
use std::alloc::Global;
use std::time::Duration;

// A login as the first handler keeps it, the redirect with which its user comes back, and the reply
// to its code, from the standard's examples.
const KEPT: &str = r#"{"client_id":"s6BhdRkqt3","issuer":"http://server.example.com",
    "issuer_in_each_redirect":false,"nonce":"n-0S6_WzA2Mj",
    "redirect_uri":"https://client.example.org/cb","state":"af0ifjsldkj",
    "token_url":"https://server.example.com/token",
    "verifier":"dBjftJeZ4CVP-mB92K27uhbUJU1p1r_wW1gFWFOEjXk"}"#;

const REDIRECT: &str =
    "https://client.example.org/cb?code=SplxlOBeZQQYbYS6WxSbIA&state=af0ifjsldkj";

const REPLY: &str = "{\"access_token\":\"SlAV32hkKG\",\"token_type\":\"Bearer\",\"id_token\":\
    \"eyJhbGciOiJSUzI1NiIsImtpZCI6IjFlOWdkazcifQ.ewogImlzcyI6ICJodHRwOi8vc2VydmVyLmV4YW1w\
    bGUuY29tIiwKICJzdWIiOiAiMjQ4Mjg5NzYxMDAxIiwKICJhdWQiOiAiczZCaGRSa3F0MyIsCiAibm9uY2UiO\
    iAibi0wUzZfV3pBMk1qIiwKICJleHAiOiAxMzExMjgxOTcwLAogImlhdCI6IDEzMTEyODA5NzAKfQ.c2ln\"}";

fn client(alloc: Global) -> Result<OpenIdClient, ParseError> {
    let id = ClientId::from_str(alloc, "s6BhdRkqt3")?;
    let auth_url = AuthUrl::parse(alloc, "https://server.example.com/authorize")?;
    let token_url = TokenUrl::parse(alloc, "https://server.example.com/token")?;
    let redirect = RedirectUrl::parse(alloc, "https://client.example.org/cb")?;
    Ok(
        Client::new(id)
            .set_auth_uri(auth_url)
            .set_token_uri(token_url)
            .set_redirect_uri(redirect),
    )
}

fn provider() -> OpenIdProvider<'static> {
    OpenIdProvider::new(
        "http://server.example.com",
        RedirectIssuer::OwnRedirectUri,
        Duration::from_secs(60),
    )
    .set_algorithm("RS256")
}

/// The first handler: the URL to send the user to, and what to keep with the session.
fn start(rt: &HostRuntime, client: &OpenIdClient) -> anyhow::Result<(Url, String)> {
    let alloc = rt.alloc();
    let mut rng: StdRng = rand::make_rng(rt)?;
    let scope = Scope::from_str(alloc, "email")?;
    let request = OpenIdLogin::start(alloc, client, &provider(), &mut rng)?.add_scope(scope)?;
    let (url, login) = request.url(alloc)?;
    Ok((url, compact(alloc, &login)?))
}

/// The second handler: returns who the user is. The clock is read after the reply. Your own program
/// passes `|| Timestamp::now(rt).unwrap_or(Timestamp::MAX)` as the clock.
fn finish(
    alloc: Global,
    client: &OpenIdClient,
    kept: &str,
    redirect: &str,
    now: Timestamp,
) -> anyhow::Result<String> {
    let replies = [(200, REPLY)];
    let mut http_client = CannedClient::new(alloc, &replies);
    let login: OpenIdLogin = read_body(alloc, kept.as_bytes())?;
    let redirect = Url::parse(alloc, redirect)?;
    let end = login.finish_without_signature(
        alloc,
        client,
        &mut http_client,
        &redirect,
        &provider(),
        || now,
    )?;
    let claims = end.id_token.claims();
    Ok(format!(in alloc; "{} of {}", claims.subject(), claims.issuer())?)
}

fn run(rt: &HostRuntime, client: &OpenIdClient) -> anyhow::Result<()> {
    let (url, kept) = start(rt, client)?;
    eprintln!(rt; "browse to: {url}")?;
    eprintln!(rt; "keep: {kept}")?;
    let now = Timestamp::from_second(1_311_281_000)?;
    let user = finish(rt.alloc(), client, KEPT, REDIRECT, now)?;
    println!(rt; "user: {user}")?;
    Ok(())
}

/// Starts a login, and finishes the kept one.
pub fn main(rt: HostRuntime) -> anyhow::Result<()> {
    run(&rt, &client(rt.alloc())?)
}
