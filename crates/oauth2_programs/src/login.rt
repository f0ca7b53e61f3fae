//! Signs a user in with a browser: a code with PKCE (RFC 6749, section 4.1; RFC 7636). It reads the
//! URL to which the browser came back from standard input.

use crate::canned_client::CannedClient;
use oauth2::basic::{BasicClient, BasicLoginClient};
use oauth2::url::{ParseError, Url};
use oauth2::{AuthUrl, ClientId, RedirectUrl, Scope, TokenResponse, TokenUrl};
use oauth2_redirect::{Login, LoginIssuer};
use rand::rngs::StdRng;
use std::alloc::Global;

fn client(alloc: Global) -> Result<BasicLoginClient, ParseError> {
    let id = ClientId::from_str(alloc, "aaa")?;
    let auth_url = AuthUrl::parse(alloc, "https://as.example/authorize")?;
    let token_url = TokenUrl::parse(alloc, "https://as.example/token")?;
    let redirect = RedirectUrl::parse(alloc, "http://127.0.0.1:8080/")?;
    Ok(
        BasicClient::new(id)
            .set_auth_uri(auth_url)
            .set_token_uri(token_url)
            .set_redirect_uri(redirect),
    )
}

/// Prints the URL to send the user to. Keep the login until the user is back.
fn start(rt: &HostRuntime, client: &BasicLoginClient) -> anyhow::Result<Login> {
    let alloc = rt.alloc();
    let mut rng: StdRng = rand::make_rng(rt)?;
    let scope = Scope::from_str(alloc, "profile")?;
    let issuer = LoginIssuer::OwnRedirectUri(Some(String::from_str(alloc, "https://as.example")?));
    let request = Login::start(alloc, client, issuer, &mut rng)?.add_scope(scope)?;
    let (url, login) = request.url(alloc)?;
    println!(rt; "browse to: {url}")?;
    println!(rt; "and paste the URL to which the browser came back:")?;
    Ok(login)
}

/// Reads the redirect, and exchanges its code for a token. It is an error if the redirect came to
/// another URL than the login's redirect URI, whose port may be any (RFC 8252, section 7.3), or has
/// another state, or an `iss` that is not the server's issuer (RFC 9207).
fn finish(rt: &HostRuntime, client: &BasicLoginClient, login: Login) -> anyhow::Result<()> {
    let alloc = rt.alloc();
    let replies = [(200, r#"{"access_token":"abc","token_type":"bearer"}"#)];
    let mut http_client = CannedClient::new(alloc, &replies);
    let mut line = String::new(alloc);
    rt.read_line(&mut line)?;
    let redirect = Url::parse(alloc, line.as_str().trim())?;
    let token = login.finish(alloc, client, &mut http_client, &redirect)?;
    println!(rt; "token: {}", token.access_token().secret())?;
    Ok(())
}

fn run(rt: &HostRuntime, client: &BasicLoginClient) -> anyhow::Result<()> {
    let login = start(rt, client)?;
    finish(rt, client, login)
}

/// Logs a user in, and prints the token.
pub fn main(rt: HostRuntime) -> anyhow::Result<()> {
    run(&rt, &client(rt.alloc())?)
}
