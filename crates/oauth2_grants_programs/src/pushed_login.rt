//! Signs a user in by a push (RFC 9126), as a web application does: one handler pushes the login's
//! parameters and redirects the browser to a short URL, and another one finishes the login.

use crate::canned_client::CannedClient;
use oauth2::basic::{
    BasicClient, BasicErrorResponse, BasicRevocationErrorResponse, BasicTokenIntrospectionResponse,
    BasicTokenResponse,
};
use oauth2::url::Url;
use oauth2::{
    ClientId, ClientSecret, RedirectUrl, StandardRevocableToken, TokenResponse, compact, read_body,
};
use oauth2_metadata::{MetadataRequest, ServerMetadata};
use oauth2_pushed_login::{LoginRoute, PushMetadata, PushPreference, login_route};
use oauth2_redirect::{Login, LoginIssuer};
use rand::rngs::StdRng;
use std::alloc::Global;

const ISSUER: &str = "https://as.example";

const METADATA: &str = r#"{"issuer":"https://as.example",
    "authorization_endpoint":"https://as.example/authorize",
    "token_endpoint":"https://as.example/token",
    "pushed_authorization_request_endpoint":"https://as.example/push"}"#;

const PUSHED: &str = r#"{"request_uri":"urn:example:bwc4JK-ESC0w8acc191e-Y1LTC2","expires_in":60}"#;

// A login as the first handler keeps it, and the redirect with which its user comes back.
const KEPT: &str = r#"{"client_id":"app","issuer":"https://as.example",
    "issuer_in_each_redirect":false,"redirect_uri":"https://app.example/back",
    "state":"af0ifjsldkj","token_url":"https://as.example/token",
    "verifier":"dBjftJeZ4CVP-mB92K27uhbUJU1p1r_wW1gFWFOEjXk"}"#;

const REDIRECT: &str =
    "https://app.example/back?code=SplxlOBeZQQYbYS6WxSbIA&state=af0ifjsldkj&iss=https://as.example";

const SECRET: &str = "bbb";

type Route = LoginRoute<
    BasicErrorResponse,
    BasicTokenResponse,
    BasicTokenIntrospectionResponse,
    StandardRevocableToken,
    BasicRevocationErrorResponse,
>;

fn metadata(
    alloc: Global,
    http_client: &mut CannedClient<'_>,
) -> anyhow::Result<ServerMetadata<PushMetadata>> {
    let issuer = String::from_str(alloc, ISSUER)?;
    Ok(MetadataRequest::new(alloc, issuer)?.request(alloc, http_client)?)
}

/// By which route users log in at the server: by a push, if it has an endpoint for that.
fn route(alloc: Global, metadata: &ServerMetadata<PushMetadata>) -> anyhow::Result<Route> {
    let id = ClientId::from_str(alloc, "app")?;
    let secret = ClientSecret::from_str(alloc, SECRET)?;
    let redirect = RedirectUrl::parse(alloc, "https://app.example/back")?;
    let client = BasicClient::new(id)
        .set_client_secret(secret)
        .set_redirect_uri(redirect);
    Ok(login_route(alloc, metadata, client, PushPreference::WherePossible)?)
}

/// The first handler: the URL to redirect the browser to, and what to keep with the session.
fn start(
    rt: &HostRuntime,
    route: &Route,
    http_client: &mut CannedClient<'_>,
) -> anyhow::Result<(Url, String)> {
    let alloc = rt.alloc();
    let mut rng: StdRng = rand::make_rng(rt)?;
    let issuer = LoginIssuer::OwnRedirectUri(Some(String::from_str(alloc, ISSUER)?));
    let (url, login) = Login::start(alloc, route.client(), issuer, &mut rng)?.url(alloc)?;
    let kept = compact(alloc, &login)?;
    match route {
        LoginRoute::ByUrl(_) => Ok((url, kept)),
        LoginRoute::ByPush(client) => {
            let secret = ClientSecret::from_str(alloc, SECRET)?;
            Ok((client.push(alloc, Some(&secret), &url, http_client)?, kept))
        }
    }
}

/// The second handler finishes the login as after any other redirect.
fn finish(
    alloc: Global,
    route: &Route,
    http_client: &mut CannedClient<'_>,
    kept: &str,
    redirect: &str,
) -> anyhow::Result<BasicTokenResponse> {
    let login: Login = read_body(alloc, kept.as_bytes())?;
    let redirect = Url::parse(alloc, redirect)?;
    Ok(login.finish(alloc, route.client(), http_client, &redirect)?)
}

fn run(rt: &HostRuntime, route: &Route, http_client: &mut CannedClient<'_>) -> anyhow::Result<()> {
    let (url, _kept) = start(rt, route, http_client)?;
    println!(rt; "redirect the browser to: {url}")?;
    let token = finish(rt.alloc(), route, http_client, KEPT, REDIRECT)?;
    println!(rt; "token: {}", token.access_token().secret())?;
    Ok(())
}

/// Starts a login, and finishes another one that was kept.
pub fn main(rt: HostRuntime) -> anyhow::Result<()> {
    let alloc = rt.alloc();
    let token = r#"{"access_token":"abc","token_type":"bearer"}"#;
    let replies = [(200, METADATA), (201, PUSHED), (200, token)];
    let mut http_client = CannedClient::new(alloc, &replies);
    let metadata = metadata(alloc, &mut http_client)?;
    run(&rt, &route(alloc, &metadata)?, &mut http_client)
}
