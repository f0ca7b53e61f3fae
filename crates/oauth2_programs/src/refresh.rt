//! Renews a stored token (RFC 6749, section 6): reads the token response that was stored, requests
//! another with its refresh token, and prints the token response to store in its place.

use crate::canned_client::CannedClient;
use oauth2::basic::{BasicClient, BasicTokenClient, BasicTokenResponse};
use oauth2::url::ParseError;
use oauth2::{ClientId, RefreshToken, TokenResponse, TokenUrl, TryClone, compact, read_body};
use std::alloc::{AllocError, Global};

const STORED: &str =
    r#"{"access_token":"abc","token_type":"bearer","expires_in":3600,"refresh_token":"def"}"#;

fn client(alloc: Global) -> Result<BasicTokenClient, ParseError> {
    let id = ClientId::from_str(alloc, "aaa")?;
    let token_url = TokenUrl::parse(alloc, "https://as.example/token")?;
    Ok(BasicClient::new(id).set_token_uri(token_url))
}

/// Keeps the old refresh token if the reply has none: the old one then stays valid.
fn keep(
    alloc: Global,
    token: &mut BasicTokenResponse,
    refresh_token: &RefreshToken,
) -> Result<(), AllocError> {
    if token.refresh_token().is_none() {
        token.set_refresh_token(Some(refresh_token.try_clone(alloc)?));
    }
    Ok(())
}

/// The token response that replaces the stored one.
fn renewed(
    alloc: Global,
    client: &BasicTokenClient,
    http_client: &mut CannedClient<'_>,
    stored: &BasicTokenResponse,
) -> anyhow::Result<BasicTokenResponse> {
    let Some(refresh_token) = stored.refresh_token() else {
        return Err(anyhow::anyhow!("there is no refresh token"));
    };
    let mut token = client
        .exchange_refresh_token(alloc, refresh_token)
        .request(alloc, http_client)?;
    keep(alloc, &mut token, refresh_token)?;
    Ok(token)
}

fn run(rt: &HostRuntime, client: &BasicTokenClient) -> anyhow::Result<()> {
    let alloc = rt.alloc();
    let replies = [(
        200,
        r#"{"access_token":"ghi","token_type":"bearer","expires_in":3600}"#,
    )];
    let mut http_client = CannedClient::new(alloc, &replies);
    let stored: BasicTokenResponse = read_body(alloc, STORED.as_bytes())?;
    let token = renewed(alloc, client, &mut http_client, &stored)?;
    println!(rt; "store: {}", compact(alloc, &token)?)?;
    Ok(())
}

/// Renews the stored token.
pub fn main(rt: HostRuntime) -> anyhow::Result<()> {
    run(&rt, &client(rt.alloc())?)
}
