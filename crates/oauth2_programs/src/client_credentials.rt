//! A token for the client itself (RFC 6749, section 4.4), with one scope and for one API.

use crate::canned_client::CannedClient;
use oauth2::basic::{BasicClient, BasicTokenClient, BasicTokenResponse};
use oauth2::url::ParseError;
use oauth2::{AlwaysReady, ClientId, ClientSecret, Scope, TokenResponse, TokenUrl};
use std::alloc::Global;
use std::fmt;

fn client(alloc: Global) -> Result<BasicTokenClient, ParseError> {
    let id = ClientId::from_str(alloc, "aaa")?;
    let secret = ClientSecret::from_str(alloc, "bbb")?;
    let token_url = TokenUrl::parse(alloc, "https://as.example/token")?;
    Ok(
        BasicClient::new(id)
            .set_client_secret(secret)
            .set_token_uri(token_url),
    )
}

/// Requests a token for the API. The HTTP client may be of any type that is always ready.
fn token<C: AlwaysReady>(
    alloc: Global,
    client: &BasicTokenClient,
    http_client: &mut C,
) -> anyhow::Result<BasicTokenResponse>
where
    C::Error: fmt::Debug,
{
    let token = client
        .exchange_client_credentials(alloc)
        .add_scope(Scope::from_str(alloc, "read")?)?
        .add_extra_param("audience".into(), "https://api.example/".into())?
        .request(alloc, http_client)?;
    Ok(token)
}

fn run(rt: &HostRuntime, client: &BasicTokenClient) -> anyhow::Result<()> {
    let alloc = rt.alloc();
    let replies = [(
        200,
        r#"{"access_token":"abc","token_type":"bearer","expires_in":3600}"#,
    )];
    let mut http_client = CannedClient::new(alloc, &replies);
    let token = token(alloc, client, &mut http_client)?;
    println!(rt; "token: {}", token.access_token().secret())?;
    println!(rt; "lifetime: {:?}", token.expires_in())?;
    Ok(())
}

/// Requests a token, and prints it and its lifetime.
pub fn main(rt: HostRuntime) -> anyhow::Result<()> {
    run(&rt, &client(rt.alloc())?)
}
