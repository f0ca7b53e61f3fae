//! Revokes a refresh token (RFC 7009), as at the end of a session.

use crate::canned_client::CannedClient;
use oauth2::basic::BasicClient;
use oauth2::url::ParseError;
use oauth2::{ClientId, ClientSecret, EndpointNotSet, EndpointSet, RefreshToken, RevocationUrl};
use std::alloc::Global;

type RevokingClient = BasicClient<EndpointNotSet, EndpointNotSet, EndpointNotSet, EndpointSet>;

fn client(alloc: Global) -> Result<RevokingClient, ParseError> {
    let id = ClientId::from_str(alloc, "aaa")?;
    let secret = ClientSecret::from_str(alloc, "bbb")?;
    let url = RevocationUrl::parse(alloc, "https://as.example/revoke")?;
    Ok(
        BasicClient::new(id)
            .set_client_secret(secret)
            .set_revocation_url(url),
    )
}

fn run(rt: &HostRuntime, client: &RevokingClient) -> anyhow::Result<()> {
    let alloc = rt.alloc();
    let replies = [(200, "")];
    let mut http_client = CannedClient::new(alloc, &replies);
    let token = RefreshToken::from_str(alloc, "def")?;
    client
        .revoke_token(alloc, token.into())?
        .request(alloc, &mut http_client)?;
    println!(rt; "the token is revoked")?;
    Ok(())
}

/// Revokes a refresh token.
pub fn main(rt: HostRuntime) -> anyhow::Result<()> {
    run(&rt, &client(rt.alloc())?)
}
