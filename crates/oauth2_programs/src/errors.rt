//! What each error of a request means, and what the program does then. `anyhow` keeps only the text
//! of an error, so the program matches on the errors that matter before the `?`.

use crate::canned_client::CannedClient;
use oauth2::basic::{
    BasicClient, BasicErrorResponseType, BasicRequestTokenError, BasicTokenClient,
};
use oauth2::url::ParseError;
use oauth2::{ClientId, RefreshToken, RequestTokenError, TokenResponse, TokenUrl};
use std::alloc::Global;

fn client(alloc: Global) -> Result<BasicTokenClient, ParseError> {
    let id = ClientId::from_str(alloc, "aaa")?;
    let token_url = TokenUrl::parse(alloc, "https://as.example/token")?;
    Ok(BasicClient::new(id).set_token_uri(token_url))
}

/// What to tell the user of an error.
fn advice(error: &BasicRequestTokenError<anyhow::Error>) -> &'static str {
    match error {
        RequestTokenError::ServerResponse(response) => match response.error() {
            BasicErrorResponseType::InvalidGrant => "sign in again",
            BasicErrorResponseType::InvalidClient => "correct the client's settings",
            _ => "report this",
        },
        RequestTokenError::Request(_) => "try again later",
        RequestTokenError::Parse(_, _) => "this is no token endpoint",
        RequestTokenError::Other(_) => "report this",
        RequestTokenError::Memory { .. } => "out of memory",
    }
}

fn refresh(
    rt: &HostRuntime,
    client: &BasicTokenClient,
    http_client: &mut CannedClient<'_>,
    token: &RefreshToken,
) -> anyhow::Result<()> {
    let alloc = rt.alloc();
    match client
        .exchange_refresh_token(alloc, token)
        .request(alloc, http_client)
    {
        Ok(token) => println!(rt; "token: {}", token.access_token().secret())?,
        Err(error) => println!(rt; "{error}: {}", advice(&error))?,
    }
    Ok(())
}

fn run(rt: &HostRuntime, client: &BasicTokenClient) -> anyhow::Result<()> {
    let alloc = rt.alloc();
    let replies = [
        (400, r#"{"error":"invalid_grant"}"#),
        (502, "<html>Bad gateway</html>"),
        (200, r#"{"token_type":"bearer"}"#),
        (200, ""),
    ];
    let mut http_client = CannedClient::new(alloc, &replies);
    let token = RefreshToken::from_str(alloc, "def")?;
    for _ in 0..5 {
        refresh(rt, client, &mut http_client, &token)?;
    }
    Ok(())
}

/// Refreshes five times, and prints each token or what to tell the user.
pub fn main(rt: HostRuntime) -> anyhow::Result<()> {
    run(&rt, &client(rt.alloc())?)
}
