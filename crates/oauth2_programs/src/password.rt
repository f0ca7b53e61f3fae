//! A token for a user's name and password (RFC 6749, section 4.3). The HTTP client is a closure.

use oauth2::basic::{BasicClient, BasicTokenClient};
use oauth2::http::Response;
use oauth2::url::ParseError;
use oauth2::{
    ClientId, FnClient, HttpRequest, ResourceOwnerPassword, ResourceOwnerUsername, TokenResponse,
    TokenUrl,
};
use std::alloc::{AllocError, Global};

fn client(alloc: Global) -> Result<BasicTokenClient, ParseError> {
    let id = ClientId::from_str(alloc, "aaa")?;
    let token_url = TokenUrl::parse(alloc, "https://as.example/token")?;
    Ok(BasicClient::new(id).set_token_uri(token_url))
}

fn run(rt: &HostRuntime, client: &BasicTokenClient) -> anyhow::Result<()> {
    let alloc = rt.alloc();
    let username = ResourceOwnerUsername::from_str(alloc, "johndoe")?;
    let password = ResourceOwnerPassword::from_str(alloc, "A3ddj3w")?;
    let mut sent = 0;
    let mut http_client = FnClient::new(|request: HttpRequest| -> Result<_, AllocError> {
        sent = request.body().len();
        let reply = String::from_str(alloc, r#"{"access_token":"abc","token_type":"bearer"}"#)?;
        Ok(Response::new(alloc, reply.into_bytes()))
    });
    let token = client
        .exchange_password(alloc, &username, &password)
        .request(alloc, &mut http_client)?;
    println!(rt; "token: {}", token.access_token().secret())?;
    println!(rt; "bytes sent: {sent}")?;
    Ok(())
}

/// Requests a token, and prints it.
pub fn main(rt: HostRuntime) -> anyhow::Result<()> {
    run(&rt, &client(rt.alloc())?)
}
