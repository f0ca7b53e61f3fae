//! A workload that signs in with a file of its platform, such as Kubernetes or GitHub Actions. The
//! file has a JWT, which the client shows in place of a secret (RFC 7523, section 2.2).

use crate::canned_client::CannedClient;
use oauth2::basic::{BasicClient, BasicTokenClient};
use oauth2::url::ParseError;
use oauth2::{ClientId, RequestTokenError, TokenResponse, TokenUrl};
use oauth2_client_assertions::{AssertingClient, AssertionSource, ServerEndpoints};
use std::alloc::Global;
use std::{env, fs, io};

/// The file, which the platform writes anew before its JWT expires. So each request reads it.
#[derive(Drop)]
struct AssertionFile<'a> {
    rt: &'a HostRuntime,
    path: &'a str,
}

impl AssertionSource for AssertionFile<'_> {
    type Error = io::Error;

    fn assertion(&mut self, alloc: Global) -> io::Result<String> {
        let text = fs::read_to_string(self.rt, self.path)?;
        Ok(String::from_str(alloc, text.as_str().trim())?)
    }
}

/// A client without a secret. Its identifier is the subject of the JWT.
fn client(alloc: Global) -> Result<BasicTokenClient, ParseError> {
    let id = ClientId::from_str(alloc, "system:serviceaccount:shop:report")?;
    let token_url = TokenUrl::parse(alloc, "https://as.example/token")?;
    Ok(BasicClient::new(id).set_token_uri(token_url))
}

fn run(rt: &HostRuntime, client: &BasicTokenClient, path: &str) -> anyhow::Result<()> {
    let alloc = rt.alloc();
    let replies = [(200, r#"{"access_token":"abc","token_type":"bearer"}"#)];
    let http_client = CannedClient::new(alloc, &replies);
    let endpoints = ServerEndpoints::new(alloc, client.token_uri().url())?;
    let source = AssertionFile { rt, path };
    let mut http_client = AssertingClient::new(alloc, http_client, source, endpoints);
    match client
        .exchange_client_credentials(alloc)
        .request(alloc, &mut http_client)
    {
        Ok(token) => println!(rt; "token: {}", token.access_token().secret())?,
        Err(RequestTokenError::Request(error)) => println!(rt; "no reply: {error}")?,
        Err(error) => return Err(error.into()),
    }
    Ok(())
}

/// Requests a token with the JWT in the file that the second argument names, and prints the token.
pub fn main(rt: HostRuntime) -> anyhow::Result<()> {
    let path = env::args(&rt)?.nth(2);
    let path = path.as_deref().unwrap_or("workload.jwt");
    run(&rt, &client(rt.alloc())?, path)
}
