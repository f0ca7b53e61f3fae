//! A server with error codes that are not in the standard, and how a program tells them apart.

use crate::canned_client::CannedClient;
use oauth2::basic::{
    BasicRevocationErrorResponse, BasicTokenIntrospectionResponse, BasicTokenResponse,
};
use oauth2::url::ParseError;
use oauth2::{
    Client, ClientId, ClientSecret, EndpointNotSet, EndpointSet, RequestTokenError,
    StandardErrorResponse, StandardRevocableToken, TextErrorResponseType, TokenResponse, TokenUrl,
};
use std::alloc::Global;
use std::convert::AsStr;

type ErrorResponse = StandardErrorResponse<TextErrorResponseType>;

type OwnClient = Client<
    ErrorResponse,
    BasicTokenResponse,
    BasicTokenIntrospectionResponse,
    StandardRevocableToken,
    BasicRevocationErrorResponse,
    EndpointNotSet,
    EndpointNotSet,
    EndpointNotSet,
    EndpointNotSet,
    EndpointSet,
>;

fn client(alloc: Global) -> Result<OwnClient, ParseError> {
    let id = ClientId::from_str(alloc, "aaa")?;
    let secret = ClientSecret::from_str(alloc, "bbb")?;
    let token_url = TokenUrl::parse(alloc, "https://as.example/token")?;
    Ok(
        Client::new(id)
            .set_client_secret(secret)
            .set_token_uri(token_url),
    )
}

fn run(rt: &HostRuntime, client: &OwnClient) -> anyhow::Result<()> {
    let alloc = rt.alloc();
    let replies = [(
        429,
        r#"{"error":"too_many_requests","error_description":"wait a minute"}"#,
    )];
    let mut http_client = CannedClient::new(alloc, &replies);
    let answer = client
        .exchange_client_credentials(alloc)
        .request(alloc, &mut http_client);
    match answer {
        Ok(token) => println!(rt; "token: {}", token.access_token().secret())?,
        Err(RequestTokenError::ServerResponse(error)) => match error.error().as_str() {
            "too_many_requests" => println!(rt; "later: {:?}", error.error_description())?,
            code => println!(rt; "refused: {code}")?,
        },
        Err(error) => println!(rt; "{error}")?,
    }
    Ok(())
}

/// Requests a token, and prints it or the error.
pub fn main(rt: HostRuntime) -> anyhow::Result<()> {
    run(&rt, &client(rt.alloc())?)
}
