//! The clients whose calls are timed.

use crate::fault::Fault;
use oauth2::basic::BasicClient;
use oauth2::{
    AuthUrl, Client, ClientId, ClientSecret, EndpointNotSet, EndpointSet, IntrospectionUrl,
    RedirectUrl, TokenUrl,
};
use std::alloc::Global;

/// A client with an authorization endpoint and a token endpoint.
pub type BenchClient = BasicClient<
    EndpointSet,
    EndpointNotSet,
    EndpointNotSet,
    EndpointNotSet,
    EndpointSet,
>;

/// The client `aaa` with the secret `bbb`.
pub fn client(alloc: Global) -> Result<BenchClient, Fault> {
    let auth = AuthUrl::new(alloc, String::from_str(alloc, "https://example.com/auth")?)?;
    let token = TokenUrl::new(alloc, String::from_str(alloc, "https://example.com/token")?)?;
    Ok(
        Client::new(ClientId::new(String::from_str(alloc, "aaa")?))
            .set_client_secret(ClientSecret::new(String::from_str(alloc, "bbb")?))
            .set_auth_uri(auth)
            .set_token_uri(token),
    )
}

/// The client `aaa` with the secret `bbb` and a redirect URI.
pub fn redirecting_client(alloc: Global) -> Result<BenchClient, Fault> {
    let text = String::from_str(alloc, "https://localhost/redirect")?;
    let redirect = RedirectUrl::new(alloc, text)?;
    Ok(client(alloc)?.set_redirect_uri(redirect))
}

/// A client whose only endpoint is the introspection endpoint.
pub type IntrospectionClient = BasicClient<
    EndpointNotSet,
    EndpointNotSet,
    EndpointSet,
    EndpointNotSet,
    EndpointNotSet,
>;

/// The client `aaa` with the secret `bbb`.
pub fn introspection_client(alloc: Global) -> Result<IntrospectionClient, Fault> {
    let text = String::from_str(alloc, "https://example.com/introspect")?;
    let url = IntrospectionUrl::new(alloc, text)?;
    let id = ClientId::new(String::from_str(alloc, "aaa")?);
    let secret = ClientSecret::new(String::from_str(alloc, "bbb")?);
    Ok(
        Client::new(id)
            .set_client_secret(secret)
            .set_introspection_url(url),
    )
}
