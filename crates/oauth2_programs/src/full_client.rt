//! A client with all its settings.

use oauth2::basic::{BasicClient, BasicFullClient};
use oauth2::url::ParseError;
use oauth2::{
    AuthType, AuthUrl, ClientId, ClientSecret, DeviceAuthorizationUrl, IntrospectionUrl,
    RedirectUrl, ReplyRule, RevocationUrl, TokenUrl,
};
use std::alloc::Global;

fn client(alloc: Global) -> Result<BasicFullClient, ParseError> {
    let id = ClientId::from_str(alloc, "aaa")?;
    let secret = ClientSecret::from_str(alloc, "bbb")?;
    let auth_url = AuthUrl::parse(alloc, "https://as.example/authorize")?;
    let token_url = TokenUrl::parse(alloc, "https://as.example/token")?;
    let redirect = RedirectUrl::parse(alloc, "https://app.example/back")?;
    let device_url = DeviceAuthorizationUrl::parse(alloc, "https://as.example/device")?;
    let introspection_url = IntrospectionUrl::parse(alloc, "https://as.example/introspect")?;
    let revocation_url = RevocationUrl::parse(alloc, "https://as.example/revoke")?;
    Ok(
        BasicClient::new(id)
            .set_client_secret(secret)
            .set_auth_type(AuthType::RequestBody)
            .set_auth_uri(auth_url)
            .set_token_uri(token_url)
            .set_redirect_uri(redirect)
            .set_device_authorization_url(device_url)
            .set_introspection_url(introspection_url)
            .set_revocation_url(revocation_url)
            .set_reply_rule(ReplyRule::MediaType),
    )
}

fn run(rt: &HostRuntime, client: &BasicFullClient) -> anyhow::Result<()> {
    println!(rt; "client: {}", client.client_id().as_str())?;
    println!(rt; "users log in at: {}", client.auth_uri())?;
    println!(rt; "tokens come from: {}", client.token_uri())?;
    println!(rt; "the secret is sent in: {:?}", client.auth_type())?;
    Ok(())
}

/// Makes the client, and prints its settings.
pub fn main(rt: HostRuntime) -> anyhow::Result<()> {
    run(&rt, &client(rt.alloc())?)
}
