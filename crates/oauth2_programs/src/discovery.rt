//! Finds the endpoints of an authorization server by its issuer (RFC 8414), and starts a login there.

use crate::canned_client::CannedClient;
use oauth2::basic::BasicClient;
use oauth2::url::Url;
use oauth2::{ClientId, EndpointMaybeSet, EndpointSet, RedirectUrl};
use oauth2_metadata::{MetadataRequest, ServerMetadata};
use oauth2_redirect::{Login, LoginIssuer};
use rand::rngs::StdRng;
use std::alloc::Global;

const METADATA: &str = r#"{"issuer":"https://as.example",
    "authorization_endpoint":"https://as.example/authorize",
    "token_endpoint":"https://as.example/token"}"#;

/// A client whose metadata has an authorization and a token endpoint, and perhaps the others.
type FoundClient = BasicClient<
    EndpointSet,
    EndpointMaybeSet,
    EndpointMaybeSet,
    EndpointMaybeSet,
    EndpointSet,
>;

fn metadata(
    alloc: Global,
    http_client: &mut CannedClient<'_>,
    issuer: &str,
) -> anyhow::Result<ServerMetadata> {
    let issuer = String::from_str(alloc, issuer)?;
    Ok(MetadataRequest::new(alloc, issuer)?.request(alloc, http_client)?)
}

/// The client, with the endpoints that the metadata has. An error names the one that is missing.
fn client(alloc: Global, metadata: &ServerMetadata) -> anyhow::Result<FoundClient> {
    let id = ClientId::from_str(alloc, "aaa")?;
    let redirect = RedirectUrl::parse(alloc, "http://127.0.0.1:8080/")?;
    let client = BasicClient::new(id).set_redirect_uri(redirect);
    Ok(metadata.login_client_of(alloc, client)?)
}

/// The server's issuer, which each redirect must name if the metadata says that it does (RFC 9207).
fn issuer(alloc: Global, metadata: &ServerMetadata) -> anyhow::Result<LoginIssuer> {
    let issuer = String::from_str(alloc, metadata.issuer())?;
    if metadata.authorization_response_iss_parameter_supported() {
        return Ok(LoginIssuer::InEachRedirect(issuer));
    }
    Ok(LoginIssuer::OwnRedirectUri(Some(issuer)))
}

/// The URL to send a user to, and what to keep until the user is back.
fn start(
    rt: &HostRuntime,
    client: &FoundClient,
    issuer: LoginIssuer,
) -> anyhow::Result<(Url, Login)> {
    let mut rng: StdRng = rand::make_rng(rt)?;
    Ok(Login::start(rt.alloc(), client, issuer, &mut rng)?.url(rt.alloc())?)
}

/// Finds the endpoints, and starts a login.
pub fn main(rt: HostRuntime) -> anyhow::Result<()> {
    let alloc = rt.alloc();
    let replies = [(200, METADATA)];
    let mut http_client = CannedClient::new(alloc, &replies);
    let metadata = metadata(alloc, &mut http_client, "https://as.example")?;
    let client = client(alloc, &metadata)?;
    let (url, _login) = start(&rt, &client, issuer(alloc, &metadata)?)?;
    eprintln!(rt; "browse to: {url}")?;
    println!(rt; "users log in at: {}", client.auth_uri().as_str())?;
    Ok(())
}
