//! The client of RFC 8707, section 2.2, and the resources that it names.

use oauth2::basic::BasicClient;
use oauth2::{
    AuthUrl, AuthorizationRequest, ClientId, ClientSecret, CsrfToken, DeviceAuthorizationUrl,
    EndpointNotSet, EndpointSet, RedirectUrl, TokenUrl,
};
use oauth2_resource_indicators::{ResourceFault, ResourceIndicators};
use oauth2_tests_support::{check_text, text};
use std::alloc::Global;
use std::test::Fail;

/// A client with an authorization endpoint, a token endpoint and one for devices.
pub(crate) type Sender = BasicClient<
    EndpointSet,
    EndpointSet,
    EndpointNotSet,
    EndpointNotSet,
    EndpointSet,
>;

// The client of the examples, without an endpoint.
fn without_endpoints(alloc: Global) -> Result<BasicClient, Fail> {
    let redirect = RedirectUrl::parse(alloc, "https://client.example.org/cb")?;
    let secret = ClientSecret::new(text(alloc, "hsqEzQlUoHAE9px4FSr4yI")?);
    let id = ClientId::new(text(alloc, "s6BhdRkqt3")?);
    let client = BasicClient::new(id)
        .set_client_secret(secret)
        .set_redirect_uri(redirect);
    Ok(client)
}

/// The client of the examples.
pub(crate) fn client(alloc: Global) -> Result<Sender, Fail> {
    let authorization = AuthUrl::parse(
        alloc,
        "https://authorization-server.example.com/as/authorization.oauth2",
    )?;
    let token = TokenUrl::parse(
        alloc,
        "https://authorization-server.example.com/as/token.oauth2",
    )?;
    let device = DeviceAuthorizationUrl::parse(
        alloc,
        "https://authorization-server.example.com/as/device",
    )?;
    let client = without_endpoints(alloc)?
        .set_auth_uri(authorization)
        .set_token_uri(token)
        .set_device_authorization_url(device);
    Ok(client)
}

/// A request for an authorization URL, with this state.
pub(crate) fn authorization<'a>(
    alloc: Global,
    client: &'a Sender,
    state: &str,
) -> Result<AuthorizationRequest<'a>, Fail> {
    let state = CsrfToken::new(text(alloc, state)?);
    Ok(client.authorize_url(alloc, move || state))
}

/// The request with both resources of the examples.
pub(crate) fn with_both<'a, R: ResourceIndicators<'a>>(request: R) -> Result<R, ResourceFault> {
    request
        .add_resource("https://cal.example.com/".into())?
        .add_resource("https://contacts.example.com/".into())
}

/// Checks the URL of an authorization request.
pub(crate) fn check_url(
    alloc: Global,
    request: AuthorizationRequest<'_>,
    wanted: &str,
) -> Result<(), Fail> {
    let (url, _) = request.url(alloc)?;
    check_text(url.as_str(), wanted)
}
