//! The clients of the rows.

ghost use Rattle.std.specs.Prelude.{◌≡◌, Some, None, IfOk, IsTrue, option_map};

use oauth2::basic::BasicClient;
use oauth2::{
    AuthUrl, ClientId, ClientSecret, DeviceAuthorizationUrl, EndpointMaybeSet, EndpointNotSet,
    EndpointSet, HttpRequest, IntrospectionUrl, RequestFault, RevocationUrl, TokenUrl,
};
use oauth2_refusals_support::{Ended, text};
use std::alloc::Global;

/// A client with every endpoint; in some rows the revocation endpoint is missing.
pub type RowClient = BasicClient<
    EndpointSet,
    EndpointSet,
    EndpointSet,
    EndpointMaybeSet,
    EndpointSet,
>;

/// What the clients of the rows differ in.
#[derive(Clone, Copy)]
pub struct ClientTexts<'a> {
    pub id: &'a str,
    pub secret: Option<&'a str>,
    pub auth_url: &'a str,
    pub token_url: &'a str,
    pub revocation_url: Option<&'a str>,
}

/// The texts that most rows use.
pub const USUAL: ClientTexts<'static> = ClientTexts {
    id: "aaa",
    secret: Some("bbb"),
    auth_url: "https://example.com/auth",
    token_url: "https://example.com/token",
    revocation_url: Some("https://example.com/revoke"),
};

fn revocation_url(alloc: Global, url: Option<&str>) -> Result<Option<RevocationUrl>, Ended>
    ensures { IfOk result (λ made. option_map (λ url. url.text) made
        ≡ option_map (λ text. text.now) url.entry) }
{
    match url {
        Some(url) => Ok(Some(RevocationUrl::new(alloc, text(alloc, url)?)?)),
        None => Ok(None),
    }
}

fn secret(alloc: Global, secret: Option<&str>) -> Result<Option<ClientSecret>, Ended>
    ensures { IfOk result (λ made. made ≡ option_map (λ text. text.now) secret.entry) }
{
    match secret {
        Some(secret) => Ok(Some(ClientSecret::new(text(alloc, secret)?))),
        None => Ok(None),
    }
}

// The authorization endpoint and the token endpoint.
fn token_endpoints(alloc: Global, texts: ClientTexts<'_>) -> Result<(AuthUrl, TokenUrl), Ended> {
    let auth = AuthUrl::new(alloc, text(alloc, texts.auth_url)?)?;
    let token = TokenUrl::new(alloc, text(alloc, texts.token_url)?)?;
    Ok((auth, token))
}

// The device authorization endpoint and the introspection endpoint.
fn other_endpoints(alloc: Global) -> Result<(DeviceAuthorizationUrl, IntrospectionUrl), Ended> {
    let device = DeviceAuthorizationUrl::new(alloc, text(alloc, "https://example.com/device")?)?;
    let introspection = IntrospectionUrl::new(alloc, text(alloc, "https://example.com/inspect")?)?;
    Ok((device, introspection))
}

// A client with only an authorization endpoint and a token endpoint.
type CodeClient = BasicClient<
    EndpointSet,
    EndpointNotSet,
    EndpointNotSet,
    EndpointNotSet,
    EndpointSet,
>;

// A client of these texts without a secret, with an authorization endpoint and a token endpoint.
fn code_client(alloc: Global, texts: ClientTexts<'_>) -> Result<CodeClient, Ended>
    ensures id { IfOk result (λ client. client.client_id ≡ texts.entry.id.now) }
    ensures secret { IfOk result (λ client. client.client_secret ≡ None) }
{
    let id = ClientId::new(text(alloc, texts.id)?);
    let (auth, token) = token_endpoints(alloc, texts)?;
    Ok(BasicClient::new(id).set_auth_uri(auth).set_token_uri(token))
}

// A client of these texts without a secret, with the other endpoints too.
fn public_client(alloc: Global, texts: ClientTexts<'_>) -> Result<RowClient, Ended>
    ensures id { IfOk result (λ client. client.client_id ≡ texts.entry.id.now) }
    ensures secret { IfOk result (λ client. client.client_secret ≡ None) }
{
    let revocation = revocation_url(alloc, texts.revocation_url)?;
    let (device, introspection) = other_endpoints(alloc)?;
    let client = code_client(alloc, texts)?;
    Ok(
        client
            .set_device_authorization_url(device)
            .set_introspection_url(introspection)
            .set_revocation_url_option(revocation),
    )
}

/// A client of these texts. It has every endpoint, except that the texts may have no revocation
/// endpoint.
pub fn client_of(alloc: Global, texts: ClientTexts<'_>) -> Result<RowClient, Ended>
    ensures id { IfOk result (λ client. client.client_id ≡ texts.entry.id.now) }
    ensures secret { IfOk result (λ client. client.client_secret
        ≡ option_map (λ text. text.now) texts.entry.secret) }
{
    let secret = secret(alloc, texts.secret)?;
    let client = public_client(alloc, texts)?;
    match secret {
        Some(secret) => Ok(client.set_client_secret(secret)),
        None => Ok(client),
    }
}

fn has_same_endpoints(client: &RowClient, copy: &RowClient) -> bool
    ensures { client.now ≡ copy.now → IsTrue result }
{
    client.auth_uri() == copy.auth_uri()
        && client.token_uri() == copy.token_uri()
        && client.device_authorization_url() == copy.device_authorization_url()
        && client.introspection_url() == copy.introspection_url()
        && client.revocation_url() == copy.revocation_url()
}

// The request that was prepared. `None` if the endpoint is no HTTP target.
fn post_if_http(prepared: Result<HttpRequest, RequestFault>) -> Result<Option<HttpRequest>, Ended> {
    match prepared {
        Ok(post) => Ok(Some(post)),
        Err(RequestFault::NotHttp) => Ok(None),
        Err(fault) => Err(Ended::from(fault)),
    }
}

// A request with the client's credentials. `None` if the token endpoint is no HTTP target.
fn shown(alloc: Global, client: &RowClient) -> Result<Option<HttpRequest>, Ended> {
    let request = client.exchange_client_credentials(alloc);
    post_if_http(request.prepare_request(alloc))
}

fn has_same_header_and_body(post: &HttpRequest, other: &HttpRequest) -> bool {
    post.headers() == other.headers() && post.body() == other.body()
}

// Whether a client's request has the same header and body as `post`.
fn is_shown_by(alloc: Global, post: &HttpRequest, client: &RowClient) -> Result<bool, Ended> {
    match shown(alloc, client)? {
        Some(other) => Ok(has_same_header_and_body(post, &other)),
        None => Ok(false),
    }
}

fn shows_the_same(alloc: Global, client: &RowClient, copy: &RowClient) -> Result<bool, Ended> {
    match shown(alloc, client)? {
        Some(post) => is_shown_by(alloc, &post, copy),
        None => Ok(shown(alloc, copy)?.is_none()),
    }
}

/// Whether a client and its copy return the same values, and send the same credentials.
pub fn is_as(alloc: Global, client: &RowClient, copy: &RowClient) -> Result<bool, Ended> {
    Ok(has_same_endpoints(client, copy) && shows_the_same(alloc, client, copy)?)
}
