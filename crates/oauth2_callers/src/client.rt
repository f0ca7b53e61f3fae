//! Functions that make, read and copy clients.

ghost use Rattle.std.specs.Prelude.{◌≡◌, Some, None, IfOk};
ghost use Rattle.oauth2_wire.specs.declared.content_type.ReplyRule.TheVariants.{Prefix};
ghost use Rattle.oauth2_wire.specs.declared.request.AuthType.TheVariants.{RequestBody, BasicAuth};

use oauth2::basic::BasicClient;
use oauth2::{
    AuthType, AuthUrl, Client, ClientId, ClientSecret, DeviceAuthorizationUrl, EndpointMaybeSet,
    EndpointNotSet, EndpointSet, IntrospectionUrl, RedirectUrl, RevocationUrl, TokenUrl, TryClone,
};
use std::alloc::{AllocError, Global};

/// A client with neither a device, an introspection nor a revocation endpoint.
pub type PlainClient<HasAuthUrl = EndpointNotSet, HasTokenUrl = EndpointNotSet> = BasicClient<
    HasAuthUrl,
    EndpointNotSet,
    EndpointNotSet,
    EndpointNotSet,
    HasTokenUrl,
>;

/// A client for the code flow.
pub type CodeClient = PlainClient<EndpointSet, EndpointSet>;

/// A client that may have a token endpoint, which is known only at run time.
pub type TokenClient = PlainClient<EndpointNotSet, EndpointMaybeSet>;

/// A client for the code flow, which sends its credentials in the body (RFC 6749, section 2.3.1).
pub fn code_client(
    id: ClientId,
    secret: ClientSecret,
    redirect: RedirectUrl,
    auth: AuthUrl,
    token: TokenUrl,
) -> CodeClient
    ensures { result ≡ record {
      client_id = id;
      client_secret = Some secret;
      auth_type = RequestBody;
      reply_rule = Prefix;
      redirect_url = Some redirect;
      auth_url = Some auth;
      device_authorization_url = None;
      introspection_url = None;
      revocation_url = None;
      token_url = Some token;
    } }
{
    Client::new(id)
        .set_token_uri(token)
        .set_client_secret(secret)
        .set_auth_type(AuthType::RequestBody)
        .set_auth_uri(auth)
        .set_redirect_uri(redirect)
}

/// A client without a secret, with a token endpoint if `token` is `Some`.
pub fn token_client(id: ClientId, token: Option<TokenUrl>) -> TokenClient
    ensures id { result.client_id ≡ id }
    ensures secret { result.client_secret ≡ None }
    ensures auth_type { result.auth_type ≡ BasicAuth }
    ensures url { result.token_url ≡ token }
{
    Client::new(id).set_token_uri_option(token)
}

/// A client with every endpoint, except that `revocation` may be `None`.
pub fn every_endpoint(
    client: PlainClient,
    auth: AuthUrl,
    device: DeviceAuthorizationUrl,
    introspection: IntrospectionUrl,
    revocation: Option<RevocationUrl>,
    token: TokenUrl,
) -> BasicClient<EndpointSet, EndpointSet, EndpointSet, EndpointMaybeSet, EndpointSet>
    ensures { result ≡ record client {
      auth_url = Some auth;
      device_authorization_url = Some device;
      introspection_url = Some introspection;
      revocation_url = revocation;
      token_url = Some token;
    } }
{
    client
        .set_auth_uri(auth)
        .set_device_authorization_url(device)
        .set_introspection_url(introspection)
        .set_revocation_url_option(revocation)
        .set_token_uri(token)
}

/// The URL of the token endpoint of a client that has one.
pub fn token_url(client: &CodeClient) -> &TokenUrl
    ensures { client.now.token_url ≡ Some result.now }
{
    client.token_uri()
}

/// A copy that is equal to the client.
pub fn copy_of(alloc: Global, client: &TokenClient) -> Result<TokenClient, AllocError>
    ensures { IfOk result (λ copy. copy ≡ client.now) }
{
    client.try_clone(alloc)
}
