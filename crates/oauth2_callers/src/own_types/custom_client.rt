//! A client of a server with custom error responses.

ghost use Rattle.std.specs.Prelude.{◌≡◌, Some, None};
ghost use Rattle.oauth2_urls.specs.Addressed.{Addressed};
ghost use Rattle.oauth2_wire.specs.declared.content_type.ReplyRule.TheVariants.{Prefix};
ghost use Rattle.oauth2_wire.specs.declared.request.AuthType.TheVariants.{BasicAuth};
ghost use Rattle.oauth2_requests.specs.ClientCredentials.{client_credentials_configuration};
ghost use Rattle.oauth2.specs.NewRequest.{new_client_credentials_request};
ghost use Rattle.oauth2_callers.specs.own_types.Asked.{AsksForCustomToken};

use crate::own_types::client::{ColorfulIntrospectionResponse, ColorfulTokenResponse};
use crate::own_types::colorful_token::ColorfulRevocableToken;
use crate::own_types::custom_error::CustomErrorResponse;
use oauth2::{
    Client, ClientId, EndpointNotSet, EndpointSet, RequestTokenError, SyncHttpClient, TokenUrl,
};
use std::alloc::Global;

/// A client of this server, whose only endpoint is the token endpoint.
pub type CustomErrorClient = Client<
    CustomErrorResponse,
    ColorfulTokenResponse,
    ColorfulIntrospectionResponse,
    ColorfulRevocableToken,
    CustomErrorResponse,
    EndpointNotSet,
    EndpointNotSet,
    EndpointNotSet,
    EndpointNotSet,
    EndpointSet,
>;

/// Makes a client without a secret.
pub fn custom_error_client(id: ClientId, token: TokenUrl) -> CustomErrorClient
    ensures { result ≡ record {
      client_id = id;
      client_secret = None;
      auth_type = BasicAuth;
      reply_rule = Prefix;
      redirect_url = None;
      auth_url = None;
      device_authorization_url = None;
      introspection_url = None;
      revocation_url = None;
      token_url = Some token;
    } }
{
    Client::new(id).set_token_uri(token)
}

/// Requests a token with the client's own credentials (RFC 6749, section 4.4).
pub fn token_or_custom_error<C: SyncHttpClient>(
    alloc: Global,
    client: &CustomErrorClient,
    http_client: &mut C,
) -> Result<ColorfulTokenResponse, RequestTokenError<C::Error, CustomErrorResponse>>
    requires { C.is_ready http_client.old }
    ensures once { (endpoint : Addressed) × (client.now.token_url ≡ Some endpoint)
        × AsksForCustomToken C.step client.now.reply_rule
        (client_credentials_configuration (new_client_credentials_request client.now endpoint))
        endpoint http_client.old result http_client.new }
    ensures ready { C.is_ready http_client.new }
{
    client
        .exchange_client_credentials(alloc)
        .request(alloc, http_client)
}
