//! A client of a server that defines its own token types, extra fields, error codes and kind of
//! revocable token, and a function for each of its requests.

ghost use Rattle.std.specs.Prelude.{
  ◌≡◌,
  Some,
  None,
  codes,
  string_bytes,
  IfSome,
  IsErrAnd,
  IsOkAnd,
  IsSome,
  List,
};
ghost use Rattle.oauth2_urls.specs.Addressed.{Addressed};
ghost use Rattle.oauth2_wire.specs.declared.content_type.ReplyRule.TheVariants.{Prefix};
ghost use Rattle.oauth2_wire.specs.declared.request.AuthType.TheVariants.{BasicAuth};
ghost use Rattle.oauth2_requests.specs.ClientCredentials.{client_credentials_configuration};
ghost use Rattle.oauth2_requests.specs.Code.{code_configuration};
ghost use Rattle.oauth2_requests.specs.DeviceAuthorization.{device_authorization_configuration};
ghost use Rattle.oauth2_requests.specs.Password.{password_configuration};
ghost use Rattle.oauth2_requests.specs.Refresh.{refresh_configuration};
ghost use Rattle.oauth2_requests.specs.TokenIntrospection.{introspection_configuration};
ghost use Rattle.oauth2_requests.specs.TokenRevocation.{IsHttps, revocation_configuration};
ghost use Rattle.oauth2_wire.specs.ConfigurationError.{IsInsecureUrl};
ghost use Rattle.oauth2_device.specs.Events.{PollCall, Leads};
ghost use Rattle.oauth2.specs.NewRequest.{
  new_client_credentials_request,
  new_code_request,
  new_device_request,
  new_device_token_request,
  new_introspection_request,
  new_password_request,
  new_refresh_request,
  new_revocation_request,
};
ghost use Rattle.oauth2_callers.specs.own_types.Asked.{
  AsksForToken,
  AsksForIntrospection,
  AsksForCodes,
  AsksForRevocation,
  PollsForToken,
};

use crate::own_types::colorful_error::ColorfulErrorResponseType;
use crate::own_types::colorful_fields::ColorfulFields;
use crate::own_types::colorful_token::ColorfulRevocableToken;
use crate::own_types::colorful_token_type::ColorfulTokenType;
use oauth2::{
    AccessToken, AuthorizationCode, Client, ClientId, ConfigurationError,
    DeviceAuthorizationResponse, DeviceAuthorizationUrl, DeviceCodeErrorResponse, EndpointNotSet,
    EndpointSet, IntrospectionUrl, PollWorld, RefreshToken, RequestTokenError,
    ResourceOwnerPassword, ResourceOwnerUsername, RevocationRequest, RevocationUrl,
    StandardErrorResponse, StandardTokenIntrospectionResponse, StandardTokenResponse,
    SyncHttpClient, TokenUrl,
};
use std::alloc::Global;

/// A token response with this server's extra fields and token types.
pub type ColorfulTokenResponse = StandardTokenResponse<ColorfulFields, ColorfulTokenType>;

/// An introspection response with this server's extra fields and token types.
pub type ColorfulIntrospectionResponse = StandardTokenIntrospectionResponse<
    ColorfulFields,
    ColorfulTokenType,
>;

/// The standard's error response with this server's error codes.
pub type ColorfulErrorResponse = StandardErrorResponse<ColorfulErrorResponseType>;

/// A client of this server with every endpoint except the authorization endpoint.
pub type ColorfulClient = Client<
    ColorfulErrorResponse,
    ColorfulTokenResponse,
    ColorfulIntrospectionResponse,
    ColorfulRevocableToken,
    ColorfulErrorResponse,
    EndpointNotSet,
    EndpointSet,
    EndpointSet,
    EndpointSet,
    EndpointSet,
>;

/// Makes a client without a secret.
pub fn colorful_client(
    id: ClientId,
    device_authorization: DeviceAuthorizationUrl,
    introspection: IntrospectionUrl,
    revocation: RevocationUrl,
    token: TokenUrl,
) -> ColorfulClient
    ensures { result ≡ record {
      client_id = id;
      client_secret = None;
      auth_type = BasicAuth;
      reply_rule = Prefix;
      redirect_url = None;
      auth_url = None;
      device_authorization_url = Some device_authorization;
      introspection_url = Some introspection;
      revocation_url = Some revocation;
      token_url = Some token;
    } }
{
    Client::new(id)
        .set_device_authorization_url(device_authorization)
        .set_introspection_url(introspection)
        .set_revocation_url(revocation)
        .set_token_uri(token)
}

/// Exchanges a code for a token (RFC 6749, section 4.1.3).
pub fn token_for_code<C: SyncHttpClient>(
    alloc: Global,
    client: &ColorfulClient,
    http_client: &mut C,
    code: AuthorizationCode,
) -> Result<ColorfulTokenResponse, RequestTokenError<C::Error, ColorfulErrorResponse>>
    requires { C.is_ready http_client.old }
    ensures once { (endpoint : Addressed) × (client.now.token_url ≡ Some endpoint)
        × AsksForToken C.step client.now.reply_rule
        (code_configuration (new_code_request client.now endpoint code))
        endpoint http_client.old result http_client.new }
    ensures ready { C.is_ready http_client.new }
{
    client
        .exchange_code(alloc, code)
        .request(alloc, http_client)
}

/// Requests a token with a refresh token (RFC 6749, section 6).
pub fn token_for_refresh_token<C: SyncHttpClient>(
    alloc: Global,
    client: &ColorfulClient,
    http_client: &mut C,
    refresh_token: &RefreshToken,
) -> Result<ColorfulTokenResponse, RequestTokenError<C::Error, ColorfulErrorResponse>>
    requires { C.is_ready http_client.old }
    ensures once { (endpoint : Addressed) × (client.now.token_url ≡ Some endpoint)
        × AsksForToken C.step client.now.reply_rule
        (refresh_configuration (new_refresh_request client.now endpoint refresh_token.now))
        endpoint http_client.old result http_client.new }
    ensures ready { C.is_ready http_client.new }
{
    client
        .exchange_refresh_token(alloc, refresh_token)
        .request(alloc, http_client)
}

/// Requests a token with a user's name and password (RFC 6749, section 4.3).
pub fn token_for_password<C: SyncHttpClient>(
    alloc: Global,
    client: &ColorfulClient,
    http_client: &mut C,
    username: &ResourceOwnerUsername,
    password: &ResourceOwnerPassword,
) -> Result<ColorfulTokenResponse, RequestTokenError<C::Error, ColorfulErrorResponse>>
    requires { C.is_ready http_client.old }
    ensures once { (endpoint : Addressed) × (client.now.token_url ≡ Some endpoint)
        × AsksForToken C.step client.now.reply_rule
        (password_configuration
        (new_password_request client.now endpoint username.now password.now))
        endpoint http_client.old result http_client.new }
    ensures ready { C.is_ready http_client.new }
{
    client
        .exchange_password(alloc, username, password)
        .request(alloc, http_client)
}

/// Requests a token with the client's own credentials (RFC 6749, section 4.4).
pub fn token_of_its_own<C: SyncHttpClient>(
    alloc: Global,
    client: &ColorfulClient,
    http_client: &mut C,
) -> Result<ColorfulTokenResponse, RequestTokenError<C::Error, ColorfulErrorResponse>>
    requires { C.is_ready http_client.old }
    ensures once { (endpoint : Addressed) × (client.now.token_url ≡ Some endpoint)
        × AsksForToken C.step client.now.reply_rule
        (client_credentials_configuration (new_client_credentials_request client.now endpoint))
        endpoint http_client.old result http_client.new }
    ensures ready { C.is_ready http_client.new }
{
    client
        .exchange_client_credentials(alloc)
        .request(alloc, http_client)
}

/// Introspects a token (RFC 7662, section 2).
pub fn introspection<C: SyncHttpClient>(
    alloc: Global,
    client: &ColorfulClient,
    http_client: &mut C,
    token: &AccessToken,
) -> Result<ColorfulIntrospectionResponse, RequestTokenError<C::Error, ColorfulErrorResponse>>
    requires { C.is_ready http_client.old }
    ensures once { (endpoint : Addressed) × (client.now.introspection_url ≡ Some endpoint)
        × AsksForIntrospection C.step client.now.reply_rule
        (introspection_configuration (new_introspection_request client.now endpoint token.now))
        endpoint http_client.old result http_client.new }
    ensures ready { C.is_ready http_client.new }
{
    client.introspect(alloc, token).request(alloc, http_client)
}

/// Prepares the revocation of a token with the hint `red_token` (RFC 7009, section 2.1). It is an
/// error if the revocation endpoint is not `https`.
pub fn revocation(
    alloc: Global,
    client: &ColorfulClient,
    token: ColorfulRevocableToken,
) -> Result<
    RevocationRequest<'_, ColorfulRevocableToken, ColorfulErrorResponse>,
    ConfigurationError,
>
    ensures there { IsSome client.now.revocation_url }
    ensures started { IfSome client.now.revocation_url (λ url. IsHttps url → IsOkAnd result
        (λ r. r ≡ new_revocation_request client.now url (string_bytes token.0)
        (Some (codes "red_token")))) }
    ensures insecure { IfSome client.now.revocation_url (λ url. ¬ (IsHttps url)
        → IsErrAnd result (IsInsecureUrl (codes "revocation"))) }
{
    client.revoke_token(alloc, token)
}

/// Sends a revocation.
pub fn revoke<C: SyncHttpClient>(
    alloc: Global,
    revocation: RevocationRequest<'_, ColorfulRevocableToken, ColorfulErrorResponse>,
    http_client: &mut C,
) -> Result<(), RequestTokenError<C::Error, ColorfulErrorResponse>>
    requires { C.is_ready http_client.old }
    ensures once { AsksForRevocation C.step (revocation_configuration revocation.entry)
        revocation.entry.revocation_url http_client.old result http_client.new }
    ensures ready { C.is_ready http_client.new }
{
    revocation.request(alloc, http_client)
}

/// Requests the codes for a device and its user (RFC 8628, section 3.1).
pub fn device_codes<C: SyncHttpClient>(
    alloc: Global,
    client: &ColorfulClient,
    http_client: &mut C,
) -> Result<
    DeviceAuthorizationResponse<ColorfulFields>,
    RequestTokenError<C::Error, ColorfulErrorResponse>,
>
    requires { C.is_ready http_client.old }
    ensures once { (endpoint : Addressed) × (client.now.device_authorization_url ≡ Some endpoint)
        × AsksForCodes C.step client.now.reply_rule
        (device_authorization_configuration (new_device_request client.now endpoint))
        endpoint http_client.old result http_client.new }
    ensures ready { C.is_ready http_client.new }
{
    client
        .exchange_device_code(alloc)
        .request(alloc, http_client)
}

/// Polls for the token of a device, with at most ten requests. `world` has the clock, the HTTP
/// client and the sleep function.
pub fn device_token<W: PollWorld>(
    alloc: Global,
    client: &ColorfulClient,
    codes: &DeviceAuthorizationResponse<ColorfulFields>,
    world: &mut W,
) -> Result<ColorfulTokenResponse, RequestTokenError<W::Error, DeviceCodeErrorResponse>>
    requires { W.is_ready world.old }
    ensures poll { (endpoint : Addressed) × (client.now.token_url ≡ Some endpoint)
        × (e : List (PollCall W.Error)) × Leads W.reads W.sends W.sleeps world.old e world.new
        × PollsForToken (new_device_token_request client.now endpoint codes.now) 10 e result }
    ensures ready { W.is_ready world.new }
{
    client
        .exchange_device_access_token(alloc, codes)
        .poll_with(alloc, world, None, 10)
}
