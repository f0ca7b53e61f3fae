//! The requests to a client's endpoints.

ghost use Rattle.std.specs.Prelude.{◌≡◌, ◌++◌, ◌∷◌, [], Some, None, IfOk, codes};
ghost use Rattle.oauth2_requests.specs.Base.{configuration_of};
ghost use Rattle.oauth2_requests.specs.ClientCredentials.{client_credentials_pairs};
ghost use Rattle.oauth2_requests.specs.HintedToken.{hinted_token_pairs};
ghost use Rattle.oauth2_requests.specs.Password.{password_pairs};
ghost use Rattle.oauth2_device.specs.DeviceToken.{device_token_pairs};
ghost use Rattle.oauth2.specs.NewRequest.{base_of};
ghost use Rattle.oauth2_client_refusals_tests.specs.Posts.{IsPostOf};

use crate::clients::RowClient;
use oauth2::{
    AccessToken, HttpRequest, ParamText, ResourceOwnerPassword, ResourceOwnerUsername, Scope,
    StandardDeviceAuthorizationResponse,
};
use oauth2_refusals_support::{Ended, text};
use std::alloc::Global;

/// A scope with this name.
pub fn scope(alloc: Global, name: &str) -> Result<Scope, Ended>
    ensures { IfOk result (λ scope. scope ≡ name.now) }
{
    Ok(Scope::new(text(alloc, name)?))
}

/// The request for the client's own token.
pub fn credentials(alloc: Global, client: &RowClient) -> Result<HttpRequest, Ended>
    ensures { IfOk result (IsPostOf client.now.token_url
        (configuration_of (base_of client.now) client_credentials_pairs None)) }
{
    let request = client.exchange_client_credentials(alloc);
    Ok(request.prepare_request(alloc)?)
}

/// The request for the client's own token, with a scope.
pub fn scoped_credentials(
    alloc: Global,
    client: &RowClient,
    name: &str,
) -> Result<HttpRequest, Ended>
    ensures { IfOk result (IsPostOf client.now.token_url
        (configuration_of (record (base_of client.now) { scope = Some name.now })
        client_credentials_pairs None)) }
{
    let request = client
        .exchange_client_credentials(alloc)
        .add_scope(scope(alloc, name)?)?;
    Ok(request.prepare_request(alloc)?)
}

/// The request for the client's own token, with an extra parameter.
pub fn extended_credentials(
    alloc: Global,
    client: &RowClient,
    name: &str,
    value: &str,
) -> Result<HttpRequest, Ended>
    ensures { IfOk result (IsPostOf client.now.token_url
        (configuration_of
        (record (base_of client.now) { extra_params = (name.now, value.now) ∷ [] })
        client_credentials_pairs None)) }
{
    let request = client
        .exchange_client_credentials(alloc)
        .add_extra_param(ParamText::Borrowed(name), ParamText::Borrowed(value))?;
    Ok(request.prepare_request(alloc)?)
}

/// The request for the client's own token, with an empty extra parameter, a scope, and an extra
/// parameter whose name is the text of the scope.
pub fn mixed_credentials<'a>(
    alloc: Global,
    client: &'a RowClient,
    name: &'a str,
) -> Result<HttpRequest, Ended>
    ensures { IfOk result (IsPostOf client.now.token_url
        (configuration_of (record (base_of client.now) {
          scope = Some name.now;
          extra_params = ([], []) ∷ (name.now, []) ∷ [];
        }) client_credentials_pairs None)) }
{
    let request = client
        .exchange_client_credentials(alloc)
        .add_extra_param(ParamText::Borrowed(""), ParamText::Borrowed(""))?
        .add_scope(scope(alloc, name)?)?
        .add_extra_param(ParamText::Borrowed(name), ParamText::Borrowed(""))?;
    Ok(request.prepare_request(alloc)?)
}

/// The request for a token with a user's name and password and with two scopes.
pub fn password(
    alloc: Global,
    client: &RowClient,
    username: &ResourceOwnerUsername,
    password: &ResourceOwnerPassword,
    first: Scope,
    second: Scope,
) -> Result<HttpRequest, Ended>
    ensures { IfOk result (IsPostOf client.now.token_url
        (configuration_of
        (record (base_of client.now) { scope = Some (first ++ codes " " ++ second) })
        (password_pairs username.now password.now) None)) }
{
    let request = client
        .exchange_password(alloc, username, password)
        .add_scope(first)?
        .add_scope(second)?;
    Ok(request.prepare_request(alloc)?)
}

/// The request of a device for its codes.
pub fn device_authorization(alloc: Global, client: &RowClient) -> Result<HttpRequest, Ended>
    ensures { IfOk result (IsPostOf client.now.device_authorization_url
        (configuration_of (base_of client.now) [] None)) }
{
    let request = client.exchange_device_code(alloc);
    Ok(request.prepare_request(alloc)?)
}

/// The request of a device for its codes, with a scope and an extra parameter.
pub fn extended_device_authorization(
    alloc: Global,
    client: &RowClient,
    scope_name: &str,
    param: &str,
    value: &str,
) -> Result<HttpRequest, Ended>
    ensures { IfOk result (IsPostOf client.now.device_authorization_url
        (configuration_of (record (base_of client.now) {
          scope = Some scope_name.now;
          extra_params = (param.now, value.now) ∷ [];
        }) [] None)) }
{
    let request = client
        .exchange_device_code(alloc)
        .add_scope(scope(alloc, scope_name)?)?
        .add_extra_param(ParamText::Borrowed(param), ParamText::Borrowed(value))?;
    Ok(request.prepare_request(alloc)?)
}

/// The request of a device for its token.
pub fn device_token(
    alloc: Global,
    client: &RowClient,
    device: &StandardDeviceAuthorizationResponse,
) -> Result<HttpRequest, Ended>
    ensures { IfOk result (IsPostOf client.now.token_url
        (configuration_of (base_of client.now) (device_token_pairs device.now.device_code) None)) }
{
    let request = client.exchange_device_access_token(alloc, device);
    Ok(request.prepare_request(alloc)?)
}

/// The request for the introspection of a token, with a token type hint (RFC 7662, section 2.1).
pub fn introspection(
    alloc: Global,
    client: &RowClient,
    token: &AccessToken,
    hint: &str,
) -> Result<HttpRequest, Ended>
    ensures { IfOk result (IsPostOf client.now.introspection_url
        (configuration_of (base_of client.now)
        (hinted_token_pairs token.now (Some hint.now)) None)) }
{
    let request = client
        .introspect(alloc, token)
        .set_token_type_hint(ParamText::Borrowed(hint));
    Ok(request.prepare_request(alloc)?)
}
