//! The authorization URLs of a client.

ghost use Rattle.std.specs.Prelude.{◌≡◌, ◌∷◌, [], Some, IfOk};
ghost use Rattle.oauth2.specs.NewRequest.{new_authorization};
ghost use Rattle.oauth2_client_refusals_tests.specs.Urls.{LeadsTo};

use crate::clients::RowClient;
use oauth2::url::Url;
use oauth2::{
    AuthorizationRequest, CsrfToken, ParamText, RedirectRef, RedirectUrl, ResponseType, Scope,
};
use oauth2_refusals_support::{Ended, text};
use std::alloc::Global;

/// A redirect URI made from a text that proofs do not see, so that no proof parses it.
pub fn redirect_url(alloc: Global, url: &str) -> Result<RedirectUrl, Ended> {
    Ok(RedirectUrl::new(alloc, text(alloc, url)?)?)
}

// A request with this state, and with nothing else set.
fn new_request(alloc: Global, client: &RowClient, state: CsrfToken) -> AuthorizationRequest<'_>
    ensures url { client.now.auth_url ≡ Some result.auth_url }
    ensures new { result ≡ new_authorization client.now result.auth_url state }
{
    client.authorize_url(alloc, move || state)
}

/// The URL of a request with nothing set.
pub fn authorization_url(
    alloc: Global,
    client: &RowClient,
    state: CsrfToken,
) -> Result<(Url, CsrfToken), Ended>
    ensures { IfOk result (LeadsTo client.now (λ url. new_authorization client.now url state)) }
{
    let request = new_request(alloc, client, state);
    Ok(request.url(alloc)?)
}

/// The URL of a request with a scope.
pub fn scoped_url(
    alloc: Global,
    client: &RowClient,
    state: CsrfToken,
    scope: Scope,
) -> Result<(Url, CsrfToken), Ended>
    ensures { IfOk result (LeadsTo client.now (λ url.
        record (new_authorization client.now url state) { scopes = scope ∷ [] })) }
{
    let request = new_request(alloc, client, state).add_scope(scope)?;
    Ok(request.url(alloc)?)
}

/// The URL of a request with another redirect.
pub fn redirected_url(
    alloc: Global,
    client: &RowClient,
    state: CsrfToken,
    redirect: RedirectUrl,
) -> Result<(Url, CsrfToken), Ended>
    ensures { IfOk result (LeadsTo client.now (λ url.
        record (new_authorization client.now url state) { redirect_url = Some redirect })) }
{
    let request = new_request(alloc, client, state).set_redirect_uri(RedirectRef::Owned(redirect));
    Ok(request.url(alloc)?)
}

/// The URL of a request with another response type and an extra parameter.
pub fn typed_url(
    alloc: Global,
    client: &RowClient,
    state: CsrfToken,
    response_type: &ResponseType,
    name: &str,
    value: &str,
) -> Result<(Url, CsrfToken), Ended>
    ensures { IfOk result (LeadsTo client.now (λ url.
        record (new_authorization client.now url state) {
          response_type = response_type.now;
          extra_params = (name.now, value.now) ∷ [];
        })) }
{
    let request = new_request(alloc, client, state)
        .set_response_type(alloc, response_type)?
        .add_extra_param(ParamText::Borrowed(name), ParamText::Borrowed(value))?;
    Ok(request.url(alloc)?)
}
