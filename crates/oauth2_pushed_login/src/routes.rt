//! By which route a user logs in: by an authorization URL, or by a push before it.

ghost use Rattle.std.specs.Prelude.{◌≡◌, true, None, Some, IfOk, MatchResult, option_copied};
ghost use Rattle.oauth2_pushed_login.specs.PushMembers.{requires_push};
ghost use Rattle.oauth2_pushed_login.specs.Route.{
  IsByPush,
  IsRouteOf,
  client_of,
  push_cause,
  push_refusal,
  push_target,
  pushes,
};

use crate::push_metadata::PushMetadata;
use crate::pushing_login_client::PushingLoginClient;
use crate::route_error::LoginRouteError;
use oauth2::{Client, EndpointState};
use oauth2_metadata::{DiscoveredLoginClient, EndpointCause, ServerMetadata, is_secure};
use std::alloc::Global;
use url::Url;

/// When a login pushes its parameters. A server that requires it leaves no choice.
#[derive(Clone, Copy, Debug, PartialEq, Eq)]
pub enum PushPreference {
    /// If the server has an endpoint for it.
    WherePossible,
    /// Only if the server requires it.
    WhereRequired,
}

/// By which route a user logs in, with the client for it.
#[derive(Drop)]
pub enum LoginRoute<TE, TR, TIR, RT, TRE> {
    /// The user is sent to the authorization URL of the login itself.
    ByUrl(DiscoveredLoginClient<TE, TR, TIR, RT, TRE>),
    /// The parameters of that URL are pushed, and the user is sent to a short URL.
    ByPush(PushingLoginClient<TE, TR, TIR, RT, TRE>),
}

impl<TE, TR, TIR, RT, TRE> LoginRoute<TE, TR, TIR, RT, TRE> {
    /// The client, by which a login is started and finished.
    pub fn client(&self) -> &DiscoveredLoginClient<TE, TR, TIR, RT, TRE>
        ensures { result.now ≡ client_of self.now }
    {
        match self {
            LoginRoute::ByUrl(client) => client,
            LoginRoute::ByPush(pushing) => pushing.client(),
        }
    }
}

/// The route to a login by these metadata, for this client. There is no route by a URL if the
/// server requires a push. On an error the client is dropped.
pub fn login_route<TE, TR, TIR, RT, TRE, A, D, I, R, T>(
    alloc: Global,
    metadata: &ServerMetadata<PushMetadata>,
    client: Client<TE, TR, TIR, RT, TRE, A, D, I, R, T>,
    preference: PushPreference,
) -> Result<LoginRoute<TE, TR, TIR, RT, TRE>, LoginRouteError>
where
    A: EndpointState,
    D: EndpointState,
    I: EndpointState,
    R: EndpointState,
    T: EndpointState,
    ensures route { IsRouteOf preference metadata.now client result }
    // The same in one sentence: where a push is required, no login goes without one.
    ensures required { requires_push metadata.now.extra_fields ≡ true → IfOk result IsByPush }
{
    let target = push_target(metadata.extra_fields(), preference)?;
    let client = metadata.login_client_of(alloc, client)?;
    match target {
        Some(endpoint) => Ok(LoginRoute::ByPush(PushingLoginClient::new(
            client,
            endpoint.clone()?,
        ))),
        None => Ok(LoginRoute::ByUrl(client)),
    }
}

// The URL to push to, if the login is to push.
fn push_target(
    metadata: &PushMetadata,
    preference: PushPreference,
) -> Result<Option<&Url>, LoginRouteError>
    ensures { MatchResult result
        (λ target. (push_refusal metadata.now ≡ None)
        × (option_copied target ≡ push_target preference metadata.now))
        (λ error. push_refusal metadata.now ≡ Some error) }
{
    let required = metadata.require_pushed_authorization_requests();
    match metadata.pushed_authorization_request_endpoint() {
        Some(endpoint) => match push_cause(endpoint) {
            Some(cause) => Err(LoginRouteError::PushEndpoint(cause)),
            None if pushes(preference, required) => Ok(Some(endpoint)),
            None => Ok(None),
        },
        None if required => Err(LoginRouteError::NoPushEndpoint),
        None => Ok(None),
    }
}

// Whether a login pushes if there is an endpoint.
fn pushes(preference: PushPreference, required: bool) -> bool
    ensures { result ≡ pushes preference required }
{
    match preference {
        PushPreference::WherePossible => true,
        PushPreference::WhereRequired => required,
    }
}

// Why a client may not push to this URL.
fn push_cause(url: &Url) -> Option<EndpointCause>
    ensures { result ≡ push_cause url.now }
{
    if !is_secure(url) {
        Some(EndpointCause::NotHttps)
    } else if url.fragment().is_some() {
        Some(EndpointCause::HasFragment)
    } else {
        None
    }
}
