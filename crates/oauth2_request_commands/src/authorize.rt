//! The command `authorize`: the URL that the user is sent to.

ghost use Rattle.std.specs.Prelude.{◌≡◌, ◌++◌, ◌∷◌, [], Some, codes};
ghost use Rattle.std.specs.Prelude.{option_copied, unwrap_or};
ghost use Rattle.std.specs.Prelude.{IfSome, IfNone, IsOkAnd, IsErrAnd, IfOk, refl};
ghost use Rattle.url.specs.Parts.{serialize};
ghost use Rattle.oauth2_urls.specs.Addressed.{Addressed};
ghost use Rattle.oauth2_form.specs.Query.{ExtendsQuery};
ghost use Rattle.oauth2_requests.specs.Authorization.{query_pairs};
ghost use Rattle.oauth2_wire.specs.ConfigurationError.{IsMissingUrl};
ghost use Rattle.oauth2_wire.specs.Expected.{optional_pair};
ghost use Rattle.oauth2_request_commands.specs.Authorize as spec;
ghost use Rattle.oauth2.specs.NewRequest.{new_authorization};
ghost use Rattle.oauth2.specs.Settings.{Settings};
ghost use Rattle.oauth2_request_commands.specs.Client.{given_or};
ghost use Rattle.oauth2_request_commands.specs.Out.{Adds, AddsOutput, after, success_output};
ghost use Rattle.oauth2_script.specs.Views.{authorize_view};
ghost use Rattle.oauth2_world.specs.Events.{sent_to};
ghost use Rattle.oauth2_world.specs.Quotation.{quotation};

use crate::answer::{add_answer, show_configuration_error};
use crate::client::ScriptClient;
use crate::extra::{Extensible, with_extra};
use crate::status::RunStatus;
use oauth2::{
    AuthorizationRequest, ConfigurationError, CsrfToken, ParamText, PkceCodeChallenge, RedirectRef,
    RedirectUrl, ResponseType, TryClone,
};
use oauth2_script::AuthorizeParams;
use oauth2_world::{Event, Events, quoted};
use std::alloc::{AllocError, Global};
use url::Url;

impl<'a> Extensible<'a> for AuthorizationRequest<'a> {
    ghost with_params = { λ r f. record r { extra_params = f r.extra_params } };

    ghost laws = { λ r f g. (refl, refl) };

    fn with_pair(self, name: &'a str, value: &'a str) -> Result<Self, AllocError> {
        self.add_extra_param(ParamText::Borrowed(name), ParamText::Borrowed(value))
    }
}

fn start<'a>(
    alloc: Global,
    client: &'a ScriptClient,
    state: CsrfToken,
) -> Result<AuthorizationRequest<'a>, ConfigurationError>
    ensures there { IfSome client.now.auth_url (λ url.
        IsOkAnd result (λ r. r ≡ new_authorization client.now url state)) }
    ensures missing { IfNone client.now.auth_url
        (IsErrAnd result (IsMissingUrl (codes "authorization"))) }
{
    client.authorize_url(alloc, move || state)
}

fn with_challenge<'a>(
    request: AuthorizationRequest<'a>,
    challenge: Option<PkceCodeChallenge>,
) -> AuthorizationRequest<'a>
    ensures { result ≡ record request.entry {
      pkce_challenge = given_or challenge request.entry.pkce_challenge;
    } }
{
    match challenge {
        Some(challenge) => request.set_pkce_challenge(challenge),
        None => request,
    }
}

fn with_redirect<'a>(
    request: AuthorizationRequest<'a>,
    redirect: Option<RedirectUrl>,
) -> AuthorizationRequest<'a>
    ensures { result ≡ record request.entry {
      redirect_url = given_or redirect request.entry.redirect_url;
    } }
{
    match redirect {
        Some(redirect) => request.set_redirect_uri(RedirectRef::Owned(redirect)),
        None => request,
    }
}

fn with_response_type<'a>(
    alloc: Global,
    request: AuthorizationRequest<'a>,
    response_type: Option<ResponseType>,
) -> Result<AuthorizationRequest<'a>, AllocError>
    ensures { IfOk result (λ r. r ≡ record request.entry {
      response_type = unwrap_or response_type request.entry.response_type;
    }) }
{
    match response_type {
        Some(response_type) => request.set_response_type(alloc, &response_type),
        None => Ok(request),
    }
}

fn with_nonce<'a>(
    request: AuthorizationRequest<'a>,
    nonce: Option<&'a str>,
) -> Result<AuthorizationRequest<'a>, AllocError>
    ensures { IfOk result (λ r. r ≡ record request.entry {
      extra_params = request.entry.extra_params
          ++ optional_pair (codes "nonce") (option_copied nonce.entry);
    }) }
{
    match nonce {
        Some(nonce) => request.add_extra_param(
            ParamText::Borrowed("nonce"),
            ParamText::Borrowed(nonce),
        ),
        None => Ok(request),
    }
}

/// The authorization URL for these parameters, and its state. The request has the client, the
/// endpoint and this state, and nothing else yet.
pub fn authorization_url(
    alloc: Global,
    request: AuthorizationRequest<'_>,
    params: AuthorizeParams,
) -> Result<(Url, CsrfToken), AllocError>
    ensures { let p = authorize_view params in
        IfOk result (λ made. (client : Settings) (url : Addressed)
        → request.entry ≡ new_authorization client url p.state
        → ExtendsQuery url.url made.0 (query_pairs (spec.authorization client p url))
        × (made.1 ≡ p.state)) }
{
    let challenged = with_challenge(request, params.challenge);
    let redirected = with_redirect(challenged, params.redirect);
    let typed = with_response_type(alloc, redirected, params.response_type)?;
    let scoped = typed.add_scopes(params.scopes)?;
    let bound = with_nonce(scoped, params.nonce.as_deref())?;
    let asked = with_extra(bound, params.extra_params.as_slice())?;
    match asked.url(alloc) {
        Ok(made) => Ok(made),
        Err(_) => Err(AllocError),
    }
}

// Adds the event of the URL, and the answer, which is the state.
fn show_url(
    alloc: Global,
    events: &mut Events,
    url: &Url,
    state: &CsrfToken,
) -> Result<RunStatus, AllocError>
    ensures { IfOk result (λ status. AddsOutput events.old events.new status
        (after (sent_to (serialize url.now) ∷ []) (success_output (quotation state.now)))) }
{
    let url = String::from_str(alloc, url.as_str())?;
    events.push(Event::Url(url))?;
    let json = quoted(alloc, state.secret().as_str())?;
    let status = add_answer(events, json)?;
    Ok(status)
}

/// Shows the URL that the user is sent to, and the state (RFC 6749, section 4.1.1).
pub fn run_authorize(
    alloc: Global,
    client: &ScriptClient,
    params: AuthorizeParams,
    events: &mut Events,
) -> Result<RunStatus, AllocError>
    ensures { IfOk result (λ status. Adds events.old events.new status
        (spec.IsAuthorizeOutput client.now (authorize_view params))) }
{
    let state = params.state.try_clone(alloc)?;
    match start(alloc, client, state) {
        Ok(request) => {
            let made = authorization_url(alloc, request, params)?;
            show_url(alloc, events, &made.0, &made.1)
        }
        Err(error) => show_configuration_error(alloc, events, &error),
    }
}
