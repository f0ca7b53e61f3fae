//! The command `redirect`: reads the code from the URL that the user was sent back to, if that and
//! the client are the login's.

ghost use Rattle.std.specs.Prelude.{◌≡◌, ℕ, List, Result, IfOk};
ghost use Rattle.oauth2_request_commands.specs.Out.{success_output, Adds, AddsOutput};
ghost use Rattle.oauth2_commands.specs.Redirect as spec;
ghost use Rattle.oauth2_commands.specs.private.Redirects.{details_in};
ghost use Rattle.oauth2_redirect.specs.Redirect.{
  RedirectErrorView,
  Tells,
  ShowsRedirectError,
  issuer_expectation,
};
ghost use Rattle.oauth2_script.specs.Views.{expected_issuer_view, redirect_view};
ghost use Rattle.oauth2_world.specs.Events.{details_of};
ghost use Rattle.oauth2_world.specs.Quotation.{quotation};

use oauth2::AuthorizationCode;
use oauth2_redirect::{ExpectedIssuer, LoginBinding, LoginMismatch, RedirectError, read_redirect};
use oauth2_request_commands::{
    RunStatus, ScriptClient, ShownError, add_answer, add_fault, show_error_text,
};
use oauth2_script::{ExpectedIssuerParam, RedirectParams};
use oauth2_world::{Events, Fault, FaultDetails, FaultKind, quoted};
use std::alloc::{AllocError, Global};

fn read(alloc: Global, params: &RedirectParams) -> Result<AuthorizationCode, RedirectError>
    ensures { Tells result (spec.redirect_answer (redirect_view params.now)) }
{
    let issuer = expected_issuer(&params.issuer);
    read_redirect(alloc, params.redirect.url(), &params.state, issuer)
}

// The issuer that a script expects, as the library takes it.
fn expected_issuer(issuer: &ExpectedIssuerParam) -> ExpectedIssuer<'_>
    ensures { issuer_expectation result ≡ spec.rule_of (expected_issuer_view issuer.now) }
{
    match issuer {
        ExpectedIssuerParam::Required(issuer) => ExpectedIssuer::Required(issuer.as_str()),
        ExpectedIssuerParam::Compared(issuer) => ExpectedIssuer::Compared(issuer.as_str()),
        ExpectedIssuerParam::Unknown => ExpectedIssuer::Unknown,
    }
}

fn show_code(
    alloc: Global,
    events: &mut Events,
    code: &AuthorizationCode,
) -> Result<RunStatus, AllocError>
    ensures { IfOk result (λ status. AddsOutput events.old events.new
        status (success_output (quotation code.now))) }
{
    let json = quoted(alloc, code.secret().as_str())?;
    let status = add_answer(events, json)?;
    Ok(status)
}

// What is known of an error beside its text: the members of an error of the server.
fn details_in(alloc: Global, error: &RedirectError) -> Result<FaultDetails, AllocError>
    ensures { IfOk result (λ details. details_of details ≡ details_in error.now) }
{
    match error {
        RedirectError::Refused(error) => Ok(FaultDetails::Refused(error.shown_members(alloc)?)),
        RedirectError::OtherState => Ok(FaultDetails::None),
        RedirectError::OtherIssuer => Ok(FaultDetails::None),
        RedirectError::NoCode => Ok(FaultDetails::None),
        RedirectError::Memory => Ok(FaultDetails::None),
    }
}

// Adds the event why there is no code.
fn show_refusal(
    alloc: Global,
    events: &mut Events,
    error: &RedirectError,
) -> Result<RunStatus, AllocError>
    ensures { IfOk result (λ status. (told : Result (List ℕ) RedirectErrorView)
        → ShowsRedirectError error.now told
        → AddsOutput events.old events.new status
        (spec.shown_answer told)) }
{
    if let RedirectError::Memory = error {
        return Err(AllocError);
    }
    let fault = Fault {
        kind: FaultKind::RefusedRedirect,
        text: error.to_string(alloc)?,
        details: details_in(alloc, error)?,
    };
    let status = add_fault(events, fault)?;
    Ok(status)
}

// What of the client and of the called URL is not that of the login that was kept.
fn mismatch(client: &ScriptClient, params: &RedirectParams) -> Option<LoginMismatch>
    ensures { let p = redirect_view params.now in
        result ≡ spec.kept_mismatch client.now p.login p.redirect.url }
{
    let login = params.login.as_ref()?;
    let binding = LoginBinding {
        client_id: &login.client_id,
        token_url: login.token_url.url().as_str(),
        redirect_uri: login.redirect_uri.url(),
    };
    binding.mismatch(
        client.client_id(),
        client.token_uri(),
        params.redirect.url(),
    )
}

// Adds the event that the login is of another client, server or place.
fn show_mismatch(
    alloc: Global,
    events: &mut Events,
    error: LoginMismatch,
) -> Result<RunStatus, AllocError>
    ensures { IfOk result (λ status. AddsOutput events.old events.new status
        (spec.mismatch_output error)) }
{
    let kind = match error {
        LoginMismatch::OtherClient => FaultKind::OtherClient,
        LoginMismatch::OtherTokenEndpoint => FaultKind::OtherTokenEndpoint,
        LoginMismatch::OtherRedirectUri => FaultKind::OtherRedirectUri,
    };
    let status = show_error_text(alloc, events, kind, &error)?;
    Ok(status)
}

/// Shows the code of a redirect, or why it has none (RFC 6749, section 4.1.2), or what is not that
/// of the login that was kept (RFC 9700, sections 2.1 and 4.4.2).
pub fn run_redirect(
    alloc: Global,
    client: &ScriptClient,
    params: RedirectParams,
    events: &mut Events,
) -> Result<RunStatus, AllocError>
    ensures { IfOk result (λ status. Adds events.old events.new status
        (spec.IsRedirectOutput client.now (redirect_view params))) }
{
    if let Some(error) = mismatch(client, &params) {
        return show_mismatch(alloc, events, error);
    }
    match read(alloc, &params) {
        Ok(code) => show_code(alloc, events, &code),
        Err(error) => show_refusal(alloc, events, &error),
    }
}
