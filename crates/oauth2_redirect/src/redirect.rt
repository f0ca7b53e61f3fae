//! The redirect back from the authorization endpoint (RFC 6749, sections 4.1.2 and 4.1.2.1).

ghost use Rattle.std.specs.Prelude.{
  ◌≡◌,
  Err,
  None,
  IfOk,
  IfSome,
  IsOk,
  IsSome,
  IsTrue,
  OnErr,
  is_none,
  option_map,
  codes,
};
ghost use Rattle.oauth2_codes.specs.AuthorizationCodes.{authorization_error_code};
ghost use Rattle.oauth2_codes.specs.ErrorResponse.{parts_of};
ghost use Rattle.oauth2_form.specs.Pairs.{form};
ghost use Rattle.oauth2_form.specs.Query.{query_form};
ghost use Rattle.oauth2_redirect.specs.Query.{first_text, is_visible, sole_text, texts};
ghost use Rattle.oauth2_redirect.specs.Redirect.{
  IsVisibleIssuer,
  MayWantMemory,
  Tells,
  answer,
  error_told,
  is_issuer,
  is_state,
  issuer_expectation,
  required,
};

use crate::comparing::{has_digest, is_value};
use crate::issuer::ExpectedIssuer;
use crate::query::{first_encoded, first_value, sole_encoded, sole_value};
use oauth2_codes::{AuthorizationErrorResponseType, StandardErrorResponse};
use oauth2_types::display::write_display;
use oauth2_types::{AuthorizationCode, CsrfToken};
use std::alloc::{AllocError, Global};
use std::fmt;
use url::Url;

/// The error response of the authorization endpoint.
pub type AuthorizationErrorResponse = StandardErrorResponse<AuthorizationErrorResponseType>;

/// Why no code was read from a redirect.
#[derive(Debug, PartialEq, Eq, Drop)]
pub enum RedirectError {
    /// The redirect's `state` is not the login's, or is absent or repeated. Nothing else is read.
    OtherState,
    /// The redirect's `iss` is not the expected issuer, or is repeated, or is absent although it is
    /// required (RFC 9207, section 2.4).
    OtherIssuer,
    /// The authorization endpoint sent an error response instead of a code.
    Refused(AuthorizationErrorResponse),
    /// There is no code, or more than one.
    NoCode,
    /// Memory ran out.
    Memory,
}

impl fmt::Display for RedirectError {
    ghost use Rattle.oauth2_redirect.specs.Redirect.{redirect_error_text};

    ghost output = { redirect_error_text };

    ghost styled_output = { λ error _. redirect_error_text error };

    fn fmt<W: fmt::Write>(&self, f: &mut fmt::Formatter<W>) -> fmt::Result {
        match self {
            RedirectError::OtherState => f.write_str("redirect has another state"),
            RedirectError::OtherIssuer => f.write_str("redirect has another issuer"),
            RedirectError::Refused(error) => write_display(f, error),
            RedirectError::NoCode => f.write_str("redirect has no code"),
            RedirectError::Memory => f.write_str("Out of memory"),
        }
    }
}

impl std::error::Error for RedirectError {}

impl From<AllocError> for RedirectError {
    ghost use Rattle.std.specs.Prelude.{◌≡◌};
    ghost use Rattle.oauth2_redirect.specs.declared.redirect.RedirectError.TheVariants.{Memory};

    ghost from_gives = { λ _ e. e ≡ Memory };

    fn from(_: AllocError) -> RedirectError {
        RedirectError::Memory
    }
}

// Whether the query's `state` is this state, compared by their digests.
fn has_state(alloc: Global, query: &str, state: &CsrfToken) -> Result<bool, AllocError>
    ensures has { IfOk result (λ has. has
        ≡ is_state state.now (sole_text (codes "state") (form query.now))) }
    ensures visible { IfSome (sole_text (codes "state") (form query.now))
        (λ told. IsTrue (is_visible told)) → IsOk result }
{
    match sole_encoded(query, "state") {
        Some(told) => has_digest(alloc, told, state.secret().as_str()),
        None => Ok(false),
    }
}

// Whether the query may come from the expected issuer.
fn has_issuer(alloc: Global, query: &str, issuer: ExpectedIssuer<'_>) -> Result<bool, AllocError>
    ensures has { IfOk result (λ has. has
        ≡ is_issuer (issuer_expectation issuer.entry) (texts (codes "iss") (form query.now))) }
    ensures visible { IsVisibleIssuer (issuer_expectation issuer.entry) → IsOk result }
{
    match issuer {
        ExpectedIssuer::Required(issuer) => tells_issuer(alloc, query, issuer),
        ExpectedIssuer::Compared(issuer) => {
            if tells_no_issuer(query) {
                return Ok(true);
            }
            tells_issuer(alloc, query, issuer)
        }
        ExpectedIssuer::Unknown => Ok(true),
    }
}

// Whether the query has exactly one `iss`, and it is this issuer.
fn tells_issuer(alloc: Global, query: &str, issuer: &str) -> Result<bool, AllocError>
    ensures tells { IfOk result (λ tells. tells
        ≡ is_issuer (required issuer.now) (texts (codes "iss") (form query.now))) }
    ensures visible { IsTrue (is_visible issuer.now) → IsOk result }
{
    match sole_encoded(query, "iss") {
        Some(told) => is_value(alloc, told, issuer),
        None => Ok(false),
    }
}

// Whether the query has no `iss`.
fn tells_no_issuer(query: &str) -> bool
    ensures { result ≡ is_none (first_text (codes "iss") (form query.now)) }
{
    first_encoded(query, "iss").is_none()
}

// The error response of the query, if it has an `error`.
fn error_of(alloc: Global, query: &str) -> Result<Option<AuthorizationErrorResponse>, AllocError>
    ensures told { IfOk result (λ error. option_map (parts_of authorization_error_code) error
        ≡ error_told (first_text (codes "error") (form query.now)) (form query.now)) }
    ensures memory { OnErr result (IsSome (first_text (codes "error") (form query.now))) }
{
    let Some(error) = first_value(alloc, query, "error")? else {
        return Ok(None);
    };
    Ok(Some(StandardErrorResponse::new(
        AuthorizationErrorResponseType::from_text(error),
        sole_value(alloc, query, "error_description")?,
        sole_value(alloc, query, "error_uri")?,
    )))
}

/// The `code` of a redirect, if its `state` is the login's and it may come from the expected issuer
/// (RFC 9207, section 2.4).
///
/// A parameter without a value is treated as omitted, and one that is sent twice is not used (RFC
/// 6749, section 3.1), except that the first `error` counts. If the state is another one, nothing
/// else is read. The fragment is never read.
pub fn read_redirect(
    alloc: Global,
    redirect: &Url,
    state: &CsrfToken,
    issuer: ExpectedIssuer<'_>,
) -> Result<AuthorizationCode, RedirectError>
    ensures tells { Tells result
        (answer state.now (issuer_expectation issuer.entry) (query_form redirect.now)) }

    ensures memory { result ≡ Err RedirectError.Memory
        → MayWantMemory state.now (issuer_expectation issuer.entry) (query_form redirect.now) }

    // A redirect without a state, or with several, is refused without an allocation.
    ensures no_state { sole_text (codes "state") (query_form redirect.now) ≡ None
        → result ≡ Err RedirectError.OtherState }
{
    read_redirect_query(alloc, redirect.query().unwrap_or(""), state, issuer)
}

/// As `read_redirect`, for a handler that has no `Url`. `query` is the redirect's query without the
/// `?`, or the form in the body of the request (`response_mode=form_post`).
pub fn read_redirect_query(
    alloc: Global,
    query: &str,
    state: &CsrfToken,
    issuer: ExpectedIssuer<'_>,
) -> Result<AuthorizationCode, RedirectError>
    ensures tells { Tells result
        (answer state.now (issuer_expectation issuer.entry) (form query.now)) }

    ensures memory { result ≡ Err RedirectError.Memory
        → MayWantMemory state.now (issuer_expectation issuer.entry) (form query.now) }

    // A redirect without a state, or with several, is refused without an allocation.
    ensures no_state { sole_text (codes "state") (form query.now) ≡ None
        → result ≡ Err RedirectError.OtherState }
{
    if !has_state(alloc, query, state)? {
        return Err(RedirectError::OtherState);
    }
    if !has_issuer(alloc, query, issuer)? {
        return Err(RedirectError::OtherIssuer);
    }
    if let Some(error) = error_of(alloc, query)? {
        return Err(RedirectError::Refused(error));
    }
    match sole_value(alloc, query, "code")? {
        Some(code) => Ok(AuthorizationCode::new(code)),
        None => Err(RedirectError::NoCode),
    }
}
