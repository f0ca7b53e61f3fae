//! A login by an authorization code with PKCE (RFC 6749, section 4.1; RFC 7636).

ghost use Rattle.std.specs.Prelude.{◌≡◌, Some, Err, IfOk, IfErr, IsTrue};
ghost use Rattle.http_uri.specs.Uri.{SpellsNone};
ghost use Rattle.url.specs.Parts.{serialize};
ghost use Rattle.oauth2_types.specs.Pkce.{HasValidLength};
ghost use Rattle.oauth2_urls.specs.Addressed.{Addressed};
ghost use Rattle.oauth2_wire.specs.ByName.{avoid_own_names};
ghost use Rattle.oauth2_form.specs.Pairs.{form};
ghost use Rattle.oauth2_wire.specs.Request.{IsRequestOf, view_of};
ghost use Rattle.oauth2_requests.specs.Authorization.{query_pairs};
ghost use Rattle.oauth2_requests.specs.Code.{code_configuration};
ghost use Rattle.oauth2_form.specs.Query.{ExtendsQuery, query_form};
ghost use Rattle.oauth2.specs.CodeFlow.{IsCauseOf, PassesCheck};
ghost use Rattle.oauth2.specs.CodeFlow.{flow_authorization, flow_exchange};

use crate::client::Client;
use crate::endpoint::{EndpointSet, EndpointState};
use oauth2_types::{AuthorizationCode, CsrfToken, PkceCodeChallenge, PkceCodeVerifier};
use oauth2_wire::{HttpRequest, RequestFault};
use std::alloc::{AllocError, Global};
use std::fmt;
use url::{ParseError, Url};

/// A login: its URL and its token request.
///
/// It has no `Debug`, because the URL and the request contain secrets in plain text.
#[derive(Drop)]
pub struct CodeFlow {
    /// The URL to send the user to.
    pub url: Url,
    /// The state that the redirect must have.
    pub state: CsrfToken,
    /// The request to send to the token endpoint after the redirect.
    pub request: HttpRequest,
}

/// Why a login could not be prepared.
#[derive(Clone, Copy, Debug, PartialEq, Eq)]
pub enum CodeFlowError {
    /// The authorization URL would be too long: the error is `Overflow`.
    Url(ParseError),
    /// The token endpoint's URL is not an HTTP target.
    NotHttp,
    /// Memory ran out.
    Memory,
}

impl fmt::Display for CodeFlowError {
    ghost use Rattle.oauth2.specs.CodeFlow.{flow_error_text};

    ghost output = { flow_error_text };

    ghost styled_output = { λ error _. flow_error_text error };

    fn fmt<W: fmt::Write>(&self, f: &mut fmt::Formatter<W>) -> fmt::Result {
        match self {
            CodeFlowError::Url(_) => f.write_str("authorization URL is too long"),
            CodeFlowError::NotHttp => f.write_str("endpoint URL is not an HTTP target"),
            CodeFlowError::Memory => f.write_str("Out of memory"),
        }
    }
}

impl std::error::Error for CodeFlowError {}

impl From<AllocError> for CodeFlowError {
    ghost use Rattle.std.specs.Prelude.{◌≡◌};
    ghost use Rattle.oauth2.specs.declared.flow.CodeFlowError.TheVariants.{Memory};

    ghost from_gives = { λ _ e. e ≡ Memory };

    fn from(_: AllocError) -> CodeFlowError {
        CodeFlowError::Memory
    }
}

impl From<ParseError> for CodeFlowError {
    ghost use Rattle.std.specs.Prelude.{◌≡◌};
    ghost use Rattle.oauth2.specs.CodeFlow.{flow_error_of_url};

    ghost from_gives = { λ error e. e ≡ flow_error_of_url error };

    fn from(error: ParseError) -> CodeFlowError {
        match error {
            ParseError::OutOfMemory => CodeFlowError::Memory,
            _ => CodeFlowError::Url(error),
        }
    }
}

impl From<RequestFault> for CodeFlowError {
    ghost use Rattle.std.specs.Prelude.{◌≡◌};
    ghost use Rattle.oauth2.specs.CodeFlow.{flow_error_of};

    ghost from_gives = { λ fault e. e ≡ flow_error_of fault };

    fn from(fault: RequestFault) -> CodeFlowError {
        match fault {
            RequestFault::NotHttp => CodeFlowError::NotHttp,
            RequestFault::Memory => CodeFlowError::Memory,
        }
    }
}

/// Prepares the URL and the token request of one login. The challenge is that of the verifier by
/// the method `S256`.
///
/// Use it if the code is already known when the URL is made, as in a test. An application sends its
/// user to the URL first: it keeps the state and the verifier, and makes the request when the user
/// comes back with the code.
pub fn code_flow<TE, TR, TIR, RT, TRE, D, I, R>(
    alloc: Global,
    client: &Client<TE, TR, TIR, RT, TRE, EndpointSet, D, I, R, EndpointSet>,
    state: CsrfToken,
    verifier: PkceCodeVerifier,
    code: AuthorizationCode,
) -> Result<CodeFlow, CodeFlowError>
where
    D: EndpointState,
    I: EndpointState,
    R: EndpointState,
    requires { HasValidLength verifier }
    ensures state { IfOk result (λ flow. flow.state ≡ state) }
    ensures url { IfOk result (λ flow. (endpoint : Addressed)
        × (client.now.auth_url ≡ Some endpoint)
        × ExtendsQuery endpoint.url flow.url
        (query_pairs (flow_authorization client.now endpoint state verifier))) }
    ensures request { IfOk result (λ flow. (endpoint : Addressed)
        × (client.now.token_url ≡ Some endpoint)
        × IsRequestOf (code_configuration (flow_exchange client.now endpoint verifier code))
        (serialize endpoint.url) (view_of flow.request)) }

    // What a server reads from the bytes that are sent.
    ensures check { IfOk result (λ flow. (endpoint : Addressed)
        × (client.now.auth_url ≡ Some endpoint)
        × (IsTrue (avoid_own_names (query_form endpoint.url))
        → PassesCheck verifier (query_form flow.url) (form (view_of flow.request).body))) }
    ensures refusal { IfErr result (IsCauseOf client.now state verifier) }
{
    let (url, state) = login_url(alloc, client, state, &verifier)?;
    let request = exchange(alloc, client, verifier, code)?;
    Ok(CodeFlow {
        url,
        state,
        request,
    })
}

// The authorization URL of a login, and its state.
fn login_url<TE, TR, TIR, RT, TRE, D, I, R, T>(
    alloc: Global,
    client: &Client<TE, TR, TIR, RT, TRE, EndpointSet, D, I, R, T>,
    state: CsrfToken,
    verifier: &PkceCodeVerifier,
) -> Result<(Url, CsrfToken), CodeFlowError>
where
    D: EndpointState,
    I: EndpointState,
    R: EndpointState,
    T: EndpointState,
    requires { HasValidLength verifier.now }
    ensures state { IfOk result (λ r. r.1 ≡ state) }
    ensures url { IfOk result (λ r. (endpoint : Addressed)
        × (client.now.auth_url ≡ Some endpoint)
        × ExtendsQuery endpoint.url r.0
        (query_pairs (flow_authorization client.now endpoint state verifier.now))) }
    ensures refusal { IfErr result (IsCauseOf client.now state verifier.now) }
{
    let challenge = PkceCodeChallenge::from_code_verifier_sha256(alloc, verifier)?;
    let login = client
        .authorize_url(alloc, move || state)
        .set_pkce_challenge(challenge)
        .url(alloc)?;
    Ok(login)
}

// The token request of a login.
fn exchange<TE, TR, TIR, RT, TRE, A, D, I, R>(
    alloc: Global,
    client: &Client<TE, TR, TIR, RT, TRE, A, D, I, R, EndpointSet>,
    verifier: PkceCodeVerifier,
    code: AuthorizationCode,
) -> Result<HttpRequest, RequestFault>
where
    A: EndpointState,
    D: EndpointState,
    I: EndpointState,
    R: EndpointState,
    ensures request { IfOk result (λ request. (endpoint : Addressed)
        × (client.now.token_url ≡ Some endpoint)
        × IsRequestOf (code_configuration (flow_exchange client.now endpoint verifier code))
        (serialize endpoint.url) (view_of request)) }
    ensures not_http { result ≡ Err RequestFault.NotHttp → (endpoint : Addressed)
        × (client.now.token_url ≡ Some endpoint) × SpellsNone (serialize endpoint.url) }
{
    client
        .exchange_code(alloc, code)
        .set_pkce_verifier(verifier)
        .prepare_request(alloc)
}
