//! A login in a web application: the URL to send the user to, and the token when the user is back.

ghost use Rattle.std.specs.Prelude.{◌≡◌, ℕ, List, None, Ok, IfOk};
ghost use Rattle.oauth2_json.specs.Body.{body_reading};
ghost use Rattle.oauth2_form.specs.Query.{query_form};
ghost use Rattle.oauth2_redirect.specs.Login.{LoginView, login_reading};
ghost use Rattle.oauth2_redirect.specs.Redirect.{answer};
ghost use Rattle.oauth2_redirect.specs.Bound.{mismatch};

use oauth2::basic::{BasicClient, BasicErrorResponse, BasicTokenResponse};
use oauth2::url::Url;
use oauth2::{EndpointNotSet, EndpointSet, ReadError, Scope, SyncHttpClient, compact, read_body};
use oauth2_redirect::{Login, LoginError, LoginIssuer, LoginUrlFault};
use rand_core::Rng;
use std::alloc::Global;

/// A client with an authorization endpoint and a token endpoint.
pub type LoginClient = BasicClient<
    EndpointSet,
    EndpointNotSet,
    EndpointNotSet,
    EndpointNotSet,
    EndpointSet,
>;

/// Why a login returned no token.
#[derive(Debug, Drop)]
pub enum WebLoginError<E> {
    /// The text in the session is no login.
    Session(ReadError),
    /// The redirect or the token request failed.
    Login(LoginError<E, BasicErrorResponse>),
}

/// Starts a login: returns the URL to send the user to, and the text to keep with the session.
pub fn begin<R: Rng>(
    alloc: Global,
    client: &LoginClient,
    issuer: LoginIssuer,
    rng: &mut R,
) -> Result<(Url, String), LoginUrlFault> {
    let scope = Scope::new(String::from_str(alloc, "profile")?);
    let request = Login::start(alloc, client, issuer, rng)?.add_scope(scope)?;
    let (url, login) = request.url(alloc)?;
    match compact(alloc, &login) {
        Ok(text) => Ok((url, text)),
        Err(_) => Err(LoginUrlFault::Memory),
    }
}

/// Finishes a login: returns the token for the session's text and the redirect of the user.
pub fn end<C: SyncHttpClient>(
    alloc: Global,
    client: &LoginClient,
    http_client: &mut C,
    session: &str,
    redirect: &Url,
) -> Result<BasicTokenResponse, WebLoginError<C::Error>>
    requires { C.is_ready http_client.old }
    ensures { IfOk result (λ _. (login : LoginView) × (code : List ℕ)
        × (body_reading login_reading session.now ≡ Ok login)
        × (mismatch client.now login redirect.now ≡ None)
        × (answer login.state login.issuer (query_form redirect.now) ≡ Ok code)) }
{
    let login: Login = match read_body(alloc, session.as_bytes()) {
        Ok(login) => login,
        Err(error) => return Err(WebLoginError::Session(error)),
    };
    match login.finish(alloc, client, http_client, redirect) {
        Ok(token) => Ok(token),
        Err(error) => Err(WebLoginError::Login(error)),
    }
}
