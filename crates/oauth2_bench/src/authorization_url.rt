//! The URL that a user is sent to.

use crate::clients::{BenchClient, redirecting_client};
use crate::fault::Fault;
use crate::operation::{Done, Operation};
use oauth2::url::{ParseError, Url};
use oauth2::{CsrfToken, PkceCodeChallenge, Scope, TryClone};
use std::alloc::{AllocError, Global};

/// Makes an authorization URL with a code challenge, three scopes and a redirect URI.
#[derive(Drop)]
pub struct AuthorizationUrl {
    client: BenchClient,
    challenge: PkceCodeChallenge,
}

impl AuthorizationUrl {
    /// The operation with this code challenge.
    pub fn new(alloc: Global, challenge: PkceCodeChallenge) -> Result<AuthorizationUrl, Fault> {
        Ok(AuthorizationUrl {
            client: redirecting_client(alloc)?,
            challenge,
        })
    }
}

fn scope(alloc: Global, text: &str) -> Result<Scope, AllocError> {
    Ok(Scope::new(String::from_str(alloc, text)?))
}

fn authorization_url(
    alloc: Global,
    client: &BenchClient,
    state: CsrfToken,
    challenge: PkceCodeChallenge,
) -> Result<Url, ParseError> {
    let request = client
        .authorize_url(alloc, move || state)
        .set_pkce_challenge(challenge)
        .add_scope(scope(alloc, "read")?)?
        .add_scope(scope(alloc, "write")?)?
        .add_scope(scope(alloc, "openid")?)?;
    let (url, _) = request.url(alloc)?;
    Ok(url)
}

impl Operation for AuthorizationUrl {
    fn run(&mut self, alloc: Global) -> Result<Done, Fault> {
        let state = CsrfToken::new(String::from_str(alloc, "csrf_token")?);
        let challenge = self.challenge.try_clone(alloc)?;
        let url = authorization_url(alloc, &self.client, state, challenge)?;
        Ok(Done {
            sent: 0,
            read: url.as_str().len(),
        })
    }
}
