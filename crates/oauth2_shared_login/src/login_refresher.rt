//! The client that refreshes a shared login.

ghost use Rattle.std.specs.Prelude.{◌≡◌, IfOk, map};
ghost use Rattle.std.specs.Duration.{as_nanos};
ghost use Rattle.oauth2_wire.specs.Once.{AsksOnce};
ghost use Rattle.oauth2_wire.specs.Reply.{answer_of};
ghost use Rattle.oauth2_keeper.specs.TokenTypes.{is_one_of};
ghost use Rattle.oauth2_shared_login.specs.Refreshing.{RefreshesBy};

use crate::login_world::LoginWorld;
use crate::refresh_fault::RefreshFault;
use crate::shared_login::SharedLogin;
use oauth2::basic::{
    BasicErrorResponse, BasicRevocationErrorResponse, BasicTokenIntrospectionResponse,
    BasicTokenResponse,
};
use oauth2::{
    Client, EndpointNotSet, EndpointSet, EndpointState, ErrorResponse, RefreshToken,
    RequestTokenError, StandardRevocableToken, TokenResponse, TryClone,
};
use oauth2_keeper::token_types::is_one_of;
use oauth2_shared_keeper::RefreshClient;
use oauth2_stored_token::ClientAtEndpoint;
use std::alloc::{AllocError, Global};
use std::convert::AsStr;
use std::time::Duration;

/// Refreshes shared logins at the token endpoint of a client. The type parameters before `W` are
/// those of the client, and `W` is the clock and the HTTP client.
#[derive(Drop)]
pub struct LoginRefresher<'a, TE, TR, TIR, RT, TRE, A, D, I, R, W>
where
    A: EndpointState,
    D: EndpointState,
    I: EndpointState,
    R: EndpointState,
{
    /// For the requests and replies.
    pub alloc: Global,
    /// The client of the login.
    pub client: &'a Client<TE, TR, TIR, RT, TRE, A, D, I, R, EndpointSet>,
    /// The clock, and what sends the requests.
    pub world: W,
    /// How long an access token is good whose response does not say it.
    pub default_lifetime: Duration,
    /// The token types that the caller can use (RFC 6749, section 7.1), in any case, as `BEARER`.
    pub token_types: &'a [&'a str],
}

/// Refreshes the logins of a server that uses no extension, for a `BasicClient` whose other
/// endpoints are in these states.
pub type BasicLoginRefresher<
    'a,
    W,
    A = EndpointNotSet,
    D = EndpointNotSet,
    I = EndpointNotSet,
    R = EndpointNotSet,
> = LoginRefresher<
    'a,
    BasicErrorResponse,
    BasicTokenResponse,
    BasicTokenIntrospectionResponse,
    StandardRevocableToken,
    BasicRevocationErrorResponse,
    A,
    D,
    I,
    R,
    W,
>;

impl<'a, TE, TR, TIR, RT, TRE, A, D, I, R, W> RefreshClient<SharedLogin<TR>>
    for LoginRefresher<'a, TE, TR, TIR, RT, TRE, A, D, I, R, W>
where
    TE: ErrorResponse + Drop,
    TR: TokenResponse + Drop,
    TR::TokenType: AsStr,
    A: EndpointState,
    D: EndpointState,
    I: EndpointState,
    R: EndpointState,
    W: LoginWorld,
{
    ghost use Rattle.std.specs.Prelude.{◌≡◌, map};
    ghost use Rattle.std.specs.Duration.{as_nanos};
    ghost use Rattle.oauth2_wire.specs.Once.{AsksOnce};
    ghost use Rattle.oauth2_wire.specs.Reply.{answer_of};
    ghost use Rattle.oauth2_keeper.specs.TokenTypes.{is_one_of};
    ghost use Rattle.oauth2_shared_login.specs.Refreshing.{Refreshes};

    type Error = RefreshFault<W::Error, TE, TR>;

    ghost is_ready = { λ r. W.is_ready r.world };

    ghost refreshes = { λ before login result after. Refreshes
        (λ rule. AsksOnce TR.meaning TE.meaning W.step (answer_of rule TR.reading TE.reading))
        before.client.now W.reads TR.lifetime (as_nanos before.default_lifetime)
        (λ response. is_one_of (map (λ name. name.now) before.token_types.now)
        (TR.TokenType.text (TR.token_type response)))
        TR.refresh_token login before.world result after.world
        × (after.client ≡ before.client) × (after.default_lifetime ≡ before.default_lifetime)
        × (after.token_types ≡ before.token_types) };

    fn refresh(&mut self, login: &SharedLogin<TR>) -> Result<SharedLogin<TR>, Self::Error> {
        if !login.client.is_client(self.client.client_id()) {
            return Err(RefreshFault::OtherClient);
        }
        if !login.client.is_endpoint(self.client.token_uri()) {
            return Err(RefreshFault::OtherEndpoint);
        }
        let Some(refresh_token) = login.refresh_token() else {
            return Err(RefreshFault::NoRefreshToken);
        };
        match copies(self.alloc, refresh_token, &login.client) {
            Ok((refresh_token, client)) => self.refresh_by(refresh_token, client),
            Err(AllocError) => Err(RefreshFault::Request(RequestTokenError::Memory {
                sent: false,
            })),
        }
    }
}

// Copies of what the next login is made of, besides its response.
fn copies(
    alloc: Global,
    refresh_token: &RefreshToken,
    client: &ClientAtEndpoint,
) -> Result<(RefreshToken, ClientAtEndpoint), AllocError>
    ensures { IfOk result (λ (token, named). (token ≡ refresh_token.now) × (named ≡ client.now)) }
{
    Ok((refresh_token.try_clone(alloc)?, client.try_clone(alloc)?))
}

impl<'a, TE, TR, TIR, RT, TRE, A, D, I, R, W> LoginRefresher<
    'a,
    TE,
    TR,
    TIR,
    RT,
    TRE,
    A,
    D,
    I,
    R,
    W,
>
where
    TE: ErrorResponse + Drop,
    TR: TokenResponse + Drop,
    TR::TokenType: AsStr,
    A: EndpointState,
    D: EndpointState,
    I: EndpointState,
    R: EndpointState,
    W: LoginWorld,
{
    // Reads the clock, and then requests a token with this refresh token. Nothing is allocated after
    // the response but what it is read to.
    fn refresh_by(
        &mut self,
        refresh_token: RefreshToken,
        client: ClientAtEndpoint,
    ) -> Result<SharedLogin<TR>, RefreshFault<W::Error, TE, TR>>
        requires { W.is_ready self.old.world }
        ensures refreshes { RefreshesBy
            (λ rule. AsksOnce TR.meaning TE.meaning W.step (answer_of rule TR.reading TE.reading))
            self.old.client.now W.reads TR.lifetime (as_nanos self.old.default_lifetime)
            (λ response. is_one_of (map (λ name. name.now) self.old.token_types.now)
            (TR.TokenType.text (TR.token_type response)))
            refresh_token client self.old.world result self.new.world }
        ensures client { self.new.client ≡ self.old.client }
        ensures lifetime { self.new.default_lifetime ≡ self.old.default_lifetime }
        ensures types { self.new.token_types ≡ self.old.token_types }
        ensures ready { W.is_ready self.new.world }
    {
        let now = self.world.now();
        let asking = self.client;
        let request = asking.exchange_refresh_token(self.alloc, &refresh_token);
        match request.request(self.alloc, &mut self.world) {
            Ok(response) => {
                let is_understood = is_one_of(self.token_types, response.token_type().as_str());
                let lifetime = response.expires_in().unwrap_or(self.default_lifetime);
                let new = SharedLogin {
                    response,
                    accepted_at: now,
                    lifetime,
                    earlier_refresh_token: Some(refresh_token),
                    client,
                };
                if is_understood {
                    Ok(new)
                } else {
                    Err(RefreshFault::OtherTokenType(new))
                }
            }
            Err(error) => Err(RefreshFault::Request(error)),
        }
    }
}
