//! The resource server's side of introspection.

ghost use Rattle.std.specs.Prelude.{◌≡◌, true, Ok, IsSome, map};
ghost use Rattle.oauth2_wire.specs.Once.{AsksOnce};
ghost use Rattle.oauth2_wire.specs.Reply.{answer_of};
ghost use Rattle.oauth2_introspection_cache.specs.Cache.{forgetting, kept_answer};
ghost use Rattle.oauth2_introspection_cache.specs.Decision.{Decides, judged_if_any, said_by};
ghost use Rattle.oauth2_resource_server.specs.Questions.{Asks, StepsOver, is_unanswered};

use jiff::Timestamp;
use oauth2::basic::{BasicErrorResponse, BasicRevocationErrorResponse, BasicTokenResponse};
use oauth2::{
    AccessToken, EndpointNotSet, EndpointState, ErrorResponse, RequestTokenError,
    StandardRevocableToken, TokenIntrospectionResponse,
};
use oauth2_http1_connections::{KeepAliveClient, KeepAliveConnect, KeepAliveError};
use oauth2_introspection_cache::{
    AcceptedTokens, ConfirmedIntrospectionResponse, IntrospectionCache, NotAuthorized,
    TellsConfirmation, decision,
};
use std::alloc::Global;

/// Asks an introspection endpoint about the tokens that a resource server is sent. The type
/// parameters before `C` are those of the cache, `C` opens connections, and `S` is a connection.
#[derive(Drop)]
pub struct ResourceServer<'a, TE, TR, TIR, RT, TRE, A, D, R, T, C, S>
where
    A: EndpointState,
    D: EndpointState,
    R: EndpointState,
    T: EndpointState,
{
    /// For the requests and replies.
    pub alloc: Global,
    /// The answers that are kept, and the client whose endpoint is asked.
    pub cache: IntrospectionCache<'a, TE, TR, TIR, RT, TRE, A, D, R, T>,
    /// Sends the requests, and keeps the connection.
    pub http_client: KeepAliveClient<C, S>,
}

/// The questions of a resource server whose authorization server uses no extension but those that
/// bind tokens to keys, for a `ResourceServerClient` whose other endpoints are in these states.
pub type BasicResourceServer<
    'a,
    C,
    S,
    A = EndpointNotSet,
    D = EndpointNotSet,
    R = EndpointNotSet,
    T = EndpointNotSet,
> = ResourceServer<
    'a,
    BasicErrorResponse,
    BasicTokenResponse,
    ConfirmedIntrospectionResponse,
    StandardRevocableToken,
    BasicRevocationErrorResponse,
    A,
    D,
    R,
    T,
    C,
    S,
>;

impl<'a, TE, TR, TIR, RT, TRE, A, D, R, T, C> ResourceServer<
    'a,
    TE,
    TR,
    TIR,
    RT,
    TRE,
    A,
    D,
    R,
    T,
    C,
    C::Stream,
>
where
    TE: ErrorResponse + Drop,
    TIR: TokenIntrospectionResponse + Drop,
    A: EndpointState,
    D: EndpointState,
    R: EndpointState,
    T: EndpointState,
    C: KeepAliveConnect,
{
    /// Whether a token is active. If an answer is kept that may be used, nothing is sent. Else the
    /// server is asked; and once more, over another connection, if the connection was kept from an
    /// earlier question and gave no reply to this one.
    pub fn is_active(
        &mut self,
        token: &AccessToken,
        now: Timestamp,
    ) -> Result<bool, RequestTokenError<KeepAliveError<C::Error>, TE>>
        ensures asks { Asks (λ rule. AsksOnce TIR.meaning TE.meaning (StepsOver C.opens C.looks
            C.Stream.contents C.Stream.remaining C.Stream.reads C.Stream.writes C.Stream.flushes)
            (answer_of rule TIR.reading TE.reading))
            TIR.active TIR.exp self.old.cache token.now now.nanosecond
            self.old.http_client result self.new.http_client self.new.cache }
        ensures kept { result ≡ Ok true → IsSome (kept_answer self.new.cache token.now) }
        ensures alloc { self.new.alloc ≡ self.old.alloc }
    {
        let first = self
            .cache
            .is_active(self.alloc, token, now, &mut self.http_client);
        if is_unanswered(&first) {
            return self
                .cache
                .is_active(self.alloc, token, now, &mut self.http_client);
        }
        first
    }

    /// Forgets what is kept for a token, as when its user signs out or the server says that it was
    /// revoked. The next question about it asks the server.
    pub fn forget(&mut self, token: &AccessToken)
        ensures cache { self.new.cache ≡ forgetting self.old.cache token.now }
        ensures http_client { self.new.http_client ≡ self.old.http_client }
        ensures alloc { self.new.alloc ≡ self.old.alloc }
    {
        self.cache.forget(token);
    }
}

impl<'a, TE, TR, TIR, RT, TRE, A, D, R, T, C> ResourceServer<
    'a,
    TE,
    TR,
    TIR,
    RT,
    TRE,
    A,
    D,
    R,
    T,
    C,
    C::Stream,
>
where
    TE: ErrorResponse + Drop,
    TIR: TellsConfirmation + Drop,
    A: EndpointState,
    D: EndpointState,
    R: EndpointState,
    T: EndpointState,
    C: KeepAliveConnect,
{
    /// Decides whether a request with this token, which needs all these scopes, is authorized. It
    /// calls `is_active`, and checks the answer that is kept then. Any error means that the request
    /// must not be served.
    pub fn authorize(
        &mut self,
        token: &AccessToken,
        accepted: &AcceptedTokens<TIR::TokenType>,
        needed: &[&str],
        now: Timestamp,
    ) -> Result<(), NotAuthorized<KeepAliveError<C::Error>, TE>>
        ensures decides { Decides (λ answer after next. Asks
            (λ rule. AsksOnce TIR.meaning TE.meaning (StepsOver C.opens C.looks C.Stream.contents
            C.Stream.remaining C.Stream.reads C.Stream.writes C.Stream.flushes)
            (answer_of rule TIR.reading TE.reading))
            TIR.active TIR.exp self.old.cache token.now now.nanosecond
            self.old.http_client answer after next)
            (judged_if_any TIR.TokenType.eq accepted.now (map (λ scope. scope.now) needed.now)
            now.nanosecond (said_by TIR.active TIR.exp TIR.iss TIR.aud TIR.token_type TIR.is_bound
            TIR.scopes)) token.now result self.new.http_client self.new.cache }
        ensures alloc { self.new.alloc ≡ self.old.alloc }
    {
        let active = self.is_active(token, now);
        decision(active, self.cache.check_kept(token, accepted, needed, now))
    }
}

// Whether a request went over a connection that was used before, and no byte of a reply came.
fn is_unanswered<E, TE>(found: &Result<bool, RequestTokenError<KeepAliveError<E>, TE>>) -> bool
    ensures { result ≡ is_unanswered found.now }
{
    match found {
        Err(RequestTokenError::Request(KeepAliveError::Unanswered { .. })) => true,
        _ => false,
    }
}
