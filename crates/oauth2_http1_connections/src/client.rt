//! The HTTP/1.1 client that uses connections again.

ghost use Rattle.std.specs.Prelude.{◌≡◌, ◌<◌, not, ◌&&◌, [], take, Some, None, true};
ghost use Rattle.std.specs.Prelude.{OnOk, IfOk, IfErr, IfSome};
ghost use Rattle.std.specs.Prelude.{vec_len, vec_capacity};
ghost use Rattle.http.specs.Request.{head_of};
ghost use Rattle.http1.specs.Framing.{method_kind};
ghost use Rattle.oauth2_http1.specs.Bounds.{default_bounds};
ghost use Rattle.oauth2_http1.specs.Kept.{keeps_connection};
ghost use Rattle.oauth2_http1.specs.Message.{IsKeptWire, Awaits};
ghost use Rattle.oauth2_http1.specs.Origin.{place_of};
ghost use Rattle.oauth2_http1.specs.Unsent.{UnsentKept};
ghost use Rattle.oauth2_http1_connections.specs.Client.{agent_of, IsSetAs};
ghost use Rattle.oauth2_http1_connections.specs.Client.{GetsReady, FailsToOpen, IsSilent, HasNoSilent};
ghost use Rattle.oauth2_http1_connections.specs.Exchange.{request_closes};
ghost use Rattle.oauth2_http1_connections.specs.Idle.{text_of, without};
ghost use Rattle.oauth2_http1_connections.specs.Method.{is_idempotent};
ghost use Rattle.oauth2_http1_connections.specs.private.Told.{told_as};

use crate::connect::KeepAliveConnect;
use crate::error::KeepAliveError;
use crate::idle::{IdleConnections, OwnPlace};
use http_header::HeaderValue;
use oauth2_http1::{
    Bounds, Http1Error, KeptRequest, MessageFault, Origin, ReplyRead, kept_request_bytes,
    origin_of, send, take_reply,
};
use oauth2_wire::{AlwaysReady, HttpRequest, HttpResponse, SyncHttpClient};
use std::alloc::Global;

/// An HTTP/1.1 client that uses a connection again for the next request to the same place. It sends
/// no request twice, follows no redirect, and decodes no content coding.
#[derive(Drop)]
pub struct KeepAliveClient<C, S> {
    alloc: Global,
    connect: C,
    bounds: Bounds,
    user_agent: Option<HeaderValue>,
    idle: IdleConnections<S>,
}

/// Whether a request with this method may be sent again if its reply did not come (RFC 9110,
/// 9.2.2).
pub fn is_idempotent(method: &[u8]) -> bool
    ensures { result ≡ is_idempotent method.now }
{
    method == b"GET".as_slice()
        || method == b"HEAD".as_slice()
        || method == b"PUT".as_slice()
        || method == b"DELETE".as_slice()
        || method == b"OPTIONS".as_slice()
        || method == b"TRACE".as_slice()
}

// Whether a connection may be used again after this reply to a request.
fn may_be_used_again(closes: bool, read: &ReplyRead) -> bool
    ensures { result ≡ (not closes && keeps_connection read.now) }
{
    !closes && read.keeps_connection()
}

// Whether a connection was used before and gave no byte of the reply.
fn is_unanswered(used: bool, came: bool) -> bool
    ensures { result ≡ (used && not came) }
{
    used && !came
}

// The error of an exchange.
fn failed<E>(error: Http1Error<E>, unanswered: bool, may_be_sent_again: bool) -> KeepAliveError<E>
    ensures { result ≡ told_as unanswered may_be_sent_again error }
{
    if unanswered {
        return KeepAliveError::Unanswered {
            error,
            may_be_sent_again,
        };
    }
    KeepAliveError::Http1(error)
}

impl<C: KeepAliveConnect> KeepAliveClient<C, C::Stream> {
    /// A client with the default bounds, without a `User-Agent`, that holds at most one idle
    /// connection.
    pub fn new(alloc: Global, connect: C) -> KeepAliveClient<C, C::Stream>
        ensures connect { result.connect ≡ connect }
        ensures bounds { result.bounds ≡ default_bounds }
        ensures user_agent { result.user_agent ≡ None }
        ensures most_idle { result.idle.most ≡ 1 }
        ensures idle { result.idle.kept.items ≡ [] }
    {
        KeepAliveClient {
            alloc,
            connect,
            bounds: Bounds::default(),
            user_agent: None,
            idle: IdleConnections::new(alloc, 1),
        }
    }

    /// Sets the bounds within which replies are read.
    pub fn set_bounds(mut self, bounds: Bounds) -> KeepAliveClient<C, C::Stream>
        ensures { result ≡ record self { bounds = bounds } }
    {
        self.bounds = bounds;
        self
    }

    /// Sets the `User-Agent` of each request that has none.
    pub fn set_user_agent(mut self, user_agent: HeaderValue) -> KeepAliveClient<C, C::Stream>
        ensures { result ≡ record self { user_agent = Some user_agent } }
    {
        self.user_agent = Some(user_agent);
        self
    }

    /// Sets how many idle connections are held at most, of which no two go to the same place. Those
    /// used least recently are closed. With 0, each connection is for one request.
    pub fn set_most_idle(mut self, most: usize) -> KeepAliveClient<C, C::Stream>
        ensures kept { result.idle.kept.items ≡ take most self.idle.kept.items }
        ensures most { result.idle.most ≡ most }
        ensures connect { result.connect ≡ self.connect }
        ensures bounds { result.bounds ≡ self.bounds }
        ensures user_agent { result.user_agent ≡ self.user_agent }
    {
        self.idle.set_most(most);
        self
    }

    /// The connector. The idle connections are closed.
    pub fn into_connect(self) -> C
        ensures { result ≡ self.connect }
    {
        self.connect
    }

    // The request as bytes, and its place as texts of its own. There is room for one more idle
    // connection afterwards.
    fn prepare(
        &mut self,
        origin: &Origin<'_>,
        request: &HttpRequest,
    ) -> Result<(KeptRequest, OwnPlace), MessageFault>
        ensures wire { IfOk result (λ made. IsKeptWire (agent_of self.old) (place_of origin.now)
            request.now made.0.bytes.items) }
        ensures waits { IfOk result (λ made. Awaits self.old.bounds.limits
            (method_kind (head_of request.now).method) made.0.client) }
        ensures closes { IfOk result (λ made. made.0.closes
            ≡ request_closes (agent_of self.old) (place_of origin.now) request.now) }
        ensures place { IfOk result (λ made. text_of made.1 ≡ place_of origin.now) }
        ensures unsent { IfErr result
            (UnsentKept (agent_of self.old) (place_of origin.now) request.now) }
        ensures room { OnOk result
            (vec_len self.new.idle.kept < vec_capacity self.new.idle.kept) }
        ensures idle { self.new.idle.kept.items ≡ self.old.idle.kept.items }
        ensures connect { self.new.connect ≡ self.old.connect }
        ensures settings { IsSetAs self.old self.new }
    {
        let user_agent = match &self.user_agent {
            Some(value) => Some(value.as_bytes()),
            None => None,
        };
        let made = kept_request_bytes(self.alloc, self.bounds.limits, user_agent, origin, request)?;
        let place = OwnPlace::of(self.alloc, origin)?;
        self.idle.make_room()?;
        Ok((made, place))
    }

    // The idle connection to a place, if there is one and it is silent. It is idle no more.
    fn silent_connection(&mut self, to: &Origin<'_>) -> Option<C::Stream>
        ensures found { IfSome result (λ stream. IsSilent C.looks C.Stream.contents
            C.Stream.remaining (place_of to.now) self.old stream) }
        ensures none { result ≡ None → HasNoSilent C.looks C.Stream.contents
            C.Stream.remaining (place_of to.now) self.old }
        ensures others { self.new.idle.kept.items
            ≡ without (place_of to.now) self.old.idle.kept.items }
        ensures connect { self.new.connect ≡ self.old.connect }
        ensures settings { IsSetAs self.old self.new }
        ensures room { vec_len self.old.idle.kept < vec_capacity self.old.idle.kept
            → vec_len self.new.idle.kept < vec_capacity self.new.idle.kept }
    {
        let mut stream = self.idle.take(to)?;
        if C::is_silent(&mut stream) {
            return Some(stream);
        }
        None
    }

    // The connection for a place, and whether it was used before.
    fn connection(&mut self, to: &Origin<'_>) -> Result<(C::Stream, bool), C::Error>
        requires { vec_len self.old.idle.kept < vec_capacity self.old.idle.kept }
        ensures gets { IfOk result (λ got. GetsReady C.opens C.looks C.Stream.contents
            C.Stream.remaining (place_of to.now) self.old got.1 got.0 self.new) }
        ensures fails { IfErr result (λ e. FailsToOpen C.opens C.looks C.Stream.contents
            C.Stream.remaining (place_of to.now) self.old e self.new) }
        ensures others { self.new.idle.kept.items
            ≡ without (place_of to.now) self.old.idle.kept.items }
        ensures settings { IsSetAs self.old self.new }
        ensures room { vec_len self.new.idle.kept < vec_capacity self.new.idle.kept }
    {
        if let Some(stream) = self.silent_connection(to) {
            return Ok((stream, true));
        }
        match self.connect.connect(to) {
            Ok(stream) => Ok((stream, false)),
            Err(e) => Err(e),
        }
    }
}

impl<C: KeepAliveConnect> SyncHttpClient for KeepAliveClient<C, C::Stream> {
    ghost use Rattle.oauth2_http1_connections.specs.Client.{IsSetAs, Calls};

    type Error = KeepAliveError<C::Error>;

    ghost step = { λ before request answer after. IsSetAs before after
        × Calls C.opens C.looks C.Stream.contents C.Stream.remaining
        C.Stream.reads C.Stream.writes C.Stream.flushes before request answer after };

    fn call(&mut self, request: HttpRequest) -> Result<HttpResponse, KeepAliveError<C::Error>> {
        let origin = match origin_of(request.uri()) {
            Ok(origin) => origin,
            Err(e) => return Err(KeepAliveError::Http1(Http1Error::Request(e))),
        };
        let (made, place) = match self.prepare(&origin, &request) {
            Ok(prepared) => prepared,
            Err(e) => return Err(KeepAliveError::Http1(Http1Error::Request(e))),
        };
        let (mut stream, used) = match self.connection(&origin) {
            Ok(got) => got,
            Err(e) => return Err(KeepAliveError::Http1(Http1Error::Connect(e))),
        };
        let again = is_idempotent(request.method().as_str().as_bytes());
        if let Err(e) = send(&mut stream, &made.bytes) {
            return Err(failed(Http1Error::Write(e), used, again));
        }
        match take_reply(self.alloc, made.client, &mut stream, &self.bounds) {
            Ok(read) => {
                let keeps = may_be_used_again(made.closes, &read);
                self.idle.hold(keeps, place, stream);
                Ok(read.response)
            }
            Err(unread) => {
                let unanswered = is_unanswered(used, unread.came);
                Err(failed(Http1Error::Reply(unread.fault), unanswered, again))
            }
        }
    }
}

impl<C: KeepAliveConnect> AlwaysReady for KeepAliveClient<C, C::Stream> {
    ghost always_ready = { λ _. tt };
}
