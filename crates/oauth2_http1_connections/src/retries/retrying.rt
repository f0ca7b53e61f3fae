//! A client that sends a request again if that is safe.

ghost use Rattle.std.specs.Prelude.{◌≡◌, false, MatchOption};
ghost use Rattle.std.specs.Duration.{as_nanos};
ghost use Rattle.oauth2_http1_connections.specs.retries.Limits.{limits_of};
ghost use Rattle.oauth2_http1_connections.specs.retries.Repeats.{Repeats};
ghost use Rattle.oauth2_http1_connections.specs.retries.private.Try.{Ends, SleepsAfter};

use crate::retries::answer::is_repeatable;
use crate::retries::limits::RetryLimits;
use crate::retries::pause::{pause_after, shorter};
use crate::retries::sleeping_client::SleepingClient;
use crate::retries::tells_unsent::TellsUnsent;
use oauth2_wire::{AlwaysReady, HttpRequest, HttpResponse, SyncHttpClient, copy_request};
use std::alloc::Global;
use std::marker::Model;
use std::time::Duration;

/// A client that sends a request again if that is safe: a GET whose call failed or whose reply had
/// status 429 or 503, and any request whose error says that nothing was sent.
///
/// Contracts see it as a `Repeater`.
#[derive(Drop)]
pub struct Retrying<C> {
    alloc: Global,
    client: C,
    limits: RetryLimits,
    is_cut_short: bool,
}

impl<C> Model for Retrying<C> {
    ghost use Rattle.oauth2_http1_connections.specs.retries.Limits.{limits_of};
    ghost use Rattle.oauth2_http1_connections.specs.retries.Repeats.{Repeater};

    ghost Value = { Repeater C };

    ghost view = { λ r. record {
      client = r.client;
      limits = limits_of r.limits;
      is_cut_short = r.is_cut_short;
    } };
}

impl<C> Retrying<C> {
    /// Wraps a client, which is used for calls and sleeps, with these limits.
    pub fn new(alloc: Global, client: C, limits: RetryLimits) -> Retrying<C>
        ensures { result ≡ record {
          client = client;
          limits = limits_of limits;
          is_cut_short = false;
        } }
    {
        Retrying {
            alloc,
            client,
            limits,
            is_cut_short: false,
        }
    }

    /// Whether the last call stopped early because there was no memory for a copy of the request.
    pub fn is_cut_short(&self) -> bool
        ensures { result ≡ self.now.is_cut_short }
    {
        self.is_cut_short
    }

    /// The wrapped client.
    pub fn into_inner(self) -> C
        ensures { result ≡ self.client }
    {
        let Retrying { client, .. } = self;
        client
    }
}

impl<C> SyncHttpClient for Retrying<C>
where
    C: SleepingClient,
    C::Error: TellsUnsent,
{
    ghost use Rattle.oauth2_http1_connections.specs.retries.Repeats.{CallsRepeating};

    type Error = C::Error;

    ghost is_ready = { λ r. C.is_ready r.client };

    ghost step = { CallsRepeating C.step C.sleeps C.Error.unsent };

    fn call(&mut self, request: HttpRequest) -> Result<HttpResponse, C::Error> {
        let (answer, is_cut_short) = call_repeatedly(
            self.alloc,
            &mut self.client,
            self.limits,
            request,
        );
        self.is_cut_short = is_cut_short;
        answer
    }
}

impl<C> AlwaysReady for Retrying<C>
where
    C: SleepingClient + AlwaysReady,
    C::Error: TellsUnsent,
{
    ghost always_ready = { λ r. C.always_ready r.client };
}

// Sends a request until no repeat is due. Returns the last answer, and whether memory for a copy
// ran out.
fn call_repeatedly<C>(
    alloc: Global,
    client: &mut C,
    limits: RetryLimits,
    request: HttpRequest,
) -> (Result<HttpResponse, C::Error>, bool)
where
    C: SleepingClient,
    C::Error: TellsUnsent,
    requires { C.is_ready client.old }
    ensures calls { Repeats C.step C.sleeps C.Error.unsent (limits_of limits) client.old request
        result.0 client.new result.1 }
    ensures ready { C.is_ready client.new }
{
    let mut left = limits.most_repeats;
    let mut wait = limits.first_wait;
    'tries: while left > 0 {
        let Ok(copy) = copy_request(alloc, &request) else {
            return (client.call(request), true);
        };
        if let Some(answer) = last_answer(client, &request, copy, wait, limits.most_wait) {
            return (answer, false);
        }
        left -= 1;
        wait = shorter(limits.most_wait, wait.saturating_mul(2));
    }
    (client.call(request), false)
}

// Sends a copy of a request. Returns the answer; or sleeps and returns `None` if the request is to
// be sent again.
fn last_answer<C>(
    client: &mut C,
    request: &HttpRequest,
    copy: HttpRequest,
    wait: Duration,
    most: Duration,
) -> Option<Result<HttpResponse, C::Error>>
where
    C: SleepingClient,
    C::Error: TellsUnsent,
    requires { C.is_ready client.old }
    ensures answer { MatchOption result
        (SleepsAfter C.step C.sleeps C.Error.unsent (as_nanos most) (as_nanos wait) request.now
        copy client.old client.new)
        (λ answer. Ends C.step C.Error.unsent request.now copy client.old answer client.new) }
    ensures ready { C.is_ready client.new }
{
    let answer = client.call(copy);
    if !is_repeatable(request.method().as_str(), &answer) {
        return Some(answer);
    }
    client.sleep(pause_after(&answer, wait, most));
    None
}
