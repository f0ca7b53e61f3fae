//! A clock, a client and a sleep function as one world.

ghost use Rattle.std.specs.Prelude.{◌≡◌};

use crate::poll_world::PollWorld;
use jiff::Timestamp;
use oauth2_wire::{HttpRequest, HttpResponse, SyncHttpClient};
use std::time::Duration;

pub(crate) struct JoinedWorld<'c, 's, T, C, S> {
    pub(crate) clock: T,
    pub(crate) client: &'c mut C,
    pub(crate) sleep: &'s mut S,
}

impl<'c, 's, T, C, S> PollWorld for JoinedWorld<'c, 's, T, C, S>
where
    T: FnMut() -> Timestamp,
    C: SyncHttpClient,
    S: FnMut(Duration),
{
    ghost use Rattle.oauth2_device.specs.private.Joined.{joined_reads, joined_sends};
    ghost use Rattle.oauth2_device.specs.private.Joined.{joined_sleeps};

    type Error = C::Error;

    ghost is_ready = { λ w. T.IsAlwaysCallable w.clock × C.is_ready w.client.now
        × S.IsAlwaysCallable w.sleep.now };

    ghost reads = { joined_reads T.step };

    ghost sends = { joined_sends C.step };

    ghost sleeps = { joined_sleeps (λ s d v. S.step s d tt v) };

    fn now(&mut self) -> Timestamp {
        (self.clock)()
    }

    fn send(&mut self, request: HttpRequest) -> Result<HttpResponse, C::Error> {
        self.client.call(request)
    }

    fn sleep(&mut self, duration: Duration) {
        (self.sleep)(duration)
    }
}

// Does nothing. The call tells the checker that what happened to a borrow happened to the parameter
// from which it was borrowed.
pub(crate) fn take_back<T>(lent: &mut T)
    ensures { lent.new ≡ lent.old }
{}
