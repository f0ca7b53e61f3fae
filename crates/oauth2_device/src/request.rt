//! Polling with a clock, a client and a sleep function.

ghost use Rattle.std.specs.Prelude.{◌<◌, List};
ghost use Rattle.oauth2_device.specs.Events.{PollCall, ClockLeads, ClientLeads, SleepLeads};
ghost use Rattle.oauth2_device.specs.Poll.{Polls, timeout_of};

use crate::device_access_token_request::{DeviceAccessTokenRequest, NoClock};
use crate::joined_world::{JoinedWorld, take_back};
use jiff::Timestamp;
use oauth2_codes::DeviceCodeErrorResponse;
use oauth2_replies::TokenResponse;
use oauth2_wire::{RequestTokenError, SyncHttpClient};
use std::alloc::Global;
use std::time::Duration;

impl<'a, TR, EF, F> DeviceAccessTokenRequest<'a, TR, EF, F>
where
    TR: TokenResponse,
    F: FnMut() -> Timestamp + Drop,
{
    /// Polls with the clock that was set, a client and a sleep function. The result and the errors
    /// are those of `poll_with`.
    pub fn request<C: SyncHttpClient, S: FnMut(Duration)>(
        self,
        alloc: Global,
        http_client: &mut C,
        sleep_fn: &mut S,
        timeout: Option<Duration>,
        max_polls: u64,
    ) -> Result<TR, RequestTokenError<C::Error, DeviceCodeErrorResponse>>
        requires polls { 0 < max_polls }
        requires clock { F.IsAlwaysCallable self.time_fn }
        requires client { C.is_ready http_client.old }
        requires sleep { S.IsAlwaysCallable sleep_fn.old }
        ensures poll { (e : List (PollCall C.Error))
            × ((last : F) × ClockLeads F.step self.entry.time_fn e last)
            × ClientLeads C.step http_client.old e http_client.new
            × SleepLeads (λ s d v. S.step s d tt v) sleep_fn.old e sleep_fn.new
            × Polls TR.meaning TR.reading self.entry.request
            (timeout_of self.entry.request timeout) max_polls e result }
        ensures client { C.is_ready http_client.new }
        ensures sleep { S.IsAlwaysCallable sleep_fn.new }
    {
        let (request, clock) = self.replace_clock(NoClock);
        let mut world = JoinedWorld {
            clock,
            client: http_client,
            sleep: sleep_fn,
        };
        let result = request.poll_with(alloc, &mut world, timeout, max_polls);
        let JoinedWorld {
            clock: _,
            client,
            sleep,
        } = world;
        take_back(client);
        take_back(sleep);
        result
    }
}
