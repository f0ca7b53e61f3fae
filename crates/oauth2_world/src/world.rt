//! The client and the clock of a poll.

use crate::clock::ScriptedClock;
use crate::event::Event;
use crate::replay::{NoReply, ScriptedClient};
use jiff::Timestamp;
use oauth2_device::PollWorld;
use oauth2_wire::{HttpRequest, HttpResponse, SyncHttpClient};
use std::time::Duration;

/// The client of a script and its clock. A sleep adds its event to those of the client.
#[derive(Drop)]
pub struct ScriptedWorld {
    pub http_client: ScriptedClient,
    pub clock: ScriptedClock,
}

impl PollWorld for ScriptedWorld {
    ghost use Rattle.oauth2_world.specs.World.{Reads, Sends, Sleeps};

    type Error = NoReply;

    ghost reads = { Reads };

    ghost sends = { Sends };

    ghost sleeps = { Sleeps };

    fn now(&mut self) -> Timestamp {
        self.clock.read()
    }

    fn send(&mut self, request: HttpRequest) -> Result<HttpResponse, NoReply> {
        self.http_client.call(request)
    }

    fn sleep(&mut self, duration: Duration) {
        if self
            .http_client
            .events
            .push(Event::Sleep(duration))
            .is_err()
        {
            self.http_client.is_starved = true;
        }
    }
}
