//! A clock, HTTP client and sleep function for polls (a world) that records the events of a poll.

ghost use Rattle.std.specs.Prelude.{◌≡◌};
ghost use Rattle.oauth2_client_refusals_tests.specs.Recorded.{Notes};

use crate::counting_client::NoReply;
use jiff::Timestamp;
use oauth2::{HttpRequest, HttpResponse, PollWorld};
use std::time::Duration;

/// An event of a poll, as a recorder keeps it.
#[derive(Clone, Copy)]
pub enum Seen {
    Reading(Timestamp),
    Request,
    Sleep(Duration),
}

/// A world whose clock shows these times in order, in seconds since 1970, and then stays at the
/// last one. Its client returns these replies, the last one first, and then fails. The replies and
/// the room for the events are allocated before the poll.
pub struct Recorder<'a> {
    pub readings: &'a [i64],
    pub last: Timestamp,
    pub replies: Vec<HttpResponse>,
    pub seen: Vec<Seen>,
    /// Whether there was room for all events.
    pub is_whole: bool,
}

impl Drop for Recorder<'_> {
    fn drop(self) {
        let Recorder {
            readings: _,
            last: _,
            replies: _,
            seen: _,
            is_whole: _,
        } = self;
    }
}

impl Recorder<'_> {
    // The next time that the clock shows.
    fn show_next(&mut self) -> Timestamp
        ensures seen { self.new.seen ≡ self.old.seen }
        ensures whole { self.new.is_whole ≡ self.old.is_whole }
    {
        if let Some((first, rest)) = self.readings.split_first() {
            self.readings = rest;
            if let Ok(now) = Timestamp::from_second(*first) {
                self.last = now;
            }
        }
        self.last
    }

    fn note(&mut self, event: Seen)
        ensures { Notes self.old event self.new }
    {
        if self.seen.push(event).is_err() {
            self.is_whole = false;
        }
    }
}

impl PollWorld for Recorder<'_> {
    ghost use Rattle.oauth2_client_refusals_tests.specs.Recorded.{RecordsReading, RecordsSending};
    ghost use Rattle.oauth2_client_refusals_tests.specs.Recorded.{RecordsSleep};

    type Error = NoReply;

    ghost reads = { RecordsReading };

    ghost sends = { RecordsSending };

    ghost sleeps = { RecordsSleep };

    fn now(&mut self) -> Timestamp {
        let now = self.show_next();
        self.note(Seen::Reading(now));
        now
    }

    fn send(&mut self, request: HttpRequest) -> Result<HttpResponse, NoReply> {
        drop(request);
        self.note(Seen::Request);
        match self.replies.pop() {
            Some(reply) => Ok(reply),
            None => Err(NoReply),
        }
    }

    fn sleep(&mut self, duration: Duration) {
        self.note(Seen::Sleep(duration));
    }
}
