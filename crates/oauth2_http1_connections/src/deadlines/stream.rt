//! A connection whose calls end in time.

ghost use Rattle.std.specs.Prelude.{◌≡◌};
ghost use Rattle.oauth2_http1_connections.specs.deadlines.Deadline.{Limits};

use crate::deadlines::clock::MonotonicClock;
use oauth2_http1::{Receive, Transmit};
use std::io::{self, ErrorKind};
use std::time::Duration;

/// A connection whose calls can be given a limit in time, such as a TCP stream by its
/// `set_read_timeout` and `set_write_timeout`.
///
/// A call that meets its limit should return the kind `TimedOut` or `WouldBlock`.
pub trait LimitedStream: Receive + Transmit {
    ghost use Rattle.std.specs.Prelude.{◌≡◌, Result, ⊤};
    ghost use Rattle.std.specs.declared.io.Error.{Error};
    ghost use Rattle.std.specs.declared.time.Duration.{Duration};

    // What it may do to set a limit, as a relation: the state before, the limit, the result, the
    // state after.
    ghost limits: { Self → Duration → Result ⊤ Error → Self → Type 0 } = { λ _ _ _ _. ⊤ };

    /// Sets how long each read, write and flush takes at most from now on. The limit is never zero.
    fn set_limit(&mut self, limit: Duration) -> io::Result<()>
        ensures remaining { Self.remaining self.new ≡ Self.remaining self.old }
        ensures contents { Self.contents self.new ≡ Self.contents self.old }
        ensures step { limits self.old limit result self.new };
}

/// A connection with a deadline, after which each call returns the kind `TimedOut`. A call before it
/// is limited to the time that is left. A `DeadlineConnector` opens such connections.
#[derive(Drop)]
pub struct DeadlineStream<S, K> {
    stream: S,
    clock: K,
    deadline: Duration,
}

impl<S, K: Drop> DeadlineStream<S, K> {
    /// This connection with a deadline, which is a time as the clock tells it.
    pub fn new(stream: S, clock: K, deadline: Duration) -> DeadlineStream<S, K>
        ensures stream { result.stream ≡ stream }
        ensures clock { result.clock ≡ clock }
        ensures deadline { result.deadline ≡ deadline }
    {
        DeadlineStream {
            stream,
            clock,
            deadline,
        }
    }

    /// The connection itself.
    pub fn into_stream(self) -> S
        ensures { result ≡ self.stream }
    {
        self.stream
    }
}

impl<S: LimitedStream, K: MonotonicClock> DeadlineStream<S, K> {
    // Reads the clock, and limits the next call to the time that is left.
    fn limit(&mut self) -> io::Result<()>
        ensures limits { Limits K.tells S.limits self.old result self.new }
        ensures remaining { S.remaining self.new.stream ≡ S.remaining self.old.stream }
        ensures contents { S.contents self.new.stream ≡ S.contents self.old.stream }
    {
        let limit = self.deadline.saturating_sub(self.clock.elapsed());
        if limit.is_zero() {
            return Err(io::Error::from(ErrorKind::TimedOut));
        }
        self.stream.set_limit(limit)
    }
}

impl<S: LimitedStream, K: MonotonicClock> Receive for DeadlineStream<S, K> {
    ghost use Rattle.oauth2_http1_connections.specs.deadlines.Deadline.{IsInTime};

    ghost remaining = { λ d. S.remaining d.stream };

    ghost reads = { IsInTime K.tells S.limits S.reads };

    fn receive(&mut self, chunk: &mut [u8]) -> io::Result<usize> {
        self.limit()?;
        self.stream.receive(chunk)
    }
}

impl<S: LimitedStream, K: MonotonicClock> Transmit for DeadlineStream<S, K> {
    ghost use Rattle.oauth2_http1_connections.specs.deadlines.Deadline.{IsInTime};

    ghost contents = { λ d. S.contents d.stream };

    ghost writes = { IsInTime K.tells S.limits S.writes };

    ghost flushes = { IsInTime K.tells S.limits S.flushes };

    fn transmit(&mut self, bytes: &[u8]) -> io::Result<usize> {
        self.limit()?;
        self.stream.transmit(bytes)
    }

    fn finish(&mut self) -> io::Result<()> {
        self.limit()?;
        self.stream.finish()
    }
}
