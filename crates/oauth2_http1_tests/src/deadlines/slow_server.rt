//! A server in memory, and a clock that goes on by one second whenever it is read.

ghost use Rattle.std.specs.Prelude.{◌≤◌, length};

use crate::support::read_piece;
use oauth2_http1::{Origin, Receive, Transmit};
use oauth2_http1_connections::{LimitedConnect, LimitedStream, MonotonicClock};
use std::io::{self, ErrorKind};
use std::time::Duration;

/// A clock that was read at this second before, and now is one second later.
#[derive(Clone, Copy)]
pub struct Seconds(pub u64);

impl MonotonicClock for Seconds {
    fn elapsed(&mut self) -> Duration {
        let now = Duration::from_secs(self.0);
        self.0 = self.0.saturating_add(1);
        now
    }
}

/// How a server behaves.
#[derive(Clone, Copy, PartialEq, Eq)]
pub enum Manner {
    /// It gives its reply in one piece.
    Whole,
    /// It gives one byte at each read.
    ByBytes,
    /// It takes the request, and then gives nothing within any limit.
    Silent,
    /// It closes the connection when it is read.
    Resets,
    /// No limit can be set for its connection.
    Unlimited,
    /// It takes a connection after five seconds, and then is as `Whole`.
    OpensLate,
    /// It takes no connection.
    Closed,
}

/// A server that replies with this.
#[derive(Clone, Copy)]
pub struct SlowServer<'a> {
    pub manner: Manner,
    pub reply: &'a [u8],
}

impl<'a> SlowServer<'a> {
    // Copies the next piece of the reply into `chunk`, and returns its length.
    fn give(&mut self, chunk: &mut [u8]) -> usize
        ensures { result ≤ length chunk.new }
    {
        let most = if self.manner == Manner::ByBytes {
            1
        } else {
            usize::MAX
        };
        read_piece(&mut self.reply, most, chunk)
    }
}

impl Receive for SlowServer<'_> {
    fn receive(&mut self, chunk: &mut [u8]) -> io::Result<usize> {
        match self.manner {
            Manner::Silent => Err(io::Error::from(ErrorKind::WouldBlock)),
            Manner::Resets => Err(io::Error::from(ErrorKind::ConnectionReset)),
            _ => Ok(self.give(chunk)),
        }
    }
}

impl Transmit for SlowServer<'_> {
    fn transmit(&mut self, bytes: &[u8]) -> io::Result<usize> {
        Ok(bytes.len())
    }

    fn finish(&mut self) -> io::Result<()> {
        Ok(())
    }
}

impl LimitedStream for SlowServer<'_> {
    fn set_limit(&mut self, _limit: Duration) -> io::Result<()> {
        if self.manner == Manner::Unlimited {
            return Err(io::Error::from(ErrorKind::InvalidInput));
        }
        Ok(())
    }
}

/// A server, and the clock of its connections.
#[derive(Clone, Copy)]
pub struct TimedServer<'a> {
    pub server: SlowServer<'a>,
    pub clock: Seconds,
}

impl<'a> LimitedConnect for TimedServer<'a> {
    type Clock = Seconds;

    type Stream = SlowServer<'a>;

    type Error = io::Error;

    fn elapsed(&mut self) -> Duration {
        self.clock.elapsed()
    }

    fn clock(&self) -> Seconds {
        self.clock
    }

    fn connect_within(&mut self, _to: &Origin<'_>, _limit: Duration) -> io::Result<SlowServer<'a>> {
        if self.server.manner == Manner::OpensLate {
            self.clock.0 = self.clock.0.saturating_add(5);
        }
        if self.server.manner == Manner::Closed {
            return Err(io::Error::from(ErrorKind::TimedOut));
        }
        Ok(self.server)
    }
}
