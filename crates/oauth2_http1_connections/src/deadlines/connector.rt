//! What opens connections with a deadline.

ghost use Rattle.std.specs.Prelude.{◌≡◌};

use crate::deadlines::clock::MonotonicClock;
use crate::deadlines::stream::{DeadlineStream, LimitedStream};
use oauth2_http1::{Connect, Origin};
use std::time::Duration;

/// A clock, and what opens a connection within a limit, such as `TcpStream::connect_timeout`. Both
/// are one state, since the clock goes on while a connection is opened.
///
/// A connector without TLS has to refuse the scheme `https`; otherwise secrets are sent unencrypted.
pub trait LimitedConnect {
    ghost use Rattle.std.specs.Prelude.{Result, ⊤};
    ghost use Rattle.std.specs.declared.time.Duration.{Duration};
    ghost use Rattle.oauth2_http1.specs.Origin.{Place, place_of};

    /// The clock that a connection reads before each of its calls.
    type Clock: MonotonicClock;

    /// The connection, which is closed when it is dropped.
    type Stream: LimitedStream + Drop;

    /// Why no connection was opened.
    type Error: Drop;

    // What a reading of the clock may tell, as a relation: the state before, the time, the state
    // after.
    ghost reads: { Self → Duration → Self → Type 0 } = { λ _ _ _. ⊤ };

    // The clock that a connection may get in a state.
    ghost clocks: { Self → Self.Clock → Type 0 } = { λ _ _. ⊤ };

    // What an opening may do, as a relation: the state before, the place, the limit, the result and
    // the state after.
    ghost opens: { Self → Place → Duration → Result Self.Stream Self.Error → Self → Type 0 } = { λ _ _ _ _ _. ⊤ };

    /// The time since some fixed moment, as the clock of each connection tells it.
    fn elapsed(&mut self) -> Duration
        ensures { reads self.old result self.new };

    /// A clock for a connection.
    fn clock(&self) -> Self::Clock
        ensures { clocks self.now result };

    /// Opens a connection to this origin, in at most this time. The look-up of its name counts.
    fn connect_within(
        &mut self,
        to: &Origin<'_>,
        limit: Duration,
    ) -> Result<Self::Stream, Self::Error>
        ensures { opens self.old (place_of to.now) limit result self.new };
}

/// A connector that gives each connection a deadline: `most_time` after the beginning of its opening.
/// So a whole exchange of an `Http1Client` over it ends in that time.
#[derive(Drop)]
pub struct DeadlineConnector<C> {
    connect: C,
    most_time: Duration,
}

impl<C> DeadlineConnector<C> {
    /// A connector over this one, with the most time of an exchange.
    pub fn new(connect: C, most_time: Duration) -> DeadlineConnector<C>
        ensures connect { result.connect ≡ connect }
        ensures most_time { result.most_time ≡ most_time }
    {
        DeadlineConnector { connect, most_time }
    }

    /// The connector itself.
    pub fn into_connect(self) -> C
        ensures { result ≡ self.connect }
    {
        self.connect
    }
}

impl<C: LimitedConnect> Connect for DeadlineConnector<C> {
    ghost use Rattle.oauth2_http1_connections.specs.deadlines.Connector.{OpensInTime};

    type Stream = DeadlineStream<C::Stream, C::Clock>;

    type Error = C::Error;

    ghost opens = { OpensInTime C.reads C.clocks C.opens };

    fn connect(
        &mut self,
        to: &Origin<'_>,
    ) -> Result<DeadlineStream<C::Stream, C::Clock>, C::Error> {
        let begun = self.connect.elapsed();
        let stream = self.connect.connect_within(to, self.most_time)?;
        let deadline = begun.saturating_add(self.most_time);
        Ok(DeadlineStream::new(stream, self.connect.clock(), deadline))
    }
}
