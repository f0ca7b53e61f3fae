//! What opens a connection.

use crate::calls::{Receive, Transmit};
use crate::origin::Origin;

/// What opens a connection. A client calls it once for each request that can be sent.
///
/// A connector of your own needs no contract. A connector without TLS has to refuse the scheme
/// `https`; otherwise secrets are sent unencrypted.
pub trait Connect {
    ghost use Rattle.std.specs.Prelude.{Result, ⊤};
    ghost use Rattle.oauth2_http1.specs.Origin.{Place, place_of};

    /// The connection, which is closed when it is dropped. It may be any type that is `Read` and
    /// `Write`.
    type Stream: Receive + Transmit + Drop;

    /// Why no connection was opened.
    type Error: Drop;

    // What a call may do, as a relation: the state before, the place, the result and the state
    // after.
    ghost opens: { Self → Place → Result Self.Stream Self.Error → Self → Type 0 } = { λ _ _ _ _. ⊤ };

    /// Opens a connection to this origin.
    fn connect(&mut self, to: &Origin<'_>) -> Result<Self::Stream, Self::Error>
        ensures { opens self.old (place_of to.now) result self.new };
}
