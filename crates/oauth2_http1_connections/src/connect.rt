//! What opens connections that may be used again.

use oauth2_http1::Connect;

/// A connector whose connections may be used again, since it can say whether bytes wait on one.
pub trait KeepAliveConnect: Connect {
    ghost use Rattle.std.specs.Prelude.{◌≡◌, Bool, ⊤};

    // What a look at a connection may tell, as a relation: the connection before, whether it is
    // silent, the connection after.
    ghost looks: { Self.Stream → Bool → Self.Stream → Type 0 } = { λ _ _ _. ⊤ };

    /// Whether the connection is open and no byte waits on it to be read. A look returns at once,
    /// and takes no byte. It returns `false` where this is not known: such a connection carries one
    /// request.
    fn is_silent(stream: &mut Self::Stream) -> bool
        ensures remaining { Self.Stream.remaining stream.new ≡ Self.Stream.remaining stream.old }
        ensures contents { Self.Stream.contents stream.new ≡ Self.Stream.contents stream.old }
        ensures step { looks stream.old result stream.new };
}
