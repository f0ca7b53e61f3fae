//! The client that refreshes a token, which the caller provides.

/// A client that asks the server for a new token (RFC 6749, 6). `T` is the type of a token.
///
/// If the client may always be called, do not define `is_ready`. If you do not define `refreshes`,
/// contracts say nothing about what it does.
pub trait RefreshClient<T> {
    ghost use Rattle.std.specs.Prelude.{Result, ⊤};

    /// Why there is no new token: the server refused it (RFC 6749, 5.2), or its answer did not
    /// come or could not be read.
    type Error: Drop;

    // The client may be called in this state.
    ghost is_ready: { Self → Type 0 } = { λ _. ⊤ };

    // What a call may do, as a relation: the state before, the token, the result and the state
    // after.
    ghost refreshes: { Self → T → Result T Self.Error → Self → Type 0 } = { λ _ _ _ _. ⊤ };

    /// Sends the refresh token of this token once, and returns the new token. It has a refresh
    /// token too: the new one, or the old one where the server sent none.
    fn refresh(&mut self, token: &T) -> Result<T, Self::Error>
        requires { is_ready self.old }
        ensures refreshes { refreshes self.old token.now result self.new }
        ensures ready { is_ready self.new };
}
