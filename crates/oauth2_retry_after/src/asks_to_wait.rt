//! Errors of HTTP clients that tell how long the server asks to wait.

use std::time::Duration;

/// An error of an HTTP client that may tell how long the server asks the client to wait.
///
/// For an error that never tells a wait, return `None` and do not define the ghost member.
pub trait AsksToWait {
    ghost use Rattle.std.specs.Prelude.{◌≡◌, ℕ, Option, None, option_map};
    ghost use Rattle.std.specs.Duration.{as_nanos};

    /// The wait that the server asks for, in nanoseconds, if it asks for one.
    ghost asked_wait: { Self → Option ℕ } = { λ _. None };

    /// How long the server asks the client to wait before it sends another request; `None` if it
    /// does not say.
    fn asked_wait(&self) -> Option<Duration>
        ensures { option_map as_nanos result ≡ asked_wait self.now };
}
