//! How often a request is sent again, and how long the client waits before that.

use std::time::Duration;

/// How often a request is sent again, and how long the client waits before that.
#[derive(Clone, Copy, Debug, PartialEq, Eq)]
pub struct RetryLimits {
    /// How often a request is sent again at most.
    pub most_repeats: u32,
    /// The wait before the first repeat, if the server asks for none. It doubles with each repeat.
    pub first_wait: Duration,
    /// The longest wait, whatever the server asks for.
    pub most_wait: Duration,
}
