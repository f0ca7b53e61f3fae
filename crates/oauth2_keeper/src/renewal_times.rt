//! When a keeper gets another token.

use std::time::Duration;

/// When a keeper gets another token.
#[derive(Clone, Copy, Debug, PartialEq, Eq)]
pub struct RenewalTimes {
    /// A token is handed out only if it is good for so long afterwards.
    pub margin: Duration,
    /// The lifetime of a token whose reply has no `expires_in` (RFC 6749, section 5.1).
    pub default_lifetime: Duration,
}
