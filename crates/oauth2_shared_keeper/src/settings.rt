//! When a keeper hands out a token, and how often it looks.

use crate::limits::Limits;
use std::time::Duration;

/// When a keeper hands out a token, and how often it looks.
#[derive(Clone, Copy, Debug)]
pub struct KeeperSettings {
    /// How long a token at rest has to be good for still. If it is not, it is renewed.
    pub margin: Duration,
    /// How long a token that another renewal uses has to be good for still.
    pub old_margin: Duration,
    /// How long the keeper sleeps before it looks again.
    pub wait: Duration,
    /// How often it looks at most.
    pub rounds: u64,
    /// How often a renewal asks.
    pub limits: Limits,
}
