//! How often a renewal asks.

/// How often a renewal asks.
#[derive(Clone, Copy, Debug, PartialEq, Eq)]
pub struct Limits {
    /// How often it loads at most.
    pub loads: u64,
    /// How often it asks the store again to keep a new token, at most.
    pub repeats: u64,
}
