//! What a store says of a request to replace what it keeps.

/// What a store says of a request to replace what it keeps.
#[derive(Clone, Copy, Debug, PartialEq, Eq)]
pub enum Replaced {
    /// It did what it was asked.
    Done,
    /// It did nothing, since it keeps another version.
    Refused,
}
