//! What becomes of a token that a caller brings, and of a logout.

use oauth2_shared_token::Content;

/// What became of a token that a caller asked the store to keep.
#[derive(Debug, Drop)]
pub enum LoggedIn<T> {
    /// The store keeps it.
    Done,
    /// Somebody else was first, in each try. The store does not keep it.
    Refused(T),
    /// The store was asked to put it in the place of this version, and did not say whether it did.
    /// It may keep it, or come to keep it.
    Unclear { version: u64, token: T },
    /// A load told nothing. The store does not keep it.
    Unread(T),
    /// The store has no next version. Nothing was asked.
    NoNextVersion(T),
}

/// What became of a logout.
#[derive(Debug, Drop)]
pub enum LoggedOut<T> {
    /// The store has no token any more. It had this, whose tokens can be revoked now (RFC 7009).
    Done(Content<T>),
    /// Somebody else was first, in each try.
    Refused,
    /// The store was asked to drop this version, and did not say whether it did. It had this.
    Unclear { version: u64, content: Content<T> },
    /// A load told nothing.
    Unread,
    /// The store has no next version. Nothing was asked.
    NoNextVersion(Content<T>),
}
