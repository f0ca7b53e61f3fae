//! How a renewal ended.

/// How a renewal ended. `T` is the type of a token, and `E` the error of the client.
#[derive(Debug, Drop)]
pub enum Renewed<T, E> {
    /// The server gave this token, and the store said that it keeps it.
    Kept(T),
    /// The server gave this token, and the store did not say that it keeps it. It may, or the mark
    /// may stand, under this version; or somebody answered for that.
    Unkept { version: u64, token: T },
    /// The renewal of this name uses the refresh token, or did and nobody answered for that. The
    /// access token of the old token, which is here, may still be good.
    InUse { renewal: u128, token: T },
    /// Somebody logged out.
    LoggedOut,
    /// Somebody else was first. Nothing was sent.
    Lost,
    /// The refresh token of this token was sent, and there is no new token. The mark stands, under
    /// this version, until somebody answers for it.
    Unanswered { version: u64, token: T, error: E },
    /// No load within the limit told whether the mark on this token was taken. It may stand, or
    /// come to stand, under this version. Nothing was sent.
    Unclear { version: u64, token: T },
    /// No load within the limit told what is stored. Nothing was asked.
    Unread,
    /// The store has no next version. Nothing was asked.
    NoNextVersion(T),
}
