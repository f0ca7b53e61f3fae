//! What a keeper tells its caller.

/// What a keeper tells its caller. `T` is the type of a token, and `E` the error of the client.
///
/// `renewal` is the name of the renewal that marked a token, and `version` the one that the mark
/// has. With both a caller answers for the mark.
#[derive(Debug, Drop)]
pub enum Held<T, E> {
    /// The store keeps this token, which is good or was just given by the server.
    Good(T),
    /// Another renewal uses the refresh token of this old token, which is still good.
    Old {
        renewal: u128,
        version: u64,
        token: T,
    },
    /// Somebody logged out.
    LoggedOut,
    /// The server gave this token to this renewal, and the store did not say that it keeps it.
    Unkept {
        renewal: u128,
        version: u64,
        token: T,
    },
    /// This renewal sent the refresh token of this token, and there is no new token. The mark
    /// stands.
    Unanswered {
        renewal: u128,
        version: u64,
        token: T,
        error: E,
    },
    /// The mark of this renewal on this token may stand, or come to stand. It sent nothing.
    Unclear {
        renewal: u128,
        version: u64,
        token: T,
    },
    /// The store has no next version. Nothing was asked.
    NoNextVersion(T),
    /// The last round saw the mark of another renewal, on a token that is not good any more.
    Unfinished {
        renewal: u128,
        version: u64,
        token: T,
    },
    /// In the last round the token was to be renewed, and another renewal had marked it. Its
    /// version is not known.
    InUse {
        renewal: u128,
        token: T,
    },
    /// In the last round the token was to be renewed, and somebody else was first.
    Lost,
    /// In the last round no load told what is stored.
    Unread,
}
