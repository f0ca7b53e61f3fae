//! Where a kept refresh token is.

use oauth2_types::RefreshToken;

// Where the text of a kept refresh token is. It is not copied out of its reply, so keeping it takes
// no memory.
#[derive(Drop)]
pub(crate) enum RefreshSource<TR> {
    // No refresh token is kept.
    Absent,
    // The caller gave it.
    Given(RefreshToken),
    // It is in the reply that has the kept access token.
    Kept,
    // It is in this earlier reply.
    Earlier(TR),
}
