//! What a keeper makes of what it sees.

ghost use Rattle.std.specs.Prelude.{◌≡◌};
ghost use Rattle.oauth2_shared_keeper.specs.Keeper.{after_renewal, verdict};

use crate::held::Held;
use crate::renewed::Renewed;
use crate::settings::KeeperSettings;
use crate::shared_token::SharedToken;
use jiff::Timestamp;
use oauth2_shared_token::{Content, StoredValue};

// How a round ends.
#[derive(Drop)]
pub(crate) enum Outcome<T, E> {
    // The call ends, and tells this.
    Ends(Held<T, E>),
    // The keeper looks again. It tells this if no round is left.
    Waits(Held<T, E>),
}

// What a value means at this moment: `None` if its token is to be renewed.
pub(crate) fn verdict<T: SharedToken + Drop, E>(
    value: StoredValue<T>,
    now: Timestamp,
    settings: KeeperSettings,
) -> Option<Outcome<T, E>>
    ensures { result ≡ verdict T.is_good settings now value }
{
    let StoredValue { version, content } = value;
    match content {
        Content::AtRest(token) => {
            if token.is_good(now, settings.margin) {
                Some(Outcome::Ends(Held::Good(token)))
            } else {
                None
            }
        }
        Content::Marked(token, renewal) => {
            if token.is_good(now, settings.old_margin) {
                Some(Outcome::Ends(Held::Old {
                    renewal,
                    version,
                    token,
                }))
            } else {
                Some(Outcome::Waits(Held::Unfinished {
                    renewal,
                    version,
                    token,
                }))
            }
        }
        Content::Empty => Some(Outcome::Ends(Held::LoggedOut)),
    }
}

// What the end of the renewal of this name means.
pub(crate) fn after_renewal<T, E>(renewal: u128, renewed: Renewed<T, E>) -> Outcome<T, E>
    ensures { result ≡ after_renewal renewal renewed }
{
    match renewed {
        Renewed::Kept(token) => Outcome::Ends(Held::Good(token)),
        Renewed::Unkept { version, token } => Outcome::Ends(Held::Unkept {
            renewal,
            version,
            token,
        }),
        Renewed::InUse { renewal, token } => Outcome::Waits(Held::InUse { renewal, token }),
        Renewed::LoggedOut => Outcome::Ends(Held::LoggedOut),
        Renewed::Lost => Outcome::Waits(Held::Lost),
        Renewed::Unanswered {
            version,
            token,
            error,
        } => Outcome::Ends(Held::Unanswered {
            renewal,
            version,
            token,
            error,
        }),
        Renewed::Unclear { version, token } => Outcome::Ends(Held::Unclear {
            renewal,
            version,
            token,
        }),
        Renewed::Unread => Outcome::Waits(Held::Unread),
        Renewed::NoNextVersion(token) => Outcome::Ends(Held::NoNextVersion(token)),
    }
}
