//! What a keeper does next, and what the store has.

ghost use Rattle.std.specs.Prelude.{◌≡◌};
ghost use Rattle.oauth2_shared_keeper_command.specs.Renewal.{action_of};

use oauth2_shared_token::Step;

/// What the store has. A token is told by its number, here and below.
#[derive(Clone, Copy, Debug)]
pub struct Stored {
    pub version: u64,
    pub token: usize,
    /// The name of the renewal that marked it.
    pub mark: Option<u128>,
}

/// What a keeper asks the store to put in the place of a version.
#[derive(Clone, Copy, Debug)]
pub struct Replacement {
    pub version: u128,
    pub token: usize,
    pub mark: Option<u128>,
}

/// What a keeper does next.
#[derive(Clone, Copy, Debug)]
pub enum Action {
    /// It loads what is stored.
    Load,
    /// It asks the store for this.
    Replace(Replacement),
    /// It sends the refresh token of this token (RFC 6749, 6).
    Refresh(usize),
    /// Its renewal is over.
    Nothing,
}

/// What a renewal of this name does in this step; `before` is what it did last.
pub fn action_of(before: Action, name: u128, step: &Step<usize>) -> Action
    ensures { result ≡ action_of before name step.now }
{
    match step {
        Step::Look => Action::Load,
        Step::Mark(version, token) => Action::Replace(Replacement {
            version: *version as u128,
            token: *token,
            mark: Some(name),
        }),
        Step::Send(_, token) => Action::Refresh(*token),
        Step::Keep(version, token) => Action::Replace(Replacement {
            version: *version as u128 + 1,
            token: *token,
            mark: None,
        }),
        Step::GiveBack(version, token) => Action::Replace(Replacement {
            version: *version as u128 + 1,
            token: *token,
            mark: None,
        }),
        Step::Repeat => before,
        Step::InUse(_, _) => Action::Nothing,
        Step::LoggedOut => Action::Nothing,
        Step::End => Action::Nothing,
    }
}
