//! A renewal of a keeper.

ghost use Rattle.std.specs.Prelude.{◌≡◌};
ghost use Rattle.oauth2_shared_keeper_command.specs.Renewal.{
  begun,
  over,
  going_on,
  turn_of,
  after_turn,
};

use crate::action::{Action, action_of};
use oauth2_shared_token::{Phase, Step, Told, Turn, next_turn};

/// A renewal of a keeper.
#[derive(Drop)]
pub struct Renewal {
    /// No other renewal has this name.
    pub name: u128,
    /// How far it is.
    pub phase: Phase<usize>,
    /// What it does next.
    pub action: Action,
}

fn copied(phase: &Phase<usize>) -> Phase<usize>
    ensures { result ≡ phase.now }
{
    match phase {
        Phase::Looking => Phase::Looking,
        Phase::Asking(version, token) => Phase::Asking(*version, *token),
        Phase::Leaving(version, token) => Phase::Leaving(*version, *token),
        Phase::Sending(version) => Phase::Sending(*version),
        Phase::Keeping(version, token) => Phase::Keeping(*version, *token),
        Phase::Returning(version, token) => Phase::Returning(*version, *token),
        Phase::Over => Phase::Over,
    }
}

impl Renewal {
    /// A renewal that begins.
    pub fn new(name: u128) -> Renewal
        ensures { result ≡ begun name }
    {
        Renewal {
            name,
            phase: Phase::Looking,
            action: Action::Load,
        }
    }

    /// No renewal.
    pub fn over() -> Renewal
        ensures { result ≡ over }
    {
        Renewal {
            name: 0,
            phase: Phase::Over,
            action: Action::Nothing,
        }
    }

    /// A copy.
    pub fn copied(&self) -> Renewal
        ensures { result ≡ self.now }
    {
        Renewal {
            name: self.name,
            phase: copied(&self.phase),
            action: self.action,
        }
    }

    /// The renewal that goes on: this one or, if it is over, a new one of this name.
    pub fn going_on(self, name: u128) -> Renewal
        ensures { result ≡ going_on name self.action self }
    {
        match self.action {
            Action::Nothing => Renewal::new(name),
            _ => self,
        }
    }

    /// The renewal after it was told this, and the step that it takes.
    pub fn after_turn(self, told: Told<usize>) -> (Renewal, Step<usize>)
        ensures renewal { result.0 ≡ after_turn self told }
        ensures step { result.1 ≡ (turn_of self told).step }
    {
        let Turn { phase, step } = next_turn(self.name, self.phase, told);
        let renewal = Renewal {
            name: self.name,
            phase,
            action: action_of(self.action, self.name, &step),
        };
        (renewal, step)
    }
}
