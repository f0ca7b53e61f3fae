//! A fleet: many renewals over one store. What a renewal does next, `next_turn` says.

use crate::fleets::store::{Held, Request, Store, Stored};
use crate::fleets::words::{Event, Word};
use oauth2_shared_token::{Phase, Step, Told, Turn, next_turn};
use std::alloc::{AllocError, Global};
use std::mem;

/// A renewal, and what it asked of the store at last.
#[derive(Drop)]
struct Renewal {
    name: u64,
    turn: Turn<u64>,
    asked: Option<Request>,
}

impl Renewal {
    fn new(name: u64) -> Renewal {
        Renewal {
            name,
            turn: Turn {
                phase: Phase::Looking,
                step: Step::Look,
            },
            asked: None,
        }
    }

    /// Tells it this, and returns what it newly asks of the store.
    fn tell(&mut self, told: Told<u64>) -> Option<Request> {
        let name = u128::from(self.name);
        let phase = mem::replace(&mut self.turn.phase, Phase::Over);
        self.turn = next_turn(name, phase, told);
        let asked = new_request(name, &self.turn.step);
        if asked.is_some() {
            self.asked = asked;
        }
        asked
    }

    /// What it asks of the store in its step.
    fn asks(&self) -> Option<Request> {
        match self.turn.step {
            Step::Mark(_, _) | Step::Keep(_, _) | Step::GiveBack(_, _) | Step::Repeat => self.asked,
            _ => None,
        }
    }
}

/// What a renewal that comes to this step asks of the store.
fn new_request(name: u128, step: &Step<u64>) -> Option<Request> {
    match step {
        Step::Mark(version, token) => Some(Request {
            version: *version,
            held: Held::Marked(*token, name),
        }),
        Step::Keep(version, token) | Step::GiveBack(version, token) => Some(Request {
            version: version.saturating_add(1),
            held: Held::AtRest(*token),
        }),
        _ => None,
    }
}

fn is_looking(step: &Step<u64>) -> bool {
    matches!(step, Step::Look)
}

fn is_sending(step: &Step<u64>) -> bool {
    matches!(step, Step::Send(_, _))
}

fn is_over(step: &Step<u64>) -> bool {
    matches!(step, Step::InUse(_, _) | Step::LoggedOut | Step::End)
}

/// The renewals of a run, their store, and all that they asked of it.
#[derive(Drop)]
pub struct Fleet {
    store: Store,
    renewals: Vec<Renewal>,
    requests: Vec<Request>,
    tokens: u64,
}

impl Fleet {
    /// The store has the token 0, and no renewal has begun.
    pub fn new(alloc: Global) -> Result<Fleet, AllocError> {
        Ok(Fleet {
            store: Store::new(alloc)?,
            renewals: Vec::new(alloc),
            requests: Vec::new(alloc),
            tokens: 0,
        })
    }

    /// The step of a renewal that something happened to.
    pub fn step_of(&self, name: u64) -> Option<&Step<u64>> {
        for renewal in &self.renewals {
            if renewal.name == name {
                return Some(&renewal.turn.step);
            }
        }
        None
    }

    /// What is stored now.
    pub fn stored(&self) -> Stored {
        self.store.now()
    }

    /// Does what a word says, and returns whether it can happen. If it cannot, nothing changes.
    pub fn happens(&mut self, word: Word) -> Result<bool, AllocError> {
        match word {
            Word::Of(name, event) => {
                let mut renewal = self.taken_out(name);
                let can_happen = self.happens_to(&mut renewal, event)?;
                self.renewals.push(renewal)?;
                Ok(can_happen)
            }
            Word::IsTaken(place) => match self.requests.get(place).copied() {
                Some(request) => {
                    self.store.take(request)?;
                    Ok(true)
                }
                None => Ok(false),
            },
            Word::SignsIn | Word::Allows | Word::LogsIn | Word::LogsOut => self.answer(word),
        }
    }

    fn taken_out(&mut self, name: u64) -> Renewal {
        match self.renewals.iter().position(|it| it.name == name) {
            Some(place) => self.renewals.swap_remove(place),
            None => Renewal::new(name),
        }
    }

    fn happens_to(&mut self, renewal: &mut Renewal, event: Event) -> Result<bool, AllocError> {
        let Some(told) = self.told(renewal, event)? else {
            return Ok(false);
        };
        if let Some(request) = renewal.tell(told) {
            self.requests.push(request)?;
        }
        Ok(true)
    }

    /// What a renewal is told, if this can happen to it.
    fn told(&mut self, renewal: &Renewal, event: Event) -> Result<Option<Told<u64>>, AllocError> {
        let step = &renewal.turn.step;
        match event {
            Event::Loads if is_looking(step) => Ok(Some(self.store.now().shown())),
            Event::LoadsOld(place) if is_looking(step) => {
                Ok(self.store.was(place).map(|stored| stored.shown()))
            }
            Event::HearsNothing if !is_over(step) => Ok(Some(Told::Nothing)),
            Event::Asks => self.replied(renewal.asks(), true),
            Event::AsksUnheard => self.replied(renewal.asks(), false),
            Event::IsGiven if is_sending(step) => Ok(Some(Told::Answer(self.new_token()))),
            Event::Stops if !is_over(step) => Ok(Some(Told::Stop)),
            _ => Ok(None),
        }
    }

    /// What a renewal is told that asks this of the store, unless the reply is lost.
    fn replied(
        &mut self,
        asked: Option<Request>,
        is_heard: bool,
    ) -> Result<Option<Told<u64>>, AllocError> {
        let Some(request) = asked else {
            return Ok(None);
        };
        let is_done = self.store.take(request)?;
        Ok(Some(if is_done && is_heard {
            Told::Done
        } else {
            Told::Nothing
        }))
    }

    fn new_token(&mut self) -> u64 {
        self.tokens = self.tokens.saturating_add(1);
        self.tokens
    }

    /// Does what a caller says of a mark, or somebody who logs in or out.
    fn answer(&mut self, word: Word) -> Result<bool, AllocError> {
        let held = match (word, self.store.now().held) {
            (Word::SignsIn, Held::Marked(_, _)) => Held::AtRest(self.new_token()),
            (Word::Allows, Held::Marked(token, _)) => Held::AtRest(token),
            (Word::LogsIn, Held::AtRest(_) | Held::Empty) => Held::AtRest(self.new_token()),
            (Word::LogsOut, _) => Held::Empty,
            _ => return Ok(false),
        };
        self.store.put(held)?;
        Ok(true)
    }
}
