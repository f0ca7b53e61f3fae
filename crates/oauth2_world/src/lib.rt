//! The client and the clock of a script's run, which return what the script says, and the events of
//! a run.

#![tactic(auto)]

mod adapted;
mod clock;
mod event;
mod replay;
mod texts;
mod world;

pub use adapted::adapt_replies;
pub use clock::ScriptedClock;
pub use event::{ErrorMembers, Event, Events, Fault, FaultDetails, FaultKind};
pub use replay::{NoReply, ScriptedClient};
pub use texts::quoted;
pub use world::ScriptedWorld;
