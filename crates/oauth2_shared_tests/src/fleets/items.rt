//! What is printed of a word: the step of its renewal, and what is stored.

use crate::fleets::fleet::Fleet;
use crate::fleets::store::{Held, Stored};
use crate::fleets::words::Word;
use oauth2_shared_token::Step;
use std::io::{self, Write};

fn write_step<W: Write>(step: &Step<u64>, writer: &mut W) -> io::Result<()> {
    match step {
        Step::Look => write!(writer, "look"),
        Step::Mark(version, token) => write!(writer, "mark.{version}.{token}"),
        Step::Send(version, token) => write!(writer, "send.{version}.{token}"),
        Step::Keep(version, token) => write!(writer, "keep.{version}.{token}"),
        Step::GiveBack(version, token) => write!(writer, "back.{version}.{token}"),
        Step::Repeat => write!(writer, "repeat"),
        Step::InUse(renewal, token) => write!(writer, "use.{renewal}.{token}"),
        Step::LoggedOut => write!(writer, "out"),
        Step::End => write!(writer, "end"),
    }
}

fn write_stored<W: Write>(stored: Stored, writer: &mut W) -> io::Result<()> {
    let version = stored.version;
    match stored.held {
        Held::AtRest(token) => write!(writer, "{version}={token}"),
        Held::Marked(token, renewal) => write!(writer, "{version}={token}*{renewal}"),
        Held::Empty => write!(writer, "{version}=-"),
    }
}

/// Writes what is there after a word that happened.
pub fn write_item<W: Write>(fleet: &Fleet, word: Word, writer: &mut W) -> io::Result<()> {
    if let Word::Of(name, _) = word {
        write!(writer, "{name}:")?;
        match fleet.step_of(name) {
            Some(step) => write_step(step, writer)?,
            None => write!(writer, "look")?,
        }
        write!(writer, "|")?;
    }
    write_stored(fleet.stored(), writer)
}
