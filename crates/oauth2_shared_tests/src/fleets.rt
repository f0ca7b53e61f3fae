//! Fleets of renewals that the lines of standard input list, and what happens in them.
//!
//! A line is a run: words separated by one space, which say what happens next to the renewals of a
//! store in memory. At first the store has the token 0 under version 0, at rest, and each renewal is
//! about to look. Renewals are named by their numbers. Each token that the server gives or that a
//! login brings is the next number.
//!
//! - `l1`: renewal 1, about to look, loads what is stored. `o1.0`: the load shows an old value, the
//!   0th that was ever stored.
//! - `d1`: the store takes what renewal 1 asks of it, if it has that version, and says so. `x1`: the
//!   same, but its reply is lost. `n1`: renewal 1 is told nothing, and nothing is taken now.
//! - `a1`: the server gives renewal 1 a token. `s1`: its caller wants nothing to be sent any more.
//! - `t0`: the store takes the 0th request that was ever asked of it, late or once more.
//! - `i`, `w`: a caller logs in anew over the mark that stands, or allows its token to be used again.
//!   `g`: somebody logs in where no mark stands. `q`: somebody logs out.
//!
//! Of each word it prints `1:`, the step of that renewal and `|`, if the word names one, and what is
//! stored; `?` for a word that cannot happen, which changes nothing. A step is `look`, `mark`, `send`,
//! `keep` or `back` (each with a version and a token), `repeat`, `use` (with the renewal that uses the
//! token), `out` or `end`. What is stored is `2=1` for token 1 at rest under version 2, `1=0*3` for
//! token 0 marked by renewal 3, and `4=-` for none. A line that begins with `#` is a heading, and is
//! printed as it is.

mod fleet;
mod items;
mod store;
mod words;

use fleet::Fleet;
use items::write_item;
use std::alloc::Global;
use std::io::{self, BufRead, BufReader, BufWriter, Write};
use words::Word;

// Runs the fleet of a line, and writes what happens.
fn run_line<W: Write>(alloc: Global, line: &str, writer: &mut W) -> anyhow::Result<()> {
    let mut fleet = Fleet::new(alloc)?;
    let mut is_first = true;
    for text in line.split_whitespace() {
        if !is_first {
            write!(writer, " ")?;
        }
        is_first = false;
        match Word::read(text) {
            Some(word) => {
                if fleet.happens(word)? {
                    write_item(&fleet, word, writer)?;
                } else {
                    write!(writer, "?")?;
                }
            }
            None => write!(writer, "?")?,
        }
    }
    writeln!(writer)?;
    Ok(())
}

/// Runs the fleets of the lines that are left of standard input, and prints what happens.
pub fn run_lines(rt: &HostRuntime) -> anyhow::Result<()> {
    let alloc = rt.alloc();
    let mut writer = BufWriter::new(alloc, io::writer(rt))?;
    for line in BufReader::new(alloc, rt.reader())?.lines(alloc) {
        let line = line?;
        if line.starts_with('#') {
            writeln!(writer, "{line}")?;
        } else {
            run_line(alloc, &line, &mut writer)?;
        }
    }
    writer.flush()?;
    Ok(())
}
