//! Runs the rows that a program's input names.

use crate::ended::Ended;
use crate::names::read_names;
use std::alloc::Global;
use std::io::{Read, Write};
use std::process::ExitCode;

// At most this many bytes of names are read.
const MOST_BYTES: usize = 4096;

/// The rows of a program, by their names.
pub trait Rows {
    /// Runs the row of this name, and prints its result. `Ok(false)`: memory ran out in a call
    /// whose error `Want` lacks, and the row's last line says so.
    fn show_row<W: Write>(alloc: Global, name: &str, out: &mut W) -> Result<bool, Ended>;
}

/// Runs the rows that the input names, one on each line, and prints the result of each.
///
/// Exit status 0: every row has a result; 1: memory ran out in one; 2: there is no such row, or a
/// call refused its arguments; 3: the input or the output failed.
pub fn run_rows<T: Rows, R: Read, W: Write>(
    alloc: Global,
    reader: &mut R,
    out: &mut W,
) -> ExitCode {
    match show_rows::<T, R, W>(alloc, reader, out) {
        Ok(true) => ExitCode::from(0),
        Ok(false) => ExitCode::from(1),
        Err(Ended::Unwritten) => ExitCode::from(3),
        Err(_) => ExitCode::from(2),
    }
}

// Runs the rows. Returns `true` if none of them ran out of memory.
fn show_rows<T: Rows, R: Read, W: Write>(
    alloc: Global,
    reader: &mut R,
    out: &mut W,
) -> Result<bool, Ended> {
    let mut bytes = [0u8; MOST_BYTES];
    let names = read_names(reader, &mut bytes)?;
    let mut is_fed = true;
    for name in names.lines() {
        writeln!(out, "row {name}")?;
        let ended = T::show_row(alloc, name, out);
        if !show_want(ended, out)? {
            is_fed = false;
        }
    }
    out.flush()?;
    Ok(is_fed)
}

// Prints the line for a row that ran out of memory, so that the next row runs; any other error ends
// the run.
fn show_want<W: Write>(ended: Result<bool, Ended>, out: &mut W) -> Result<bool, Ended> {
    match ended {
        Err(Ended::Starved(want)) => {
            writeln!(out, "memory {want:?}")?;
            Ok(false)
        }
        other => other,
    }
}
