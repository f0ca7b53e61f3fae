//! Finds and runs the row of a name.

use crate::client_rows::{ClientRow, client_row, show_client_row, texts_of};
use crate::clients::{ClientTexts, RowClient, client_of, is_as};
use oauth2::TryClone;
use oauth2_refusals_support::{Ended, Rows, show_value_row, value_row};
use std::alloc::Global;
use std::io::Write;

/// The rows that need a client, and those that need none.
pub struct MemoryRows;

impl Rows for MemoryRows {
    fn show_row<W: Write>(alloc: Global, name: &str, out: &mut W) -> Result<bool, Ended> {
        if let Some(row) = value_row(name) {
            show_value_row(alloc, row, out)?;
            return Ok(true);
        }
        match client_row(name) {
            Some(row) => show_with_client(alloc, texts_of(name), row, out)?,
            None => return Err(Ended::Unknown),
        }
        Ok(true)
    }
}

// Runs a row that needs a client, and prints whether the client is unchanged after it.
fn show_with_client<W: Write>(
    alloc: Global,
    texts: ClientTexts<'_>,
    row: ClientRow,
    out: &mut W,
) -> Result<(), Ended> {
    let client = client_of(alloc, texts)?;
    let copy = client.try_clone(alloc)?;
    show_beside(alloc, &client, &copy, row, out)
}

fn show_beside<W: Write>(
    alloc: Global,
    client: &RowClient,
    copy: &RowClient,
    row: ClientRow,
    out: &mut W,
) -> Result<(), Ended> {
    let ended = show_client_row(alloc, client, row, out);
    show_client(alloc, client, copy, out)?;
    ended
}

fn show_client<W: Write>(
    alloc: Global,
    client: &RowClient,
    copy: &RowClient,
    out: &mut W,
) -> Result<(), Ended> {
    if is_as(alloc, client, copy)? {
        writeln!(out, "client as before")?;
    } else {
        writeln!(out, "client changed")?;
    }
    Ok(())
}
