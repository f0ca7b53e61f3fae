//! The names of the rows that are run.

ghost use Rattle.std.specs.Prelude.{◌≤◌, length, IfOk};

use crate::ended::Ended;
use std::io::Read;

// The input is read at most this many times.
const MOST_READS: u32 = 64;

fn fill<R: Read>(reader: &mut R, bytes: &mut [u8]) -> Result<usize, Ended>
    ensures { IfOk result (λ n. n ≤ length bytes.new) }
{
    let mut filled = 0;
    for _ in 0..MOST_READS {
        match reader.read(&mut bytes[filled..])? {
            0 => return Ok(filled),
            n => filled += n,
        }
    }
    Ok(filled)
}

// Reads the names of the rows, one on each line, into `bytes`. Input that is not UTF-8 ends the run
// with `Unknown`.
pub(crate) fn read_names<'a, R: Read>(
    reader: &mut R,
    bytes: &'a mut [u8],
) -> Result<&'a str, Ended> {
    let filled = fill(reader, bytes)?;
    match str::from_utf8(&bytes[..filled]) {
        Ok(names) => Ok(names),
        Err(_) => Err(Ended::Unknown),
    }
}
