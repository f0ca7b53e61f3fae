//! The arguments of the program.

use crate::fault::Fault;
use std::env;

/// What the program runs.
#[derive(Drop)]
pub enum Mode {
    /// Every operation, a few times each.
    Plain,
    /// One operation, timed over this many runs.
    Time { name: String, iterations: u64 },
}

/// Reads the arguments: none, or `--time NAME ITERATIONS`.
pub fn asked_mode(rt: &HostRuntime) -> Result<Mode, Fault> {
    let mut arguments = env::args(rt)?;
    let _program = arguments.next();
    let Some(option) = arguments.next() else {
        return Ok(Mode::Plain);
    };
    let (Some(mut name), Some(number)) = (arguments.next(), arguments.next()) else {
        return Err(Fault::Arguments);
    };
    if option.as_str() != "--time" {
        return Err(Fault::Arguments);
    }
    // The name is in memory while the operation runs, so it takes no more room than it needs.
    name.shrink_to_fit();
    match number.as_str().parse::<u64>() {
        Ok(iterations) => Ok(Mode::Time { name, iterations }),
        Err(_) => Err(Fault::Arguments),
    }
}
