//! An operation that is timed, and the loop that times it.

use crate::fault::Fault;
use std::alloc::Global;
use std::rt::Clock;
use std::time::Instant;

/// Shows that a run did its work: `sent` is the length of its request's body in bytes, or 0 if it
/// sent none, and `read` is a length of its result.
#[derive(Clone, Copy, Debug, PartialEq, Eq)]
pub struct Done {
    pub sent: usize,
    pub read: usize,
}

/// How many nanoseconds some runs of an operation took, and what the last of them did.
#[derive(Clone, Copy, Debug)]
pub struct Run {
    pub nanoseconds: u128,
    pub done: Done,
}

/// An operation that can be timed.
pub trait Operation {
    fn run(&mut self, alloc: Global) -> Result<Done, Fault>;
}

fn repeat<O: Operation>(alloc: Global, operation: &mut O, iterations: u64) -> Result<Done, Fault> {
    let mut done = Done { sent: 0, read: 0 };
    for _ in 0..iterations {
        done = operation.run(alloc)?;
    }
    Ok(done)
}

/// Runs an operation `iterations` times, and measures how long that takes.
pub fn timed<O: Operation + Drop>(
    clock: &impl Clock,
    alloc: Global,
    mut operation: O,
    iterations: u64,
) -> Result<Run, Fault> {
    let start = Instant::now(clock)?;
    let done = repeat(alloc, &mut operation, iterations)?;
    let time = start.elapsed(clock)?;
    Ok(Run {
        nanoseconds: time.as_nanos(),
        done,
    })
}
