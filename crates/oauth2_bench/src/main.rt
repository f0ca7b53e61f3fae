//! Measures what the calls of the client cost: runs each operation a few times, or times many runs
//! of one operation.
//!
//! Without arguments it runs every operation and prints its name, how many bytes its last
//! request's body had and a length of what was read. With `--time NAME ITERATIONS` it prints the
//! nanoseconds that ITERATIONS runs of one operation took.

#![tactic(auto)]

mod arguments;
mod authorization_url;
mod canned;
mod challenge;
mod client_credentials;
mod clients;
mod code_exchange;
mod device_poll;
mod fault;
mod inputs;
mod introspection_request;
mod operation;
mod reading;
mod table;

use arguments::{Mode, asked_mode};
use fault::Fault;
use std::process::ExitCode;
use table::{Bench, NAMES};

// How often each operation runs without arguments.
const PLAIN_ITERATIONS: u64 = 3;

fn print_all(rt: &HostRuntime) -> Result<(), Fault> {
    let bench = Bench {
        clock: rt,
        alloc: rt.alloc(),
        iterations: PLAIN_ITERATIONS,
    };
    for name in &NAMES {
        let done = bench.measure(name)?.done;
        println!(rt; "{name} {} {}", done.sent, done.read)?;
    }
    Ok(())
}

fn print_time(rt: &HostRuntime, name: &str, iterations: u64) -> Result<(), Fault> {
    let bench = Bench {
        clock: rt,
        alloc: rt.alloc(),
        iterations,
    };
    println!(rt; "{}", bench.measure(name)?.nanoseconds)?;
    Ok(())
}

fn run(rt: &HostRuntime) -> Result<(), Fault> {
    match asked_mode(rt)? {
        Mode::Plain => print_all(rt),
        Mode::Time { name, iterations } => print_time(rt, name.as_str(), iterations),
    }
}

// Exit status 0: the program did what was asked; 1: it failed; 2: the arguments are wrong.
fn main(rt: HostRuntime) -> ExitCode {
    match run(&rt) {
        Ok(()) => ExitCode::from(0),
        Err(Fault::Arguments) => ExitCode::from(2),
        Err(_) => ExitCode::from(1),
    }
}
