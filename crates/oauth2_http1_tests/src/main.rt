//! Tests of the HTTP/1.1 clients over connections in memory, and a program with two of them.
//!
//! With a number as its argument the program makes one token exchange that many times, for
//! `tools/bench`. Without one it does what each line of standard input says:
//!
//! - `exchanges`: makes two exchanges over connections in memory, for `tools/refusals`.
//! - `client ..` or `call ..`: sets a client that uses connections again, or calls it, for
//!   `tools/compare-connections` (`piped_client`).
//!
//! It writes nothing to standard error. If memory or a stream fails where no line can say so, the exit
//! status is 3.

#![tactic(auto)]

#[cfg(test)]
mod connections;
#[cfg(test)]
mod deadlines;
mod exchanges;
mod piped_client;
mod support;

use exchanges::token_exchange::repeat;
use exchanges::two_exchanges::show_two_exchanges;
use piped_client::Pipe;
use std::process::ExitCode;
use std::{env, io};

// The number of token exchanges to make, if there is an argument.
fn asked_times(rt: &HostRuntime) -> Option<u64> {
    let mut arguments = env::args(rt).ok()?;
    let _program = arguments.next();
    arguments.next()?.as_str().parse::<u64>().ok()
}

// Does what the lines of standard input say.
fn run_lines(rt: &HostRuntime) -> io::Result<()> {
    let pipe = Pipe::new(rt)?;
    let mut client = piped_client::default_client(&pipe);
    for _ in 0..u64::MAX {
        let Some(line) = pipe.line()? else {
            break;
        };
        let mut words = line.as_str().split_whitespace();
        match words.next() {
            Some("exchanges") => show_two_exchanges(rt.alloc(), &mut io::writer(rt))?,
            Some("client") => match piped_client::client_of(&pipe, &mut words) {
                Some(other) => {
                    client = other;
                    rt.println("= client")?;
                }
                None => rt.println("= ?")?,
            },
            Some("call") => match piped_client::call(rt.alloc(), &mut client, &mut words) {
                Some(result) => println!(rt; "= {result}")?,
                None => rt.println("= ?")?,
            },
            _ => rt.println("= ?")?,
        }
    }
    Ok(())
}

fn run(rt: &HostRuntime) -> io::Result<()> {
    match asked_times(rt) {
        Some(times) => repeat(rt.alloc(), times, &mut io::writer(rt)),
        None => run_lines(rt),
    }
}

fn main(rt: HostRuntime) -> ExitCode {
    match run(&rt) {
        Ok(()) => ExitCode::from(0),
        Err(_) => ExitCode::from(3),
    }
}
