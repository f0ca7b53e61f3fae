//! Shows what each call returns when memory is refused: runs the rows that standard input names,
//! one on each line, and prints the result of each.
//!
//! Printing a row takes no memory, so a growth that is refused belongs to one of its calls, or to
//! the values that they are called with. The exit status is that of `run_rows`.

#![tactic(auto)]

mod additions;
mod client_rows;
mod clients;
mod counting_client;
mod exchanges;
mod keepers;
mod logins;
mod polls;
mod post_rows;
mod posts;
mod recorder;
mod replies;
mod rows;
mod show;
mod url_rows;
mod urls;
mod web_logins;

use oauth2_refusals_support::run_rows;
use rows::MemoryRows;
use std::io;
use std::process::ExitCode;

fn main(rt: HostRuntime) -> ExitCode {
    run_rows::<MemoryRows, _, _>(rt.alloc(), &mut rt.reader(), &mut io::writer(&rt))
}
