//! Runs the command of a JSON script, with a client that returns the replies of the script.

#![tactic(auto)]

mod exit;
#[cfg(test)]
mod streams;
#[cfg(test)]
mod tests;

use exit::exit_of;
use oauth2_commands::{ScriptSource, run_script};
use std::io;
use std::process::ExitCode;

// Nothing is written to standard error: a `RunFault` shows only in the exit status.
fn main(rt: HostRuntime) -> ExitCode {
    let mut reader = ScriptSource::new(rt.reader());
    let mut writer = io::writer(&rt);
    exit_of(run_script(rt.alloc(), &mut reader, &mut writer))
}
