//! Tests of logins with OpenID Connect: runs the rows that standard input names, one on each line,
//! and prints the result of each. The file `stdout` has the expected output:
//! `tools/tests/test_openid_rows.py` derives each line from the rows' inputs and the standards.
//! `tools/refusals` makes each row run out of memory.
//!
//! Printing does not allocate, so an allocation that fails belongs to a call of the row, or to the
//! values that it is called with. The exit status is that of `run_rows`.

#![tactic(auto)]

mod client;
mod ends;
mod rows;
mod starts;
mod tokens;

use oauth2_refusals_support::run_rows;
use rows::OpenIdRows;
use std::io;
use std::process::ExitCode;

fn main(rt: HostRuntime) -> ExitCode {
    run_rows::<OpenIdRows, _, _>(rt.alloc(), &mut rt.reader(), &mut io::writer(&rt))
}
