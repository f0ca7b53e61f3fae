//! Tests of renewals, keepers and caches of tokens that many processes share, and a program with two
//! parts, of which the first line of standard input chooses one:
//!
//! - `settings ..`: a keeper whose store, server and clock are on the other side of standard input and
//!   output (`piped_keeper`), for `tools/oauth2` and `tools/try-shared-keepers`.
//! - `fleets`: a fleet of renewals for each further line (`fleets`), for
//!   `tools/compare-shared-tokens`. The line `fleets` may also follow the calls of a keeper, as in the
//!   file `stdin`, of which the program has to print the file `stdout`.

#![tactic(auto)]

#[cfg(test)]
mod caches;
mod fleets;
#[cfg(test)]
mod keepers;
mod piped_keeper;
mod support;

// The line behind which fleets are listed.
const FLEETS: &str = "fleets\n";

fn main(rt: HostRuntime) -> anyhow::Result<()> {
    let mut first = String::new(rt.alloc());
    rt.read_line(&mut first)?;
    if first.as_str() == FLEETS || piped_keeper::run_until(&rt, first.as_str(), FLEETS)? {
        fleets::run_lines(&rt)?;
    }
    Ok(())
}
