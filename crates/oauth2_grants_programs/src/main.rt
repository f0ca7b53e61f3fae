//! Short programs to copy from, for grants and other ways to authenticate a client. The argument
//! names the program to run. Without an argument, all run.

#![tactic(auto)]

mod canned_client;
mod pushed_login;
mod token_exchange;
mod workload;

use anyhow::anyhow;
use std::env;

fn run(rt: HostRuntime, name: &str) -> anyhow::Result<()> {
    match name {
        "pushed_login" => pushed_login::main(rt),
        "token_exchange" => token_exchange::main(rt),
        "workload" => workload::main(rt),
        _ => Err(anyhow!("no program has this name")),
    }
}

fn main(rt: HostRuntime) -> anyhow::Result<()> {
    if let Some(name) = env::args(&rt)?.nth(1) {
        return run(rt, name.as_str());
    }
    for name in ["token_exchange", "workload", "pushed_login"] {
        println!(rt; "{name}:")?;
        run(rt.clone()?, name)?;
    }
    Ok(())
}
