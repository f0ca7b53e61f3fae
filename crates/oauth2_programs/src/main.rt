//! Short programs to copy from. The argument names the program to run. Without an argument, all
//! programs run that need no user.

#![tactic(auto)]

mod canned_client;
mod client_credentials;
mod device;
mod discovery;
mod error_codes;
mod errors;
mod full_client;
mod implicit;
mod kept_token;
mod login;
mod openid;
mod password;
mod refresh;
mod resource_server;
mod revocation;

use anyhow::anyhow;
use std::env;

// The programs that run without an argument, in this order.
const PROGRAMS: [&str; 13] = [
    "full_client",
    "discovery",
    "openid",
    "client_credentials",
    "password",
    "refresh",
    "kept_token",
    "device",
    "resource_server",
    "revocation",
    "implicit",
    "error_codes",
    "errors",
];

fn run(rt: HostRuntime, name: &str) -> anyhow::Result<()> {
    match name {
        "client_credentials" => client_credentials::main(rt),
        "device" => device::main(rt),
        "discovery" => discovery::main(rt),
        "error_codes" => error_codes::main(rt),
        "errors" => errors::main(rt),
        "full_client" => full_client::main(rt),
        "implicit" => implicit::main(rt),
        "kept_token" => kept_token::main(rt),
        "login" => login::main(rt),
        "openid" => openid::main(rt),
        "password" => password::main(rt),
        "refresh" => refresh::main(rt),
        "resource_server" => resource_server::main(rt),
        "revocation" => revocation::main(rt),
        _ => Err(anyhow!("no program has this name")),
    }
}

fn main(rt: HostRuntime) -> anyhow::Result<()> {
    if let Some(name) = env::args(&rt)?.nth(1) {
        return run(rt, name.as_str());
    }
    for name in PROGRAMS {
        println!(rt; "{name}:")?;
        run(rt.clone()?, name)?;
    }
    Ok(())
}
