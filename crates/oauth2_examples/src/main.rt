//! Examples of programs that call the crates of this repository. The first argument names the one
//! that runs.

#![tactic(auto)]

mod over_connection;
mod stored_token;

use over_connection::over_connection;
use std::env;
use std::process::ExitCode;
use stored_token::stored_token;

fn usage(rt: &HostRuntime) -> ExitCode {
    let _ = rt.eprintln("usage: oauth2_examples over_connection|stored_token SETTINGS.json");
    ExitCode::from(2)
}

fn main(rt: HostRuntime) -> ExitCode {
    let Ok(mut arguments) = env::args(&rt) else {
        return usage(&rt);
    };
    let _program = arguments.next();
    let (Some(example), Some(argument)) = (arguments.next(), arguments.next()) else {
        return usage(&rt);
    };
    match example.as_str() {
        "over_connection" => over_connection(&rt, argument.as_str()),
        "stored_token" => stored_token(&rt, argument.as_str()),
        _ => usage(&rt),
    }
}
