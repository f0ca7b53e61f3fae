//! Sends one request over a connection that is already open: writes the request to standard output,
//! and reads the reply from standard input. `socat` or a similar program opens the connection, with
//! TLS:
//!
//!     socat OPENSSL:as.example:443 EXEC:'oauth2_examples over_connection settings.json'
//!
//! The answer is one line of JSON on standard error. The exit status is 0 if there is an answer, 1
//! if the request got none, and 2 if a setting is wrong; then nothing is written to the connection.

pub mod fault;
mod get;
pub mod requests;
pub mod settings;

use fault::Fault;
use oauth2::ParseCause;
use oauth2_http1::{Duplex, Http1Client, Over};
use serde_json::Value;
use settings::Settings;
use std::io::{Stdin, Stdout};
use std::process::ExitCode;

/// The HTTP client of a run: its only connection is standard input and output.
pub type HttpClient = Http1Client<Over<Duplex<Stdin, Stdout>>>;

/// Makes the request that the settings file at `path` names, and prints the answer or the error.
pub fn over_connection(rt: &HostRuntime, path: &str) -> ExitCode {
    ended(rt, run(rt, path))
}

/// Prints the answer or the error on standard error, and returns the exit status.
pub fn ended(rt: &HostRuntime, end: Result<Value, Fault>) -> ExitCode {
    let (line, status) = match end {
        Ok(answer) => (answer.to_string(rt.alloc()), 0),
        Err(fault) => (fault.line(rt.alloc()), fault.status()),
    };
    // If standard error cannot be written, only the exit status shows how the run ended.
    let _ = match line {
        Ok(line) => rt.eprintln(line),
        Err(_) => rt.eprintln("{\"error\":\"Out of memory\"}"),
    };
    ExitCode::from(status)
}

fn run(rt: &HostRuntime, path: &str) -> Result<Value, Fault> {
    let mut settings = Settings::read(rt, path)?;
    let mut http_client = connected(rt, &mut settings)?;
    ask(&mut settings, &mut http_client)
}

/// Makes the HTTP client of a run, with the limits on a reply that the settings have.
pub fn connected(rt: &HostRuntime, settings: &mut Settings<'_>) -> Result<HttpClient, Fault> {
    let connection = Over::new(Duplex {
        reader: rt.stdin(),
        writer: rt.stdout(),
    });
    let bounds = settings.bounds()?;
    Ok(Http1Client::new(rt.alloc(), connection).set_bounds(bounds))
}

// Makes the request that the setting `command` names.
fn ask(settings: &mut Settings<'_>, http_client: &mut HttpClient) -> Result<Value, Fault> {
    let command: String = settings.needed("command")?;
    match command.as_str() {
        "client_credentials" => requests::client_credentials(settings, http_client),
        "password" => requests::password(settings, http_client),
        "code" => requests::code(settings, http_client),
        "refresh" => requests::refresh(settings, http_client),
        "introspect" => requests::introspect(settings, http_client),
        "revoke" => requests::revoke(settings, http_client),
        "get" => get::get(settings, http_client),
        _ => Err(Fault::setting(settings.alloc(), "command", ParseCause::Refused)),
    }
}
