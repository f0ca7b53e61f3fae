//! A service that keeps its token over a restart. It starts with the token that it stored, requests
//! another when that one is about to expire, and stores its token before it ends. After a failed
//! request it makes no other one for 30 seconds, or longer if the server asks for that. Standard input and output are its connection, as
//! in `over_connection`:
//!
//!     socat OPENSSL:as.example:443 EXEC:'oauth2_examples stored_token settings.json'
//!
//! It needs the token for each of the `jobs` of its settings, and prints the token or the error for
//! each.

use crate::over_connection::fault::Fault;
use crate::over_connection::requests::{TokenClient, token_client};
use crate::over_connection::settings::Settings;
use crate::over_connection::{HttpClient, connected, ended};
use jiff::Timestamp;
use oauth2::{ParamText, compact, read_body};
use oauth2_keeper::{
    BasicPatientKeeper, BasicTokenKeeper, PatientError, RenewalTimes, TokenKeeper,
};
use oauth2_retry_after::TellsBusy;
use oauth2_stored_token::{StoredToken, start_from_stored, to_stored};
use serde_json::{Value, json};
use std::alloc::{AllocError, Global};
use std::fs;
use std::io::ErrorKind;
use std::process::ExitCode;
use std::time::Duration;

// A token is not used in the last seconds of its lifetime, so that it is still good on its way.
const MARGIN_SECONDS: u64 = 10;

// The lifetime of a token whose reply has no `expires_in`.
const LIFETIME_SECONDS: u64 = 300;

// After a failed request, no other request is made for this long.
const WAIT_SECONDS: u64 = 30;

// If a server that is busy asks for a longer wait, no other request is made for at most this long.
const MOST_WAIT_SECONDS: u64 = 600;

/// Does the jobs that the settings file at `path` names, and prints a list with their results.
pub fn stored_token(rt: &HostRuntime, path: &str) -> ExitCode {
    ended(rt, run(rt, path))
}

fn run(rt: &HostRuntime, path: &str) -> Result<Value, Fault> {
    let mut settings = Settings::read(rt, path)?;
    let client = token_client(&mut settings)?;
    serve(rt, &mut settings, &client)
}

fn serve(
    rt: &HostRuntime,
    settings: &mut Settings<'_>,
    client: &TokenClient,
) -> Result<Value, Fault> {
    let store: String = settings.needed("store")?;
    let mut keeper = keeper(rt, settings, client, store.as_str())?;
    let answers = answers(rt, settings, &mut keeper);
    save(rt, keeper.keeper(), store.as_str())?;
    Ok(Value::Array(answers?))
}

// The keeper, with the token that was stored, if there is one.
fn keeper<'a>(
    rt: &HostRuntime,
    settings: &mut Settings<'_>,
    client: &'a TokenClient,
    store: &str,
) -> Result<BasicPatientKeeper<'a>, Fault> {
    let times = RenewalTimes {
        margin: Duration::from_secs(MARGIN_SECONDS),
        default_lifetime: Duration::from_secs(LIFETIME_SECONDS),
    };
    let mut keeper: BasicTokenKeeper<'a> = TokenKeeper::with_times(client, None, times);
    restore(rt, &mut keeper, store)?;
    keeper.add_scopes(rt.alloc(), settings.scopes()?)?;
    if let Some(audience) = settings.optional::<String>("audience")? {
        let name = ParamText::Borrowed("audience");
        keeper.add_extra_param(rt.alloc(), name, ParamText::Owned(audience))?;
    }
    let keeper = keeper
        .set_retry_after(Duration::from_secs(WAIT_SECONDS))
        .heed_retry_after(Duration::from_secs(MOST_WAIT_SECONDS));
    Ok(keeper.use_token_until_end())
}

// Starts with the stored token, which has to be of this client and of this token endpoint.
fn restore(rt: &HostRuntime, keeper: &mut BasicTokenKeeper<'_>, store: &str) -> Result<(), Fault> {
    match load(rt, store)? {
        Some(stored) => match start_from_stored(keeper, stored) {
            Ok(()) => Ok(()),
            Err(error) => Err(Fault::unanswered(rt.alloc(), &error)),
        },
        None => Ok(()),
    }
}

fn load(rt: &HostRuntime, store: &str) -> Result<Option<StoredToken>, Fault> {
    match fs::read_to_string(rt, store) {
        Ok(text) => Ok(Some(read_body(rt.alloc(), text.as_bytes())?)),
        Err(error) if error.kind() == ErrorKind::NotFound => Ok(None),
        Err(_) => Err(Fault::unreadable(rt.alloc(), store)),
    }
}

// Writes another file and renames it, so the store always holds the whole old or new token.
fn save(rt: &HostRuntime, keeper: &BasicTokenKeeper<'_>, store: &str) -> Result<(), Fault> {
    let alloc = rt.alloc();
    let Some(stored) = to_stored(alloc, keeper)? else {
        return Ok(());
    };
    let Ok(text) = compact(alloc, &stored) else {
        return Err(Fault::Memory);
    };
    let new = format!(in alloc; "{store}.new")?;
    if fs::write(rt, new.as_str(), text.as_str()).is_err()
        || fs::rename(rt, new.as_str(), store).is_err()
    {
        return Err(Fault::unwritable(alloc, store));
    }
    Ok(())
}

fn answers(
    rt: &HostRuntime,
    settings: &mut Settings<'_>,
    keeper: &mut BasicPatientKeeper<'_>,
) -> Result<Vec<Value>, Fault> {
    let mut http_client = TellsBusy::new(connected(rt, settings)?);
    let mut answers = Vec::new(rt.alloc());
    for job in settings.texts("jobs")? {
        answers.push(answer(rt, keeper, &mut http_client, job)?)?;
    }
    Ok(answers)
}

// The result of a job as JSON: the token, the error, or when the wait ends.
fn answer(
    rt: &HostRuntime,
    keeper: &mut BasicPatientKeeper<'_>,
    http_client: &mut TellsBusy<HttpClient>,
    job: String,
) -> Result<Value, Fault> {
    let alloc = rt.alloc();
    let Ok(now) = Timestamp::now(rt) else {
        return Err(Fault::unreadable(alloc, "clock"));
    };
    match keeper.token(alloc, now, http_client) {
        Ok(token) => {
            let token = String::from_str(alloc, token.secret().as_str())?;
            Ok(json!(in alloc; {"job": job, "token": token})?)
        }
        Err(PatientError::Request(error)) => {
            let error = error.to_string(alloc)?;
            Ok(json!(in alloc; {"job": job, "error": error})?)
        }
        Err(PatientError::OtherTokenType) => {
            Ok(json!(in alloc; {"job": job, "error": "the token is no bearer token"})?)
        }
        Err(PatientError::Waits(until)) => {
            let until = moment(alloc, until)?;
            Ok(json!(in alloc; {"job": job, "waits_until": until})?)
        }
    }
}

// A time as text, or null.
fn moment(alloc: Global, moment: Option<Timestamp>) -> Result<Value, AllocError> {
    match moment {
        Some(moment) => Ok(Value::String(moment.to_string(alloc)?)),
        None => Ok(Value::Null),
    }
}
