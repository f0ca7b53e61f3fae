//! The rows that need no client.

ghost use Rattle.std.specs.Prelude.{◌≡◌};

use crate::ended::{Ended, text};
use crate::show::{show_challenge, show_fault, show_run, show_sleep, show_text};
use crate::table::find;
use crate::values::{challenge, error_response, fault_in, rewritten, run, verifier_of_zeros};
use jiff::Timestamp;
use oauth2::basic::{BasicErrorResponse, BasicTokenResponse};
use oauth2::{
    ClientSecret, DevicePoll, PollAnswer, PollSettings, PollStep,
    StandardDeviceAuthorizationResponse, compact,
};
use std::alloc::Global;
use std::io::Write;
use std::time::Duration;

/// What a row runs that needs no client.
#[derive(Clone, Copy)]
pub enum ValueRow {
    Challenge,
    ShortestVerifier,
    LongestVerifier,
    ErrorResponse,
    HiddenSecret,
    Token(&'static str),
    NoToken(&'static str),
    Device(&'static str),
    NoDevice(&'static str),
    PollOverLists,
    Sleeps,
}

const ROWS: [(&str, ValueRow); 15] = [
    ("challenge", ValueRow::Challenge),
    ("shortest_verifier", ValueRow::ShortestVerifier),
    ("longest_verifier", ValueRow::LongestVerifier),
    ("error_response", ValueRow::ErrorResponse),
    ("hidden_secret", ValueRow::HiddenSecret),
    (
        "token_with_a_null_lifetime",
        ValueRow::Token(
            "{\"access_token\":\"t\",\"token_type\":\"BEARER\",\"scope\":\"\",\
            \"expires_in\":null}",
        ),
    ),
    ("no_token", ValueRow::NoToken("{\"token_type\":null}")),
    (
        "null_token_type",
        ValueRow::NoToken("{\"access_token\":\"t\",\"token_type\":null}"),
    ),
    (
        "broken_lifetime",
        ValueRow::NoToken("{\"access_token\":\"t\",\"token_type\":\"bearer\",\"expires_in\":1.5}"),
    ),
    (
        "negative_lifetime",
        ValueRow::NoToken("{\"access_token\":\"t\",\"token_type\":\"bearer\",\"expires_in\":-1}"),
    ),
    (
        "both_addresses",
        ValueRow::NoDevice(
            "{\"device_code\":\"d\",\"user_code\":\"u\",\"verification_uri\":\"https://v/\",\
            \"verification_url\":\"https://v/\",\"expires_in\":300}",
        ),
    ),
    (
        "null_interval",
        ValueRow::Device(
            "{\"device_code\":\"d\",\"user_code\":\"u\",\"verification_uri\":\"https://v/\",\
            \"expires_in\":300,\"interval\":null}",
        ),
    ),
    (
        "no_interval",
        ValueRow::Device(
            "{\"device_code\":\"d\",\"user_code\":\"u\",\"verification_uri\":\"https://v/\",\
            \"expires_in\":300}",
        ),
    ),
    ("poll_over_lists", ValueRow::PollOverLists),
    ("sleeps", ValueRow::Sleeps),
];

/// The row of this name, if there is one.
pub fn value_row(name: &str) -> Option<ValueRow> {
    find(&ROWS, name)
}

/// Runs a row, and prints its result.
pub fn show_value_row<W: Write>(alloc: Global, row: ValueRow, out: &mut W) -> Result<(), Ended> {
    match row {
        ValueRow::Challenge => show_challenge(out, &challenge(alloc)?),
        ValueRow::ShortestVerifier => show_text(out, verifier_of_zeros(alloc, 32)?.secret()),
        ValueRow::LongestVerifier => show_text(out, verifier_of_zeros(alloc, 96)?.secret()),
        ValueRow::ErrorResponse => show_error_response(alloc, out),
        ValueRow::HiddenSecret => show_secret(alloc, out),
        ValueRow::Token(body) => show_text(out, &rewritten::<BasicTokenResponse>(alloc, body)?),
        ValueRow::NoToken(body) => show_fault(out, &fault_in::<BasicTokenResponse>(alloc, body)?),
        ValueRow::Device(body) => show_text(
            out,
            &rewritten::<StandardDeviceAuthorizationResponse>(alloc, body)?,
        ),
        ValueRow::NoDevice(body) => show_fault(
            out,
            &fault_in::<StandardDeviceAuthorizationResponse>(alloc, body)?,
        ),
        ValueRow::PollOverLists => show_poll_over_lists(alloc, out),
        ValueRow::Sleeps => show_every_sleep(out),
    }
}

fn show_error_response<W: Write>(alloc: Global, out: &mut W) -> Result<(), Ended> {
    let response = error_response(alloc)?;
    show_with_json(alloc, &response, out)
}

// Prints an error response, and the JSON that it is written as.
fn show_with_json<W: Write>(
    alloc: Global,
    response: &BasicErrorResponse,
    out: &mut W,
) -> Result<(), Ended> {
    show_text(out, response)?;
    show_text(out, &compact(alloc, response)?)
}

fn show_secret<W: Write>(alloc: Global, out: &mut W) -> Result<(), Ended> {
    let secret = ClientSecret::new(text(alloc, "top_secret")?);
    writeln!(out, "text {secret:?}")?;
    Ok(())
}

fn seconds(interval: u64, max_polls: u64) -> PollSettings
    ensures { result.max_polls ≡ max_polls }
{
    PollSettings {
        interval: Duration::from_secs(interval),
        cap: Duration::from_secs(10),
        max_polls,
    }
}

fn show_poll_over_lists<W: Write>(alloc: Global, out: &mut W) -> Result<(), Ended> {
    let answers = [PollAnswer::Pending, PollAnswer::Pending];
    let timeout = Duration::from_secs(2);
    let run = run(alloc, timeout, seconds(1, 5), &[0, 1, 2, 3], &answers)?;
    show_run(out, &run)
}

const FAILED: PollAnswer = PollAnswer::Failed;

// Polls whose sleeps are printed: the interval in seconds, and the answers to the requests.
const SLEEPS: [(u64, &[PollAnswer]); 5] = [
    (1, &[PollAnswer::SlowDown, FAILED]),
    (30, &[FAILED]),
    (1, &[FAILED, FAILED, FAILED, FAILED, FAILED]),
    (0, &[FAILED]),
    (18_446_744_073_709_551_615, &[PollAnswer::SlowDown]),
];

fn show_every_sleep<W: Write>(out: &mut W) -> Result<(), Ended> {
    for (interval, answers) in &SLEEPS {
        show_sleeps(*interval, answers, out)?;
    }
    Ok(())
}

// Prints the sleeps of a poll with this interval in seconds and these answers.
fn show_sleeps<W: Write>(interval: u64, answers: &[PollAnswer], out: &mut W) -> Result<(), Ended> {
    let timeout = Duration::from_secs(1);
    let Some(mut poll) = DevicePoll::new(Timestamp::UNIX_EPOCH, timeout, seconds(interval, 100))
    else {
        return Err(Ended::Refused);
    };
    for answer in answers {
        if poll.polls_left() == 0 {
            return Err(Ended::Refused);
        }
        if let PollStep::Sleep(duration) = poll.answer(*answer) {
            show_sleep(out, duration)?;
        }
    }
    Ok(())
}
