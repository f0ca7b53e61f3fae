//! The calls that need no client: challenges, JSON, and the poll over lists.

ghost use Rattle.std.specs.Prelude.{◌≡◌, ◌≤◌, ◌<◌, IfOk};
ghost use Rattle.oauth2_types.specs.Pkce.{HasValidLength};

use crate::ended::{Ended, Want, text};
use crate::repeated::Repeated;
use jiff::Timestamp;
use oauth2::basic::{BasicErrorResponse, BasicErrorResponseType};
use oauth2::{
    DevicePoll, FromJson, ParseFault, PkceCodeChallenge, PkceCodeVerifier, PollAnswer, PollRun,
    PollSettings, ReadError, StandardErrorResponse, ToJson, compact, read_body,
};
use std::alloc::{AllocError, Global};
use std::time::Duration;

/// The verifier of RFC 7636, appendix B.
pub const VERIFIER: &str = "dBjftJeZ4CVP-mB92K27uhbUJU1p1r_wW1gFWFOEjXk";

/// A verifier with this text. A text whose length is not 43 to 128 characters is refused (RFC 7636,
/// section 4.1).
pub fn verifier(alloc: Global, verifier: &str) -> Result<PkceCodeVerifier, Ended>
    ensures length { IfOk result HasValidLength }
    ensures text { IfOk result (λ made. made ≡ verifier.now) }
{
    let made = PkceCodeVerifier::new(text(alloc, verifier)?);
    if !made.has_valid_length() {
        return Err(Ended::Refused);
    }
    Ok(made)
}

/// The challenge of RFC 7636, appendix B.
pub fn challenge(alloc: Global) -> Result<PkceCodeChallenge, Ended> {
    let verifier = verifier(alloc, VERIFIER)?;
    Ok(PkceCodeChallenge::from_code_verifier_sha256(alloc, &verifier)?)
}

/// The verifier that is made from `number` zero bytes.
pub fn verifier_of_zeros(alloc: Global, number: u32) -> Result<PkceCodeVerifier, AllocError>
    requires least { 32 ≤ number }
    requires most { number ≤ 96 }
    ensures { IfOk result HasValidLength }
{
    let (_, verifier) = PkceCodeChallenge::new_random_sha256_len(alloc, &mut Repeated(0), number)?;
    Ok(verifier)
}

/// Reads a JSON body, and writes the value as JSON again.
pub fn rewritten<T: FromJson + ToJson + Drop>(alloc: Global, body: &str) -> Result<String, Ended> {
    let value = read_body::<T>(alloc, body.as_bytes())?;
    Ok(compact(alloc, &value)?)
}

/// Returns why a body cannot be read. A body that can be read is an error (`Refused`).
pub fn fault_in<T: FromJson + Drop>(alloc: Global, body: &str) -> Result<ParseFault, Ended> {
    match read_body::<T>(alloc, body.as_bytes()) {
        Ok(_) => Err(Ended::Refused),
        Err(ReadError::Fault(fault)) => Ok(fault),
        Err(ReadError::Memory) => Err(Ended::from(ReadError::Memory)),
    }
}

/// An error response with all of its members (RFC 6749, section 5.2).
pub fn error_response(alloc: Global) -> Result<BasicErrorResponse, Ended> {
    Ok(StandardErrorResponse::new(
        BasicErrorResponseType::InvalidClient,
        Some(text(alloc, "Invalid client_id")?),
        Some(text(alloc, "https://example.com/errors/invalid_client")?),
    ))
}

// Adds the moment so many seconds after 1970.
fn add_moment(readings: &mut Vec<Timestamp>, second: i64) -> Result<(), Ended> {
    let Ok(moment) = Timestamp::from_second(second) else {
        return Err(Ended::Refused);
    };
    if readings.push(moment).is_err() {
        return Err(Ended::Starved(Want::Row));
    }
    Ok(())
}

/// Runs a poll over lists: the clock shows these seconds since 1970 in order, and the requests get
/// these answers in order.
pub fn run(
    alloc: Global,
    timeout: Duration,
    settings: PollSettings,
    seconds: &[i64],
    answers: &[PollAnswer],
) -> Result<PollRun, Ended>
    requires { 0 < settings.max_polls }
{
    let mut readings = Vec::new(alloc);
    for second in seconds {
        add_moment(&mut readings, *second)?;
    }
    Ok(DevicePoll::run(alloc, timeout, settings, readings.as_slice(), answers)?)
}
