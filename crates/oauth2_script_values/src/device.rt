//! How a device authorization response is read.

ghost use Rattle.std.specs.Prelude.{◌≡◌};
ghost use Rattle.oauth2_script_values.specs.Device as spec;
ghost use Rattle.oauth2_script_values.specs.Gives.{step_view};

use crate::part::Part;
use crate::part_error::{PartError, bad_step};
use crate::path::Step;
use crate::script_cause::ScriptCause;
use oauth2_json::{FromJson, ParseCause, ReadError};
use oauth2_replies::StandardDeviceAuthorizationResponse;
use serde_json::Value;
use std::alloc::Global;

/// A device authorization response of the standard (RFC 8628, section 3.2).
impl Part for StandardDeviceAuthorizationResponse {
    ghost use Rattle.oauth2_replies.specs.Device.{DeviceAuthorization, device_seen};

    ghost Meaning = { DeviceAuthorization (Unit {0}) };

    ghost meaning = { device_seen (λ _. tt) };

    ghost reading = { spec.device };

    fn from_value(
        alloc: Global,
        value: &Value,
    ) -> Result<StandardDeviceAuthorizationResponse, PartError> {
        match StandardDeviceAuthorizationResponse::from_json(alloc, value.clone()?) {
            Ok(device) => Ok(device),
            Err(ReadError::Fault(fault)) => {
                let step = device_step(fault.member.as_str());
                Err(PartError::Bad(bad_step(step, cause_of(fault.cause))))
            }
            Err(ReadError::Memory) => Err(PartError::Memory),
        }
    }
}

#[tactic(auto, unfolding(crate::specs::Device::device_step))]
fn device_step(name: &str) -> Step
    ensures { step_view result ≡ spec.device_step name.now }
{
    match name {
        "device_code" => Step::Member("device_code"),
        "user_code" => Step::Member("user_code"),
        "verification_uri" => Step::Member("verification_uri"),
        "verification_url" => Step::Member("verification_url"),
        "verification_uri_complete" => Step::Member("verification_uri_complete"),
        "expires_in" => Step::Member("expires_in"),
        "interval" => Step::Member("interval"),
        _ => Step::End,
    }
}

fn cause_of(cause: ParseCause) -> ScriptCause
    ensures { result ≡ spec.cause_of cause }
{
    match cause {
        ParseCause::NotJson => ScriptCause::NotJson,
        ParseCause::NotObject => ScriptCause::NotObject,
        ParseCause::Missing => ScriptCause::Missing,
        ParseCause::WrongType => ScriptCause::WrongType,
        ParseCause::NotWhole => ScriptCause::WrongType,
        ParseCause::OutOfRange => ScriptCause::OutOfRange,
        ParseCause::BadUrl => ScriptCause::BadUrl,
        ParseCause::BothNames => ScriptCause::Excluded,
        ParseCause::Refused => ScriptCause::WrongType,
    }
}
