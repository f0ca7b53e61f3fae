//! The parameters of the command `device_poll`.

ghost use Rattle.oauth2_script.specs.DevicePollParams as spec;

use crate::sent_params::sent_params;
use oauth2_replies::StandardDeviceAuthorizationResponse;
use oauth2_script_values::{Part, PartError, needed, optional};
use serde_json::Value;
use std::alloc::Global;
use std::num::NonZeroU64;
use std::time::Duration;

/// The parameters of a poll for a device's token (RFC 8628, section 3.4).
#[derive(Drop)]
pub struct DevicePollParams {
    /// The response that the device got.
    pub device: StandardDeviceAuthorizationResponse,
    /// How many requests the poll makes at most.
    pub max_polls: NonZeroU64,
    pub timeout: Option<Duration>,
    /// The longest wait to which failed calls double it.
    pub cap: Option<Duration>,
    pub extra_params: Vec<(String, String)>,
}

impl Part for DevicePollParams {
    ghost use Rattle.oauth2_script.specs.Views.{device_poll_view};

    ghost Meaning = { spec.DevicePollParams };

    ghost meaning = { device_poll_view };

    ghost reading = { spec.device_poll_params };

    #[tactic(auto, unfolding(crate::specs::DevicePollParams::device_poll_params))]
    fn from_value(alloc: Global, value: &Value) -> Result<DevicePollParams, PartError> {
        let device = needed(alloc, value, "device")?;
        let max_polls = needed(alloc, value, "max_polls")?;
        let timeout = optional(alloc, value, "timeout")?;
        let cap = optional(alloc, value, "cap")?;
        let extra_params = sent_params(alloc, value)?;
        Ok(DevicePollParams {
            device,
            max_polls,
            timeout,
            cap,
            extra_params,
        })
    }
}
