//! The command `device_poll`: a device polls for its token until the user decides.

ghost use Rattle.std.specs.Prelude.{◌≡◌, false, unwrap_or, option_map, IfOk, refl};
ghost use Rattle.std.specs.Duration.{as_nanos};
ghost use Rattle.std.specs.Int.NonZero.{non_zero_u64_get};
ghost use Rattle.oauth2_device.specs.Poll.{timeout_of};
ghost use Rattle.oauth2_request_commands.specs.DevicePoll as spec;
ghost use Rattle.oauth2_request_commands.specs.Out.{Adds};
ghost use Rattle.oauth2_world.specs.Replay.{client_replies};
ghost use Rattle.oauth2_script.specs.Views.{device_poll_view};

use crate::answer::{show_configuration_error, show_end};
use crate::client::ScriptClient;
use crate::extra::{Extensible, with_extra};
use crate::status::RunStatus;
use oauth2::basic::BasicTokenResponse;
use oauth2::{DeviceAccessTokenRequest, EmptyExtraDeviceAuthorizationFields, ParamText};
use oauth2_script::DevicePollParams;
use oauth2_world::ScriptedWorld;
use std::alloc::{AllocError, Global};
use std::num::NonZeroU64;
use std::time::Duration;

type DeviceRequest<'a> = DeviceAccessTokenRequest<
    'a,
    BasicTokenResponse,
    EmptyExtraDeviceAuthorizationFields,
>;

impl<'a> Extensible<'a> for DeviceRequest<'a> {
    ghost with_params = { λ r f. record r {
      request = record r.request {
        base = record r.request.base { extra_params = f r.request.base.extra_params };
      };
    } };

    ghost laws = { λ r f g. (refl, refl) };

    fn with_pair(self, name: &'a str, value: &'a str) -> Result<Self, AllocError> {
        self.add_extra_param(ParamText::Borrowed(name), ParamText::Borrowed(value))
    }
}

fn with_cap<'a>(request: DeviceRequest<'a>, cap: Option<Duration>) -> DeviceRequest<'a>
    ensures { result.request ≡ record request.entry.request {
      max_backoff_interval =
          unwrap_or (option_map as_nanos cap) request.entry.request.max_backoff_interval;
    } }
{
    match cap {
        Some(cap) => request.set_max_backoff_interval(cap),
        None => request,
    }
}

// Polls, and shows each request, each sleep and the result.
fn poll(
    alloc: Global,
    request: DeviceRequest<'_>,
    timeout: Option<Duration>,
    max_polls: NonZeroU64,
    world: &mut ScriptedWorld,
) -> Result<RunStatus, AllocError>
    ensures { IfOk result (λ status. world.new.http_client.is_starved ≡ false
        → Adds world.old.http_client.events
        world.new.http_client.events status
        (spec.IsPolled request.entry.request (timeout_of request.entry.request timeout)
        (non_zero_u64_get max_polls) world.old.clock (client_replies world.old.http_client))) }
{
    let end = request.poll_with(alloc, world, timeout, max_polls.get());
    show_end(alloc, &mut world.http_client.events, &end)
}

/// Polls for a device's token, and shows each request, each sleep and the result (RFC 8628,
/// section 3.4).
pub fn run_device_poll(
    alloc: Global,
    client: &ScriptClient,
    params: DevicePollParams,
    world: &mut ScriptedWorld,
) -> Result<RunStatus, AllocError>
    ensures { IfOk result (λ status. world.new.http_client.is_starved ≡ false
        → Adds world.old.http_client.events
        world.new.http_client.events status
        (spec.IsDevicePollOutput client.now (device_poll_view params) world.old.clock
        (client_replies world.old.http_client))) }
{
    let device = params.device;
    match client.exchange_device_access_token(alloc, &device) {
        Ok(request) => {
            let capped = with_cap(request, params.cap);
            let asked = with_extra(capped, params.extra_params.as_slice())?;
            poll(alloc, asked, params.timeout, params.max_polls, world)
        }
        Err(error) => show_configuration_error(alloc, &mut world.http_client.events, &error),
    }
}
