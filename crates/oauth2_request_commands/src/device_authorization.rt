//! The command `device_authorization`: a device asks for its codes.

ghost use Rattle.std.specs.Prelude.{◌≡◌, false, IfOk, refl};
ghost use Rattle.oauth2_request_commands.specs.DeviceAuthorization as spec;
ghost use Rattle.oauth2_request_commands.specs.Out.{Adds};
ghost use Rattle.oauth2_world.specs.Replay.{client_replies};
ghost use Rattle.oauth2_script.specs.Views.{device_authorization_view};

use crate::answer::{Fault, show_configuration_error, show_end};
use crate::client::ScriptClient;
use crate::extra::{Extensible, with_extra};
use crate::status::RunStatus;
use oauth2::basic::BasicErrorResponse;
use oauth2::{DeviceAuthorizationRequest, ParamText, StandardDeviceAuthorizationResponse};
use oauth2_script::DeviceAuthorizationParams;
use oauth2_world::ScriptedClient;
use std::alloc::{AllocError, Global};

type DeviceAuthorization<'a> = DeviceAuthorizationRequest<'a, BasicErrorResponse>;

impl<'a> Extensible<'a> for DeviceAuthorization<'a> {
    ghost with_params = { λ r f. record r {
      base = record r.base { extra_params = f r.base.extra_params };
    } };

    ghost laws = { λ r f g. (refl, refl) };

    fn with_pair(self, name: &'a str, value: &'a str) -> Result<Self, AllocError> {
        self.add_extra_param(ParamText::Borrowed(name), ParamText::Borrowed(value))
    }
}

/// Asks for a device's codes, and shows the request and its result (RFC 8628, section 3.1).
pub fn run_device_authorization(
    alloc: Global,
    client: &ScriptClient,
    params: DeviceAuthorizationParams,
    http_client: &mut ScriptedClient,
) -> Result<RunStatus, AllocError>
    ensures { IfOk result (λ status. http_client.new.is_starved ≡ false
        → Adds http_client.old.events http_client.new.events status
        (spec.IsDeviceAuthorizationOutput client.now (device_authorization_view params)
        (client_replies http_client.old))) }
{
    match client.exchange_device_code(alloc) {
        Ok(request) => {
            let scoped = request.add_scopes(params.scopes)?;
            let asked = with_extra(scoped, params.extra_params.as_slice())?;
            let end: Result<StandardDeviceAuthorizationResponse, Fault> = asked.request(
                alloc,
                http_client,
            );
            show_end(alloc, &mut http_client.events, &end)
        }
        Err(error) => show_configuration_error(alloc, &mut http_client.events, &error),
    }
}
