//! The sign-in of a user on a device (RFC 8628).

ghost use Rattle.std.specs.Prelude.{◌≡◌, Some, None, List};
ghost use Rattle.url.specs.Parts.{serialize};
ghost use Rattle.oauth2_urls.specs.Addressed.{Addressed};
ghost use Rattle.oauth2_wire.specs.Once.{AsksOnce};
ghost use Rattle.oauth2_wire.specs.Reply.{answer_of};
ghost use Rattle.oauth2_wire.specs.Request.{IsRequestOf};
ghost use Rattle.oauth2_replies.specs.Device.{device_seen, device_reading};
ghost use Rattle.oauth2_requests.specs.DeviceAuthorization.{device_authorization_configuration};
ghost use Rattle.oauth2_device.specs.Events.{PollCall, ClientLeads};
ghost use Rattle.oauth2_device.specs.Poll.{Polls, timeout_of};
ghost use Rattle.oauth2.specs.NewRequest.{new_device_request, new_device_token_request};

use jiff::Timestamp;
use oauth2::basic::{BasicClient, BasicErrorResponse, BasicRequestTokenError, BasicTokenResponse};
use oauth2::{
    DeviceCodeErrorResponse, EmptyExtraDeviceAuthorizationFields, EndpointNotSet, EndpointSet,
    FromJson, RequestTokenError, StandardDeviceAuthorizationResponse, SyncHttpClient,
};
use std::alloc::Global;
use std::time::Duration;

/// A client with a device authorization endpoint and a token endpoint.
pub type DeviceClient = BasicClient<
    EndpointNotSet,
    EndpointSet,
    EndpointNotSet,
    EndpointNotSet,
    EndpointSet,
>;

/// Requests the codes for a device and its user. Either the HTTP client is called once, with this
/// request, and the result is what its reply says; or it is not called.
pub fn device_codes<C: SyncHttpClient>(
    alloc: Global,
    client: &DeviceClient,
    http_client: &mut C,
) -> Result<StandardDeviceAuthorizationResponse, BasicRequestTokenError<C::Error>>
    requires { C.is_ready http_client.old }
    ensures once { (endpoint : Addressed) × (client.now.device_authorization_url ≡ Some endpoint)
        × AsksOnce (device_seen ⟦<EmptyExtraDeviceAuthorizationFields as FromJson>⟧.meaning)
        ⟦<BasicErrorResponse as FromJson>⟧.meaning C.step
        (answer_of client.now.reply_rule
        (device_reading ⟦<EmptyExtraDeviceAuthorizationFields as FromJson>⟧.reading)
        ⟦<BasicErrorResponse as FromJson>⟧.reading)
        (IsRequestOf (device_authorization_configuration (new_device_request client.now endpoint)))
        (serialize endpoint.url) http_client.old result http_client.new }
    ensures ready { C.is_ready http_client.new }
{
    client
        .exchange_device_code(alloc)
        .request(alloc, http_client)
}

/// Polls for the token of a device with these codes, with the caller's clock and sleep function,
/// and at most 100 requests.
pub fn polled_token<C: SyncHttpClient, F: FnMut() -> Timestamp + Drop, S: FnMut(Duration)>(
    alloc: Global,
    client: &DeviceClient,
    device: &StandardDeviceAuthorizationResponse,
    http_client: &mut C,
    time_fn: F,
    sleep_fn: &mut S,
) -> Result<BasicTokenResponse, RequestTokenError<C::Error, DeviceCodeErrorResponse>>
    requires client { C.is_ready http_client.old }
    requires clock { F.IsAlwaysCallable time_fn }
    requires sleep { S.IsAlwaysCallable sleep_fn.old }
    ensures poll { (endpoint : Addressed) × (client.now.token_url ≡ Some endpoint)
        × (e : List (PollCall C.Error)) × ClientLeads C.step http_client.old e http_client.new
        × Polls ⟦<BasicTokenResponse as FromJson>⟧.meaning
        ⟦<BasicTokenResponse as FromJson>⟧.reading
        (new_device_token_request client.now endpoint device.now)
        (timeout_of (new_device_token_request client.now endpoint device.now) None) 100 e result }
    ensures ready { C.is_ready http_client.new }
{
    client
        .exchange_device_access_token(alloc, device)
        .set_time_fn(time_fn)
        .request(alloc, http_client, sleep_fn, None, 100)
}
