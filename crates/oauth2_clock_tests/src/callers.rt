//! Functions that call the client and have their own contracts.

ghost use Rattle.std.specs.Prelude.{
  ◌≡◌,
  ◌+◌,
  ◌/◌,
  ◌<◌,
  ◌≤◌,
  ◌++◌,
  map,
  IsTrue,
  IfOk,
  IsSomeAnd,
  Some,
  List,
  codes,
  string_bytes,
};
ghost use Rattle.std.specs.Duration.{as_nanos};
ghost use Rattle.oauth2_poll.specs.Pacing.{ClockIsHonest, SleepsArePaced, requests_in};
ghost use Rattle.oauth2_poll.specs.Run.{event_of};
ghost use Rattle.oauth2_urls.specs.Addressed.{Addressed};
ghost use Rattle.oauth2_device.specs.DeviceToken.{nanos_of_seconds};
ghost use Rattle.oauth2_device.specs.Events.{ClientLeads, EachRequest, PollCall, SleepLeads};
ghost use Rattle.oauth2_device.specs.Poll.{IsDeviceRequest, device_answer, plain};
ghost use Rattle.oauth2.specs.NewRequest.{new_device_token_request};
ghost use Rattle.oauth2_keeper.specs.Keeper.{is_good};

use jiff::Timestamp;
use oauth2::basic::{BasicClient, BasicTokenResponse};
use oauth2::{
    DeviceCodeErrorResponse, EndpointNotSet, EndpointSet, FromJson, RequestTokenError,
    StandardDeviceAuthorizationResponse, SyncHttpClient,
};
use oauth2_keeper::BasicTokenKeeper;
use oauth2_poll::{DevicePoll, PollAnswer, PollRun, PollSettings};
use std::alloc::{AllocError, Global};
use std::fmt;
use std::time::Duration;

/// Runs a poll over lists. If the clock moves on by each sleep, timeout and interval bound how
/// many requests it makes.
pub fn poll_within(
    alloc: Global,
    timeout: Duration,
    settings: PollSettings,
    readings: &[Timestamp],
    answers: &[PollAnswer],
) -> Result<PollRun, AllocError>
    requires polls { 0 < settings.max_polls }
    requires interval { 0 < as_nanos settings.interval }
    ensures { IfOk result (λ run. ClockIsHonest (map event_of run.trace.items)
        → requests_in (map event_of run.trace.items)
        ≤ as_nanos timeout / as_nanos settings.interval + 1) }
{
    DevicePoll::run(alloc, timeout, settings, readings, answers)
}

/// A client whose only endpoint is the token endpoint.
pub type TokenClient = BasicClient<
    EndpointNotSet,
    EndpointNotSet,
    EndpointNotSet,
    EndpointNotSet,
    EndpointSet,
>;

/// Polls for the token of a device, with the caller's clock and sleep function. Each request that
/// the client sends is the request for this device's token. Each sleep is paced by the response's
/// interval and the answers before it.
pub fn device_token<C: SyncHttpClient, F: FnMut() -> Timestamp + Drop, S: FnMut(Duration)>(
    alloc: Global,
    client: &TokenClient,
    response: &StandardDeviceAuthorizationResponse,
    http_client: &mut C,
    time_fn: F,
    sleep_fn: &mut S,
) -> Result<BasicTokenResponse, RequestTokenError<C::Error, DeviceCodeErrorResponse>>
    requires client { C.is_ready http_client.old }
    requires clock { F.IsAlwaysCallable time_fn }
    requires sleep { S.IsAlwaysCallable sleep_fn.old }
    ensures poll { (endpoint : Addressed) × (client.now.token_url ≡ Some endpoint)
        × (e : List (PollCall C.Error))
        × ClientLeads C.step http_client.old e http_client.new
        × SleepLeads (λ s d v. S.step s d tt v) sleep_fn.old e sleep_fn.new
        × EachRequest
        (IsDeviceRequest (new_device_token_request client.now endpoint response.now)) e
        × SleepsArePaced (nanos_of_seconds response.now.interval) (nanos_of_seconds 10)
        (plain
        (device_answer client.now.reply_rule ⟦<BasicTokenResponse as FromJson>⟧.reading) e) }
    ensures sleep { S.IsAlwaysCallable sleep_fn.new }
{
    client
        .exchange_device_access_token(alloc, response)
        .set_time_fn(time_fn)
        .request(alloc, http_client, sleep_fn, None, 100)
}

/// What to send as `Authorization` to a resource (RFC 6750, section 2.1): `Bearer` and the kept
/// token. While the token is good, no request is sent for it.
pub fn bearer<C: SyncHttpClient>(
    alloc: Global,
    keeper: &mut BasicTokenKeeper<'_>,
    now: Timestamp,
    http_client: &mut C,
) -> anyhow::Result<String>
where
    C::Error: fmt::Debug,
    requires { C.is_ready http_client.old }
    ensures text { IfOk result (λ text. IsSomeAnd keeper.new.token
        (λ token. string_bytes text ≡ codes "Bearer " ++ token.access_token)) }
    ensures quiet { IsTrue (is_good keeper.old now.nanosecond)
        → (keeper.new ≡ keeper.old) × (http_client.new ≡ http_client.old) }
    ensures ready { C.is_ready http_client.new }
{
    let text = keeper.with_token(alloc, now, http_client, |token| {
        format!(in alloc; "Bearer {}", token.secret().as_str())
    })?;
    Ok(text?)
}
