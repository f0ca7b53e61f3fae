//! A device authorization request over a kept connection.

ghost use Rattle.url.specs.Parts.{serialize};
ghost use Rattle.oauth2_replies.specs.Device.{device_seen, device_reading};
ghost use Rattle.oauth2_wire.specs.Reply.{answer_of};
ghost use Rattle.oauth2_requests.specs.DeviceAuthorization.{device_authorization_configuration};
ghost use Rattle.oauth2_http1_connections.specs.KeptFromBytes.{KeptResult};

use oauth2_codes::ErrorResponse;
use oauth2_http1_connections::{KeepAliveClient, KeepAliveConnect, KeepAliveError};
use oauth2_replies::{DeviceAuthorizationResponse, ExtraDeviceAuthorizationFields};
use oauth2_requests::DeviceAuthorizationRequest;
use oauth2_wire::RequestTokenError;
use std::alloc::Global;

/// Requests the codes for a device and its user (RFC 8628, section 3.1).
#[tactic(auto, using(oauth2_http1_connections::proofs::KeptFromBytes::from_kept_bytes))]
pub fn device_codes<
    C: KeepAliveConnect,
    TE: ErrorResponse,
    EF: ExtraDeviceAuthorizationFields + Drop,
>(
    alloc: Global,
    request: DeviceAuthorizationRequest<'_, TE>,
    http_client: &mut KeepAliveClient<C, C::Stream>,
) -> Result<DeviceAuthorizationResponse<EF>, RequestTokenError<KeepAliveError<C::Error>, TE>>
    ensures { KeptResult C.opens C.looks C.Stream.contents C.Stream.remaining
        C.Stream.reads C.Stream.writes C.Stream.flushes
        (device_authorization_configuration request.entry)
        (serialize request.entry.device_authorization_url.url)
        (device_seen EF.meaning) TE.meaning
        (answer_of request.entry.base.reply_rule (device_reading EF.reading) TE.reading)
        http_client.old result http_client.new }
{
    request.request(alloc, http_client)
}
