//! A refresh request over a kept connection.

ghost use Rattle.url.specs.Parts.{serialize};
ghost use Rattle.oauth2_wire.specs.Reply.{answer_of};
ghost use Rattle.oauth2_requests.specs.Refresh.{refresh_configuration};
ghost use Rattle.oauth2_http1_connections.specs.KeptFromBytes.{KeptResult};

use oauth2_codes::ErrorResponse;
use oauth2_http1_connections::{KeepAliveClient, KeepAliveConnect, KeepAliveError};
use oauth2_replies::TokenResponse;
use oauth2_requests::RefreshTokenRequest;
use oauth2_wire::RequestTokenError;
use std::alloc::Global;

/// Requests a token with a refresh token (RFC 6749, section 6).
#[tactic(auto, using(oauth2_http1_connections::proofs::KeptFromBytes::from_kept_bytes))]
pub fn refreshed_token<C: KeepAliveConnect, TE: ErrorResponse, TR: TokenResponse>(
    alloc: Global,
    request: RefreshTokenRequest<'_, TE, TR>,
    http_client: &mut KeepAliveClient<C, C::Stream>,
) -> Result<TR, RequestTokenError<KeepAliveError<C::Error>, TE>>
    ensures { KeptResult C.opens C.looks C.Stream.contents C.Stream.remaining
        C.Stream.reads C.Stream.writes C.Stream.flushes
        (refresh_configuration request.entry)
        (serialize request.entry.token_url.url)
        TR.meaning TE.meaning
        (answer_of request.entry.base.reply_rule TR.reading TE.reading)
        http_client.old result http_client.new }
{
    request.request(alloc, http_client)
}
