//! The exchange of a code over a kept connection.

ghost use Rattle.url.specs.Parts.{serialize};
ghost use Rattle.oauth2_wire.specs.Reply.{answer_of};
ghost use Rattle.oauth2_requests.specs.Code.{code_configuration};
ghost use Rattle.oauth2_http1_connections.specs.KeptFromBytes.{KeptResult};

use oauth2_codes::ErrorResponse;
use oauth2_http1_connections::{KeepAliveClient, KeepAliveConnect, KeepAliveError};
use oauth2_replies::TokenResponse;
use oauth2_requests::CodeTokenRequest;
use oauth2_wire::RequestTokenError;
use std::alloc::Global;

/// Exchanges a code for a token (RFC 6749, section 4.1.3).
#[tactic(auto, using(oauth2_http1_connections::proofs::KeptFromBytes::from_kept_bytes))]
pub fn token_for_code<C: KeepAliveConnect, TE: ErrorResponse, TR: TokenResponse>(
    alloc: Global,
    request: CodeTokenRequest<'_, TE, TR>,
    http_client: &mut KeepAliveClient<C, C::Stream>,
) -> Result<TR, RequestTokenError<KeepAliveError<C::Error>, TE>>
    ensures { KeptResult C.opens C.looks C.Stream.contents C.Stream.remaining
        C.Stream.reads C.Stream.writes C.Stream.flushes
        (code_configuration request.entry)
        (serialize request.entry.token_url.url)
        TR.meaning TE.meaning
        (answer_of request.entry.base.reply_rule TR.reading TE.reading)
        http_client.old result http_client.new }
{
    request.request(alloc, http_client)
}
