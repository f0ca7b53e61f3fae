//! An introspection request over a kept connection.

ghost use Rattle.url.specs.Parts.{serialize};
ghost use Rattle.oauth2_wire.specs.Reply.{answer_of};
ghost use Rattle.oauth2_requests.specs.TokenIntrospection.{introspection_configuration};
ghost use Rattle.oauth2_http1_connections.specs.KeptFromBytes.{KeptResult};

use oauth2_codes::ErrorResponse;
use oauth2_http1_connections::{KeepAliveClient, KeepAliveConnect, KeepAliveError};
use oauth2_json::FromJson;
use oauth2_requests::IntrospectionRequest;
use oauth2_wire::RequestTokenError;
use std::alloc::Global;

/// Introspects a token (RFC 7662, section 2).
#[tactic(auto, using(oauth2_http1_connections::proofs::KeptFromBytes::from_kept_bytes))]
pub fn worth_of_token<C: KeepAliveConnect, TE: ErrorResponse, TIR: FromJson>(
    alloc: Global,
    request: IntrospectionRequest<'_, TE, TIR>,
    http_client: &mut KeepAliveClient<C, C::Stream>,
) -> Result<TIR, RequestTokenError<KeepAliveError<C::Error>, TE>>
    ensures { KeptResult C.opens C.looks C.Stream.contents C.Stream.remaining
        C.Stream.reads C.Stream.writes C.Stream.flushes
        (introspection_configuration request.entry)
        (serialize request.entry.introspection_url.url)
        TIR.meaning TE.meaning
        (answer_of request.entry.base.reply_rule TIR.reading TE.reading)
        http_client.old result http_client.new }
{
    request.request(alloc, http_client)
}
