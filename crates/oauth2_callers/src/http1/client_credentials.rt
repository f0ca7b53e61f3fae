//! A request with the client's own credentials over HTTP/1.1.

ghost use Rattle.url.specs.Parts.{serialize};
ghost use Rattle.oauth2_wire.specs.Reply.{answer_of};
ghost use Rattle.oauth2_requests.specs.ClientCredentials.{client_credentials_configuration};
ghost use Rattle.oauth2_http1.specs.FromBytes.{FromBytes};

use oauth2_codes::ErrorResponse;
use oauth2_http1::{Connect, Http1Client, Http1Error};
use oauth2_replies::TokenResponse;
use oauth2_requests::ClientCredentialsTokenRequest;
use oauth2_wire::RequestTokenError;
use std::alloc::Global;

/// Requests a token with the client's own credentials (RFC 6749, section 4.4.2).
#[tactic(auto, using(oauth2_http1::proofs::FromBytes::from_bytes))]
pub fn token_for_credentials<C: Connect, TE: ErrorResponse, TR: TokenResponse>(
    alloc: Global,
    request: ClientCredentialsTokenRequest<'_, TE, TR>,
    http_client: &mut Http1Client<C>,
) -> Result<TR, RequestTokenError<Http1Error<C::Error>, TE>>
    ensures { FromBytes C.opens C.Stream.contents C.Stream.remaining
        C.Stream.reads C.Stream.writes C.Stream.flushes
        (client_credentials_configuration request.entry)
        (serialize request.entry.token_url.url)
        TR.meaning TE.meaning
        (answer_of request.entry.base.reply_rule TR.reading TE.reading)
        http_client.old result http_client.new }
{
    request.request(alloc, http_client)
}
