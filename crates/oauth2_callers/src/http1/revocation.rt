//! A revocation request over HTTP/1.1.

ghost use Rattle.url.specs.Parts.{serialize};
ghost use Rattle.oauth2_wire.specs.Reply.{status_answer_of};
ghost use Rattle.oauth2_requests.specs.TokenRevocation.{revocation_configuration};
ghost use Rattle.oauth2_http1.specs.FromBytes.{FromBytes};

use oauth2_codes::ErrorResponse;
use oauth2_http1::{Connect, Http1Client, Http1Error};
use oauth2_replies::RevocableToken;
use oauth2_requests::RevocationRequest;
use oauth2_wire::RequestTokenError;
use std::alloc::Global;

/// Revokes a token. Success means only that the reply's status is 200 (RFC 7009, section 2.2).
#[tactic(auto, using(oauth2_http1::proofs::FromBytes::from_bytes))]
pub fn revoke<C: Connect, RT: RevocableToken + Drop, TE: ErrorResponse>(
    alloc: Global,
    request: RevocationRequest<'_, RT, TE>,
    http_client: &mut Http1Client<C>,
) -> Result<(), RequestTokenError<Http1Error<C::Error>, TE>>
    ensures { FromBytes C.opens C.Stream.contents C.Stream.remaining
        C.Stream.reads C.Stream.writes C.Stream.flushes
        (revocation_configuration request.entry)
        (serialize request.entry.revocation_url.url)
        (λ done. done) TE.meaning
        (status_answer_of TE.reading)
        http_client.old result http_client.new }
{
    request.request(alloc, http_client)
}
