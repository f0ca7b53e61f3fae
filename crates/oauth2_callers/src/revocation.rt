//! A revocation request that is sent (RFC 7009).

ghost use Rattle.std.specs.Prelude.{◌≡◌, Some, Ok, OnOk, IfSome, codes};
ghost use Rattle.url.specs.Parts.{serialize};
ghost use Rattle.oauth2_urls.specs.Addressed.{Addressed};
ghost use Rattle.oauth2_wire.specs.Reply.{HttpResponse, reply_of};
ghost use Rattle.oauth2_wire.specs.Request.{HttpRequest, IsRequestOf, view_of};
ghost use Rattle.oauth2_requests.specs.TokenRevocation.{IsHttps, revocation_configuration};
ghost use Rattle.oauth2.specs.NewRequest.{new_revocation_request};

use oauth2::basic::BasicClient;
use oauth2::{EndpointNotSet, EndpointSet, RefreshToken, StandardRevocableToken, SyncHttpClient};
use std::alloc::Global;
use std::fmt;

/// A client whose only endpoint is the revocation endpoint.
pub type RevocationClient = BasicClient<
    EndpointNotSet,
    EndpointNotSet,
    EndpointNotSet,
    EndpointSet,
    EndpointNotSet,
>;

/// Revokes a refresh token, as at the end of a session. Success means that the client was called
/// exactly once, with this request to an `https` endpoint, and that the reply's status was 200.
pub fn sign_out<C: SyncHttpClient>(
    alloc: Global,
    client: &RevocationClient,
    http_client: &mut C,
    token: RefreshToken,
) -> anyhow::Result<()>
where
    C::Error: fmt::Debug,
    requires { C.is_ready http_client.old }
    ensures revoked { OnOk result ((endpoint : Addressed)
        × (client.now.revocation_url ≡ Some endpoint) × IsHttps endpoint × (request : HttpRequest)
        × IsRequestOf (revocation_configuration
        (new_revocation_request client.now endpoint token (Some (codes "refresh_token"))))
        (serialize endpoint.url) (view_of request)
        × (reply : HttpResponse) × C.step http_client.old request (Ok reply) http_client.new
        × ((reply_of reply).status ≡ 200)) }
    ensures unsent { IfSome client.now.revocation_url (λ endpoint. ¬ (IsHttps endpoint)
        → http_client.new ≡ http_client.old) }
    ensures ready { C.is_ready http_client.new }
{
    let request = client.revoke_token(alloc, StandardRevocableToken::RefreshToken(token))?;
    request.request(alloc, http_client)?;
    Ok(())
}
