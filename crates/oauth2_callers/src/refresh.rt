//! A refresh request that is sent (RFC 6749, section 6).

ghost use Rattle.std.specs.Prelude.{◌≡◌, Some};
ghost use Rattle.url.specs.Parts.{serialize};
ghost use Rattle.oauth2_urls.specs.Addressed.{Addressed};
ghost use Rattle.oauth2_wire.specs.Once.{AsksOnce};
ghost use Rattle.oauth2_wire.specs.Reply.{answer_of};
ghost use Rattle.oauth2_wire.specs.Request.{IsRequestOf};
ghost use Rattle.oauth2_requests.specs.Refresh.{refresh_configuration};
ghost use Rattle.oauth2.specs.NewRequest.{new_refresh_request};

use crate::client::CodeClient;
use oauth2::basic::{BasicErrorResponse, BasicRequestTokenError, BasicTokenResponse};
use oauth2::{FromJson, RefreshToken, SyncHttpClient};
use std::alloc::Global;

/// Requests a new token with a refresh token. Either the HTTP client is called once, with this
/// request, and the result is what its reply says; or it is not called.
pub fn refreshed_token<C: SyncHttpClient>(
    alloc: Global,
    client: &CodeClient,
    http_client: &mut C,
    token: &RefreshToken,
) -> Result<BasicTokenResponse, BasicRequestTokenError<C::Error>>
    requires { C.is_ready http_client.old }
    ensures once { (endpoint : Addressed) × (client.now.token_url ≡ Some endpoint)
        × AsksOnce ⟦<BasicTokenResponse as FromJson>⟧.meaning
        ⟦<BasicErrorResponse as FromJson>⟧.meaning C.step
        (answer_of client.now.reply_rule ⟦<BasicTokenResponse as FromJson>⟧.reading
        ⟦<BasicErrorResponse as FromJson>⟧.reading)
        (IsRequestOf (refresh_configuration (new_refresh_request client.now endpoint token.now)))
        (serialize endpoint.url) http_client.old result http_client.new }
    ensures ready { C.is_ready http_client.new }
{
    client
        .exchange_refresh_token(alloc, token)
        .request(alloc, http_client)
}
