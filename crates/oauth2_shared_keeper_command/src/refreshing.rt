//! The sending of a refresh token.

ghost use Rattle.std.specs.Prelude.{◌≡◌, Some, false, IfOk};
ghost use Rattle.oauth2_request_commands.specs.Out.{Output, AddsOutput};
ghost use Rattle.oauth2_shared_keeper_command.specs.Refreshing.{IsRefreshed};
ghost use Rattle.oauth2_shared_keeper_command.specs.private.Given.{given_in};
ghost use Rattle.oauth2_urls.specs.Addressed.{Addressed};
ghost use Rattle.oauth2_world.specs.Replay.{client_replies};

use oauth2::basic::{BasicErrorResponse, BasicTokenResponse};
use oauth2::{RefreshToken, RequestTokenError, TokenResponse, TryClone};
use oauth2_request_commands::{RunStatus, ScriptClient, show_configuration_error, show_end};
use oauth2_world::{NoReply, ScriptedClient};
use std::alloc::{AllocError, Global};

type End = Result<BasicTokenResponse, RequestTokenError<NoReply, BasicErrorResponse>>;

// The refresh token that goes on after this result, if it is a token.
fn given_in(
    alloc: Global,
    sent: &RefreshToken,
    end: &End,
) -> Result<Option<RefreshToken>, AllocError>
    ensures { IfOk result (λ given. given ≡ given_in sent.now end.now) }
{
    let Ok(response) = end else {
        return Ok(None);
    };
    let goes_on = response.refresh_token().unwrap_or(sent);
    Ok(Some(goes_on.try_clone(alloc)?))
}

/// Sends a refresh token, and shows the request and its result. Returns the refresh token that goes
/// on, if the server gave a token. The client has to have a token endpoint.
pub fn refresh(
    alloc: Global,
    client: &ScriptClient,
    sent: &RefreshToken,
    http_client: &mut ScriptedClient,
) -> Result<(RunStatus, Option<RefreshToken>), AllocError>
    ensures { IfOk result (λ r. (url : Addressed) → client.now.token_url ≡ Some url
        → http_client.new.is_starved ≡ false → (http_client.old.is_starved ≡ false)
        × ((o : Output) × IsRefreshed client.now url sent.now (client_replies http_client.old) o
        r.1 (client_replies http_client.new)
        × AddsOutput http_client.old.events http_client.new.events
        r.0 o)) }
{
    match client.exchange_refresh_token(alloc, sent) {
        Ok(request) => {
            let end = request.request(alloc, http_client);
            let given = given_in(alloc, sent, &end)?;
            let status = show_end(alloc, &mut http_client.events, &end)?;
            Ok((status, given))
        }
        Err(error) => {
            let status = show_configuration_error(alloc, &mut http_client.events, &error)?;
            Ok((status, None))
        }
    }
}
