//! A refresh token that a keeper sends.

ghost use Rattle.std.specs.Prelude.{◌≡◌, ◌++◌, List, Some, false, OnOk, IfOk, codes};
ghost use Rattle.std.specs.Prelude.{string_bytes};
ghost use Rattle.oauth2_request_commands.specs.Out.{AddsOutput, Output};
ghost use Rattle.oauth2_script.specs.Replies.{Reply as Reply'};
ghost use Rattle.oauth2_shared_keeper_command.specs.SharedKeeper as spec;
ghost use Rattle.oauth2_shared_keeper_command.specs.private.Standing.{standing};
ghost use Rattle.oauth2_shared_token.specs.declared.renewal.Told.TheVariants as told;
ghost use Rattle.oauth2_urls.specs.Addressed.{Addressed};
ghost use Rattle.oauth2_world.specs.Replay.{client_replies};

use crate::fleet::Fleet;
use crate::refreshing::refresh;
use crate::texts::{add_step, token_text};
use crate::turn::{Going, take_turn, tell};
use oauth2::RefreshToken;
use oauth2_request_commands::{RunStatus, ScriptClient};
use oauth2_script::Reply;
use oauth2_shared_token::Told;
use oauth2_world::{Events, ScriptedClient};
use std::alloc::{AllocError, Global};

// What the step of a keeper says of a refresh token that it sends.
fn refresh_text(alloc: Global, tokens: &[RefreshToken], token: usize) -> Result<String, AllocError>
    ensures { IfOk result (λ s. string_bytes s ≡ spec.refresh_text tokens.now token) }
{
    let token = token_text(alloc, tokens, token)?;
    format!(in alloc; "refresh {token}")
}

// What it says if the token is lost on its way.
fn lost_text(alloc: Global, tokens: &[RefreshToken], token: usize) -> Result<String, AllocError>
    ensures { IfOk result (λ s. string_bytes s
        ≡ spec.refresh_text tokens.now token ++ codes " lost") }
{
    let sent = refresh_text(alloc, tokens, token)?;
    format!(in alloc; "{sent} lost")
}

/// The keeper sends a refresh token, which is lost on its way.
pub fn show_lost(
    alloc: Global,
    events: &mut Events,
    fleet: &mut Fleet,
    going: Going,
    token: usize,
) -> Result<RunStatus, AllocError>
    ensures shown { IfOk result (λ status. (replies : List Reply')
        → (o : Output) × spec.IsEffect (standing fleet.old replies) going.keeper going.renewal
        (spec.without_effect (standing fleet.old replies)
        (spec.refresh_text fleet.old.tokens.items token ++ codes " lost") told.Nothing)
        o (standing fleet.new replies)
        × AddsOutput events.old events.new status o) }
    ensures stored { OnOk result (fleet.new.stored ≡ fleet.old.stored) }
{
    let text = lost_text(alloc, fleet.tokens.as_slice(), token)?;
    tell(alloc, events, fleet, going, text.as_str(), Told::Nothing)
}

// Unless the keeper is told of it, the reply of the next call is lost: the call fails.
fn lose_reply_unless(is_told: bool, http_client: &mut ScriptedClient) -> Result<(), AllocError>
    ensures replies { OnOk result (client_replies http_client.new
        ≡ spec.coming is_told (client_replies http_client.old)) }
    ensures events { OnOk result (http_client.new.events ≡ http_client.old.events) }
    ensures is_fed { OnOk result (http_client.new.is_starved ≡ http_client.old.is_starved) }
{
    if is_told {
        return Ok(());
    }
    drop(http_client.replies.pop_front());
    http_client.replies.push_front(Reply::Failed)?;
    Ok(())
}

/// The keeper sends a refresh token, whose reply may be lost. The client has to have a token
/// endpoint.
pub fn show_refresh(
    alloc: Global,
    client: &ScriptClient,
    fleet: &mut Fleet,
    going: Going,
    token: usize,
    http_client: &mut ScriptedClient,
) -> Result<RunStatus, AllocError>
    ensures shown { IfOk result (λ status. (url : Addressed) → client.now.token_url ≡ Some url
        → http_client.new.is_starved ≡ false → (http_client.old.is_starved ≡ false)
        × ((o : Output) × spec.IsSending client.now url
        (standing fleet.old (client_replies http_client.old)) going.keeper going.renewal token
        going.is_told o (standing fleet.new (client_replies http_client.new))
        × AddsOutput http_client.old.events http_client.new.events
        status o)) }
    ensures stored { OnOk result (fleet.new.stored ≡ fleet.old.stored) }
{
    let text = refresh_text(alloc, fleet.tokens.as_slice(), token)?;
    add_step(&mut http_client.events, going.keeper, text)?;
    lose_reply_unless(going.is_told, http_client)?;
    let refresh_token = fleet.refresh_token(alloc, token)?;
    let (status, given) = refresh(alloc, client, &refresh_token, http_client)?;
    let told = fleet.told(given)?;
    take_turn(alloc, &mut http_client.events, fleet, going, told)?;
    Ok(status)
}
