//! The command `keeper`: a keeper of the client's token, called once at each reading.

ghost use Rattle.std.specs.Prelude.{◌≡◌, ◌++◌, Some, false};
ghost use Rattle.std.specs.Prelude.{IfOk, map, option_map, string_bytes};
ghost use Rattle.oauth2_commands.specs.Keeper as spec;
ghost use Rattle.oauth2_request_commands.specs.Out.{Adds};
ghost use Rattle.oauth2_commands.specs.private.Kept.{standing, CallsAdd, AreKept};
ghost use Rattle.oauth2_wire.specs.ServerView.{pair_texts};
ghost use Rattle.oauth2_world.specs.Replay.{client_replies};
ghost use Rattle.oauth2_script.specs.Views.{keeper_view};

use crate::script_keeper::{PlainKeeper, ScriptKeeper, show_call, waiting_keeper};
use jiff::Timestamp;
use oauth2::basic::BasicClient;
use oauth2::{EndpointMaybeSet, EndpointSet, ParamText, TokenUrl, TryClone};
use oauth2_keeper::TokenKeeper;
use oauth2_request_commands::{RunStatus, ScriptClient, show_missing};
use oauth2_script::KeeperParams;
use oauth2_world::ScriptedClient;
use std::alloc::{AllocError, Global};

// A client of a script that has a token endpoint.
type KeptClient = BasicClient<
    EndpointMaybeSet,
    EndpointMaybeSet,
    EndpointMaybeSet,
    EndpointMaybeSet,
    EndpointSet,
>;

// Calls the keeper at each of these moments, and shows each result.
fn show_calls(
    alloc: Global,
    keeper: &mut ScriptKeeper<'_>,
    readings: &[jiff_core::Timestamp],
    http_client: &mut ScriptedClient,
) -> Result<RunStatus, AllocError>
    ensures { IfOk result (λ status. http_client.new.is_starved ≡ false
        → CallsAdd (standing keeper.old http_client.old) (standing keeper.new http_client.new)
        http_client.old.events http_client.new.events status
        (map (λ t. t.nanosecond) readings.now)) }
{
    let mut status = RunStatus::Answered;
    for now in readings {
        let later = show_call(alloc, keeper, Timestamp::from_plain(*now), http_client)?;
        status = status.both(later);
    }
    Ok(status)
}

// A copy of the client whose type says that the token endpoint is set; its URL is `token_url`.
fn with_token_endpoint(
    alloc: Global,
    client: &ScriptClient,
    token_url: &TokenUrl,
) -> Result<KeptClient, AllocError>
    ensures { IfOk result (λ copy. copy ≡ record client.now { token_url = Some token_url.now }) }
{
    let token_url = token_url.try_clone(alloc)?;
    Ok(client.try_clone(alloc)?.set_token_uri(token_url))
}

// Adds each of these extra parameters, in order.
fn add_extra<'a>(
    alloc: Global,
    keeper: &mut PlainKeeper<'a>,
    extra_params: &'a [(String, String)],
) -> Result<(), AllocError>
    ensures { IfOk result (λ done. keeper.new ≡ record keeper.old {
      extra_params = keeper.old.extra_params ++ map pair_texts extra_params.now;
    }) }
{
    for (name, value) in extra_params {
        keeper.add_extra_param(
            alloc,
            ParamText::Borrowed(name.as_str()),
            ParamText::Borrowed(value.as_str()),
        )?;
    }
    Ok(())
}

// Adds the texts of these, in order.
fn push_texts<'a>(texts: &mut Vec<&'a str>, strings: &'a [String]) -> Result<(), AllocError>
    ensures { IfOk result (λ done. map (λ text. text.now) texts.new.items
        ≡ map (λ text. text.now) texts.old.items ++ map string_bytes strings.now) }
{
    for string in strings {
        texts.push(string.as_str())?;
    }
    Ok(())
}

// Makes a keeper with these extra parameters, which hands out tokens of the types with these texts,
// calls it at each reading, and shows each result.
fn show_keeper_of_texts<'a>(
    alloc: Global,
    client: &'a KeptClient,
    params: KeeperParams,
    extra_params: &'a [(String, String)],
    texts: Option<&'a [&'a str]>,
    readings: &[jiff_core::Timestamp],
    http_client: &mut ScriptedClient,
) -> Result<RunStatus, AllocError>
    ensures { IfOk result (λ status. http_client.new.is_starved ≡ false
        → Adds http_client.old.events http_client.new.events status
        (AreKept client.now (record (keeper_view params) {
          extra_params = map pair_texts extra_params.now;
          token_types = option_map (λ list. map (λ text. text.now) list.now) texts.entry;
        }) (map (λ t. t.nanosecond) readings.now) (client_replies http_client.old))) }
{
    let KeeperParams {
        margin,
        life,
        refresh,
        scopes,
        extra_params: _,
        retry_after,
        token_types: _,
    } = params;
    let mut keeper = TokenKeeper::new(client, refresh, margin, life);
    keeper.add_scopes(alloc, scopes)?;
    add_extra(alloc, &mut keeper, extra_params)?;
    let mut keeper = waiting_keeper(keeper, retry_after, texts);
    show_calls(alloc, &mut keeper, readings, http_client)
}

// The same, where the types are these.
fn show_keeper_of_types<'a>(
    alloc: Global,
    client: &'a KeptClient,
    params: KeeperParams,
    extra_params: &'a [(String, String)],
    token_types: &'a Option<Vec<String>>,
    readings: &[jiff_core::Timestamp],
    http_client: &mut ScriptedClient,
) -> Result<RunStatus, AllocError>
    ensures { IfOk result (λ status. http_client.new.is_starved ≡ false
        → Adds http_client.old.events http_client.new.events status
        (AreKept client.now (record (keeper_view params) {
          extra_params = map pair_texts extra_params.now;
          token_types = option_map (λ list. map string_bytes list.items) token_types.now;
        }) (map (λ t. t.nanosecond) readings.now) (client_replies http_client.old))) }
{
    let Some(strings) = token_types else {
        let texts = None;
        return show_keeper_of_texts(
            alloc,
            client,
            params,
            extra_params,
            texts,
            readings,
            http_client,
        );
    };
    let mut texts = Vec::new(alloc);
    push_texts(&mut texts, strings.as_slice())?;
    show_keeper_of_texts(
        alloc,
        client,
        params,
        extra_params,
        Some(texts.as_slice()),
        readings,
        http_client,
    )
}

// Makes a keeper, calls it at each reading, and shows each result.
fn show_new_keeper(
    alloc: Global,
    client: &KeptClient,
    mut params: KeeperParams,
    readings: &[jiff_core::Timestamp],
    http_client: &mut ScriptedClient,
) -> Result<RunStatus, AllocError>
    ensures { IfOk result (λ status. http_client.new.is_starved ≡ false
        → Adds http_client.old.events http_client.new.events status
        (AreKept client.now (keeper_view params) (map (λ t. t.nanosecond) readings.now)
        (client_replies http_client.old))) }
{
    let token_types = params.token_types.take();
    let extra_params = std::mem::replace(&mut params.extra_params, Vec::new(alloc));
    show_keeper_of_types(
        alloc,
        client,
        params,
        extra_params.as_slice(),
        &token_types,
        readings,
        http_client,
    )
}

/// Calls a keeper at each reading, and shows each request and each result.
pub fn run_keeper(
    alloc: Global,
    client: &ScriptClient,
    params: KeeperParams,
    readings: &[jiff_core::Timestamp],
    http_client: &mut ScriptedClient,
) -> Result<RunStatus, AllocError>
    ensures { IfOk result (λ status. http_client.new.is_starved ≡ false
        → Adds http_client.old.events http_client.new.events status
        (spec.IsKeeperOutput client.now (keeper_view params) (map (λ t. t.nanosecond) readings.now)
        (client_replies http_client.old))) }
{
    match client.token_uri() {
        Some(token_url) => {
            let client = with_token_endpoint(alloc, client, token_url)?;
            show_new_keeper(alloc, &client, params, readings, http_client)
        }
        None => {
            drop(params);
            show_missing(alloc, &mut http_client.events, "token")
        }
    }
}
