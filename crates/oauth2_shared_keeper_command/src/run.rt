//! The steps of the keepers.

ghost use Rattle.std.specs.Prelude.{◌≡◌, ◌+◌, ◌<◌, ◌≤◌, ◌^◌, [], ◌∷◌, List, Some, false};
ghost use Rattle.std.specs.Prelude.{IfOk, OnOk, codes};
ghost use Rattle.oauth2_request_commands.specs.Out.{Adds, AddsOutput, Output};
ghost use Rattle.oauth2_script.specs.Replies.{Reply};
ghost use Rattle.oauth2_script.specs.Views.{shared_keeper_view};
ghost use Rattle.oauth2_shared_keeper_command.specs.Effect.{load_effect, replace_effect};
ghost use Rattle.oauth2_shared_keeper_command.specs.Renewal.{over};
ghost use Rattle.oauth2_shared_keeper_command.specs.SharedKeeper as spec;
ghost use Rattle.oauth2_shared_keeper_command.specs.private.Standing.{standing};
ghost use Rattle.oauth2_urls.specs.Addressed.{Addressed};
ghost use Rattle.oauth2_world.specs.Events.{stepped};
ghost use Rattle.oauth2_world.specs.Replay.{client_replies};

use crate::action::{Action, Replacement};
use crate::effect::{load, replace};
use crate::fleet::Fleet;
use crate::renewal::Renewal;
use crate::sending::{show_lost, show_refresh};
use crate::texts::add_step;
use crate::turn::{Going, show_effect, tell};
use oauth2_request_commands::{RunStatus, ScriptClient, show_missing};
use oauth2_script::{Fate, SharedKeeperParams, SharedKeeperStep};
use oauth2_shared_token::Told;
use oauth2_world::{Events, ScriptedClient};
use std::alloc::{AllocError, Global};

// The keeper loads what is stored.
fn show_load(
    alloc: Global,
    events: &mut Events,
    fleet: &mut Fleet,
    going: Going,
) -> Result<RunStatus, AllocError>
    ensures shown { IfOk result (λ status. (replies : List Reply)
        → (o : Output) × spec.IsEffect (standing fleet.old replies) going.keeper going.renewal
        (load_effect fleet.old.tokens.items fleet.old.stored going.is_told)
        o (standing fleet.new replies)
        × AddsOutput events.old events.new status o) }
    ensures stored { OnOk result (fleet.new.stored ≡ fleet.old.stored) }
{
    let effect = load(alloc, fleet.tokens.as_slice(), fleet.stored, going.is_told)?;
    show_effect(alloc, events, fleet, going, effect)
}

// The keeper asks the store to replace what it has.
fn show_replace(
    alloc: Global,
    events: &mut Events,
    fleet: &mut Fleet,
    going: Going,
    asked: Replacement,
) -> Result<RunStatus, AllocError>
    requires { fleet.old.stored.version + 1 < 2 ^ 64 }
    ensures shown { IfOk result (λ status. (replies : List Reply)
        → (o : Output) × spec.IsEffect (standing fleet.old replies) going.keeper going.renewal
        (replace_effect fleet.old.tokens.items fleet.old.stored asked going.is_done going.is_told)
        o (standing fleet.new replies)
        × AddsOutput events.old events.new status o) }
    ensures version { OnOk result (fleet.new.stored.version ≤ fleet.old.stored.version + 1) }
{
    let effect = replace(
        alloc,
        fleet.tokens.as_slice(),
        &mut fleet.stored,
        asked,
        going.is_done,
        going.is_told,
    )?;
    show_effect(alloc, events, fleet, going, effect)
}

// The renewal of the keeper does what comes next.
fn act(
    alloc: Global,
    client: &ScriptClient,
    fleet: &mut Fleet,
    going: Going,
    http_client: &mut ScriptedClient,
) -> Result<RunStatus, AllocError>
    requires { fleet.old.stored.version + 1 < 2 ^ 64 }
    ensures shown { IfOk result (λ status. (url : Addressed) → client.now.token_url ≡ Some url
        → http_client.new.is_starved ≡ false → (http_client.old.is_starved ≡ false)
        × ((o : Output) × spec.IsAction client.now url
        (standing fleet.old (client_replies http_client.old)) going.keeper going.renewal
        going.renewal.action going.is_done going.is_told o
        (standing fleet.new (client_replies http_client.new))
        × AddsOutput http_client.old.events http_client.new.events
        status o)) }
    ensures version { OnOk result (fleet.new.stored.version ≤ fleet.old.stored.version + 1) }
{
    let events = &mut http_client.events;
    match going.renewal.action {
        Action::Load => show_load(alloc, events, fleet, going),
        Action::Replace(asked) => show_replace(alloc, events, fleet, going, asked),
        Action::Refresh(token) => {
            if going.is_done {
                show_refresh(alloc, client, fleet, going, token, http_client)
            } else {
                show_lost(alloc, events, fleet, going, token)
            }
        }
        Action::Nothing => tell(alloc, events, fleet, going, "over", Told::Nothing),
    }
}

// The renewal of the keeper is never heard of again.
fn kill(
    alloc: Global,
    events: &mut Events,
    fleet: &mut Fleet,
    keeper: u8,
) -> Result<RunStatus, AllocError>
    ensures shown { IfOk result (λ status. (replies : List Reply)
        → (standing fleet.new replies ≡ spec.with_renewal (standing fleet.old replies) keeper over)
        × AddsOutput events.old events.new status
        (spec.says (stepped keeper (codes "killed") ∷ []))) }
    ensures stored { OnOk result (fleet.new.stored ≡ fleet.old.stored) }
{
    add_step(events, keeper, String::from_str(alloc, "killed")?)?;
    fleet.put(keeper, Renewal::over());
    Ok(RunStatus::Answered)
}

// One step, at this place.
fn show_step(
    alloc: Global,
    client: &ScriptClient,
    fleet: &mut Fleet,
    place: usize,
    step: SharedKeeperStep,
    http_client: &mut ScriptedClient,
) -> Result<RunStatus, AllocError>
    requires { fleet.old.stored.version + 1 < 2 ^ 64 }
    ensures shown { IfOk result (λ status. (url : Addressed) → client.now.token_url ≡ Some url
        → http_client.new.is_starved ≡ false → (http_client.old.is_starved ≡ false)
        × ((o : Output) × spec.IsStep client.now url place
        (standing fleet.old (client_replies http_client.old)) step
        o (standing fleet.new (client_replies http_client.new))
        × AddsOutput http_client.old.events http_client.new.events
        status o)) }
    ensures version { OnOk result (fleet.new.stored.version ≤ fleet.old.stored.version + 1) }
{
    let SharedKeeperStep { keeper, fate } = step;
    let going = Going {
        keeper,
        renewal: fleet.going_on(keeper, place as u128),
        is_done: fate != Fate::RequestLost,
        is_told: fate == Fate::Done,
    };
    match fate {
        Fate::Done | Fate::ReplyLost | Fate::RequestLost => {
            act(alloc, client, fleet, going, http_client)
        }
        Fate::Stopped => tell(
            alloc,
            &mut http_client.events,
            fleet,
            going,
            "stopped",
            Told::Stop,
        ),
        Fate::Killed => kill(alloc, &mut http_client.events, fleet, keeper),
    }
}

// All steps, in order.
fn show_steps(
    alloc: Global,
    client: &ScriptClient,
    fleet: &mut Fleet,
    steps: &[SharedKeeperStep],
    http_client: &mut ScriptedClient,
) -> Result<RunStatus, AllocError>
    requires { fleet.old.stored.version ≡ 0 }
    ensures { IfOk result (λ status. (url : Addressed) → client.now.token_url ≡ Some url
        → http_client.new.is_starved ≡ false
        → (o : Output) × spec.AreSteps client.now url 0
        (standing fleet.old (client_replies http_client.old)) steps.now
        o (standing fleet.new (client_replies http_client.new))
        × AddsOutput http_client.old.events http_client.new.events
        status o) }
{
    let mut status = RunStatus::Answered;
    let mut place = 0;
    let mut rest = steps;
    while let Some((step, later)) = rest.split_first() {
        let next = show_step(alloc, client, fleet, place, *step, http_client)?;
        status = status.both(next);
        place += 1;
        rest = later;
    }
    Ok(status)
}

// Makes a fleet, and lets its keepers go.
fn show_new_fleet(
    alloc: Global,
    client: &ScriptClient,
    params: SharedKeeperParams,
    http_client: &mut ScriptedClient,
) -> Result<RunStatus, AllocError>
    ensures { IfOk result (λ status. (url : Addressed) → client.now.token_url ≡ Some url
        → http_client.new.is_starved ≡ false
        → (o : Output) × (kept : spec.Standing) × spec.AreSteps client.now url 0
        (spec.new_standing (shared_keeper_view params) (client_replies http_client.old))
        params.steps.items o kept
        × AddsOutput http_client.old.events http_client.new.events
        status o) }
{
    let SharedKeeperParams {
        refresh_token,
        steps,
    } = params;
    let mut fleet = Fleet::new(alloc, refresh_token)?;
    show_steps(alloc, client, &mut fleet, steps.as_slice(), http_client)
}

/// Lets keepers of one token go step by step, and shows what each does, each request and its
/// result.
pub fn run_shared_keeper(
    alloc: Global,
    client: &ScriptClient,
    params: SharedKeeperParams,
    http_client: &mut ScriptedClient,
) -> Result<RunStatus, AllocError>
    ensures { IfOk result (λ status. http_client.new.is_starved ≡ false
        → Adds http_client.old.events http_client.new.events status
        (spec.IsSharedKeeperOutput client.now (shared_keeper_view params)
        (client_replies http_client.old))) }
{
    match client.token_uri() {
        Some(_) => show_new_fleet(alloc, client, params, http_client),
        None => {
            drop(params);
            show_missing(alloc, &mut http_client.events, "token")
        }
    }
}
