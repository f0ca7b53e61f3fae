//! A keeper that goes, and the turn of its renewal.

ghost use Rattle.std.specs.Prelude.{◌≡◌, ◌++◌, List, OnOk, IfOk, slice_set, string_bytes};
ghost use Rattle.oauth2_request_commands.specs.Out.{AddsOutput, Output};
ghost use Rattle.oauth2_script.specs.Replies.{Reply};
ghost use Rattle.oauth2_shared_keeper_command.specs.Effect.{end_events};
ghost use Rattle.oauth2_shared_keeper_command.specs.Renewal.{turn_of, after_turn};
ghost use Rattle.oauth2_shared_keeper_command.specs.SharedKeeper as spec;
ghost use Rattle.oauth2_shared_keeper_command.specs.private.Standing.{standing};

use crate::effect::Effect;
use crate::fleet::Fleet;
use crate::renewal::Renewal;
use crate::texts::{add_end, add_step};
use oauth2_request_commands::RunStatus;
use oauth2_shared_token::Told;
use oauth2_world::Events;
use std::alloc::{AllocError, Global};

/// A keeper that goes.
#[derive(Drop)]
pub struct Going {
    /// Its number.
    pub keeper: u8,
    /// Its renewal.
    pub renewal: Renewal,
    /// Whether the next action of its renewal is done.
    pub is_done: bool,
    /// Whether it is told what came of that.
    pub is_told: bool,
}

/// The keeper is told this, and its renewal takes its turn; adds the event of its end.
pub fn take_turn(
    alloc: Global,
    events: &mut Events,
    fleet: &mut Fleet,
    going: Going,
    told: Told<usize>,
) -> Result<(), AllocError>
    ensures events { OnOk result (events.new ≡ events.old
        ++ end_events fleet.old.tokens.items going.keeper (turn_of going.renewal told).step) }
    ensures renewals { OnOk result (fleet.new.renewals.items
        ≡ slice_set fleet.old.renewals.items going.keeper (after_turn going.renewal told)) }
    ensures stored { OnOk result (fleet.new.stored ≡ fleet.old.stored) }
    ensures tokens { OnOk result (fleet.new.tokens ≡ fleet.old.tokens) }
{
    let (renewal, step) = going.renewal.after_turn(told);
    add_end(alloc, events, fleet.tokens.as_slice(), going.keeper, &step)?;
    fleet.put(going.keeper, renewal);
    Ok(())
}

/// Adds the event of what the keeper did, and its renewal takes its turn.
pub fn show_effect(
    alloc: Global,
    events: &mut Events,
    fleet: &mut Fleet,
    going: Going,
    effect: Effect,
) -> Result<RunStatus, AllocError>
    ensures shown { IfOk result (λ status. (replies : List Reply)
        → (o : Output) × spec.IsEffect (standing fleet.old replies) going.keeper going.renewal
        (record { text = string_bytes effect.text; told = effect.told; stored = fleet.old.stored })
        o (standing fleet.new replies)
        × AddsOutput events.old events.new status o) }
    ensures stored { OnOk result (fleet.new.stored ≡ fleet.old.stored) }
{
    let Effect { text, told } = effect;
    add_step(events, going.keeper, text)?;
    take_turn(alloc, events, fleet, going, told)?;
    Ok(RunStatus::Answered)
}

/// The keeper is told this, and nothing else happens.
pub fn tell(
    alloc: Global,
    events: &mut Events,
    fleet: &mut Fleet,
    going: Going,
    text: &str,
    told: Told<usize>,
) -> Result<RunStatus, AllocError>
    ensures shown { IfOk result (λ status. (replies : List Reply)
        → (o : Output) × spec.IsEffect (standing fleet.old replies) going.keeper going.renewal
        (spec.without_effect (standing fleet.old replies) text.now told)
        o (standing fleet.new replies)
        × AddsOutput events.old events.new status o) }
    ensures stored { OnOk result (fleet.new.stored ≡ fleet.old.stored) }
{
    let text = String::from_str(alloc, text)?;
    show_effect(alloc, events, fleet, going, Effect { text, told })
}
