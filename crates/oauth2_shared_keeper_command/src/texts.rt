//! The events of a keeper, and their texts.

ghost use Rattle.std.specs.Prelude.{◌≡◌, ◌++◌, ◌∷◌, [], IfOk, OnOk, codes, string_bytes};
ghost use Rattle.std.specs.Prelude.{slice_index_or};
ghost use Rattle.std.specs.Fmt.{decimal};
ghost use Rattle.oauth2_shared_keeper_command.specs.Effect as spec;
ghost use Rattle.oauth2_world.specs.Events.{stepped};

use oauth2::RefreshToken;
use oauth2_shared_token::Step;
use oauth2_world::{Event, Events, quoted};
use std::alloc::{AllocError, Global};

/// The text of the refresh token of this token.
pub fn secret_of(tokens: &[RefreshToken], token: usize) -> &str
    ensures { result.now ≡ slice_index_or tokens.now token [] }
{
    match tokens.get(token) {
        Some(refresh_token) => refresh_token.secret().as_str(),
        None => "",
    }
}

/// Adds the event of a step of the keeper, with this text.
pub fn add_step(events: &mut Events, keeper: u8, text: String) -> Result<(), AllocError>
    ensures { OnOk result (events.new ≡ events.old ++ stepped keeper (string_bytes text) ∷ []) }
{
    events.push(Event::Step(keeper, text))?;
    Ok(())
}

/// A token as its text.
pub fn token_text(
    alloc: Global,
    tokens: &[RefreshToken],
    token: usize,
) -> Result<String, AllocError>
    ensures { IfOk result (λ s. string_bytes s ≡ spec.token_text tokens.now token) }
{
    quoted(alloc, secret_of(tokens, token))
}

fn mark_text(alloc: Global, renewal: u128, token: &str) -> Result<String, AllocError>
    ensures { IfOk result (λ s. string_bytes s
        ≡ codes "mark " ++ decimal renewal ++ codes " " ++ token.now) }
{
    let text = format!(in alloc; "mark {renewal} {token}")?;
    Ok(text)
}

/// What a version holds, as its text.
pub fn content_text(
    alloc: Global,
    tokens: &[RefreshToken],
    token: usize,
    mark: Option<u128>,
) -> Result<String, AllocError>
    ensures { IfOk result (λ s. string_bytes s ≡ spec.content_text tokens.now token mark) }
{
    let token = token_text(alloc, tokens, token)?;
    match mark {
        None => format!(in alloc; "rest {token}"),
        Some(renewal) => mark_text(alloc, renewal, token.as_str()),
    }
}

fn in_use_text(alloc: Global, renewal: u128, token: &str) -> Result<String, AllocError>
    ensures { IfOk result (λ s. string_bytes s
        ≡ codes "in_use " ++ decimal renewal ++ codes " " ++ token.now) }
{
    let text = format!(in alloc; "in_use {renewal} {token}")?;
    Ok(text)
}

/// Adds the event of the step that ends a renewal; none for other steps.
pub fn add_end(
    alloc: Global,
    events: &mut Events,
    tokens: &[RefreshToken],
    keeper: u8,
    step: &Step<usize>,
) -> Result<(), AllocError>
    ensures { OnOk result (events.new
        ≡ events.old ++ spec.end_events tokens.now keeper step.now) }
{
    match step {
        Step::InUse(other, token) => {
            let token = token_text(alloc, tokens, *token)?;
            let text = in_use_text(alloc, *other, token.as_str())?;
            add_step(events, keeper, text)
        }
        Step::LoggedOut => add_step(events, keeper, String::from_str(alloc, "logged_out")?),
        Step::End => add_step(events, keeper, String::from_str(alloc, "over")?),
        _ => Ok(()),
    }
}
