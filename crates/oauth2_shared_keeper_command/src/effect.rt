//! What a keeper does at the store.

ghost use Rattle.std.specs.Prelude.{◌≡◌, ◌<◌, ◌+◌, ◌^◌, IfOk, string_bytes};
ghost use Rattle.oauth2_shared_keeper_command.specs.Effect as spec;

use crate::action::{Replacement, Stored};
use crate::texts::content_text;
use oauth2::RefreshToken;
use oauth2_shared_token::{Content, StoredValue, Told};
use std::alloc::{AllocError, Global};

/// What the step of a keeper says of what it did, and what it is told.
#[derive(Drop)]
pub struct Effect {
    pub text: String,
    pub told: Told<usize>,
}

fn value_of(stored: Stored) -> StoredValue<usize>
    ensures { result ≡ record {
      version = stored.version;
      content = spec.content_of stored.token stored.mark;
    } }
{
    let content = match stored.mark {
        None => Content::AtRest(stored.token),
        Some(renewal) => Content::Marked(stored.token, renewal),
    };
    StoredValue {
        version: stored.version,
        content,
    }
}

/// A load, whose reply may be lost.
pub fn load(
    alloc: Global,
    tokens: &[RefreshToken],
    stored: Stored,
    is_told: bool,
) -> Result<Effect, AllocError>
    ensures { IfOk result (λ e.
        (string_bytes e.text ≡ (spec.load_effect tokens.now stored is_told).text)
        × (e.told ≡ (spec.load_effect tokens.now stored is_told).told)) }
{
    if !is_told {
        return Ok(Effect {
            text: String::from_str(alloc, "load lost")?,
            told: Told::Nothing,
        });
    }
    let content = content_text(alloc, tokens, stored.token, stored.mark)?;
    Ok(Effect {
        text: format!(in alloc; "load {} {content}", stored.version)?,
        told: Told::Stored(value_of(stored)),
    })
}

fn outcome_text(is_told: bool, is_taken: bool) -> &'static str
    ensures { result.now ≡ spec.outcome_text is_told is_taken }
{
    if !is_told {
        "lost"
    } else if is_taken {
        "done"
    } else {
        "refused"
    }
}

fn is_taken(stored: Stored, asked: Replacement, is_done: bool) -> bool
    ensures { result ≡ spec.is_taken stored asked is_done }
{
    is_done && stored.version as u128 == asked.version
}

/// A request to replace what is stored, which may be lost, or whose reply may be.
pub fn replace(
    alloc: Global,
    tokens: &[RefreshToken],
    stored: &mut Stored,
    asked: Replacement,
    is_done: bool,
    is_told: bool,
) -> Result<Effect, AllocError>
    requires { stored.old.version + 1 < 2 ^ 64 }
    ensures told { IfOk result (λ e.
        (string_bytes e.text ≡ (spec.replace_effect tokens.now stored.old asked is_done is_told).text)
        × (e.told ≡ (spec.replace_effect tokens.now stored.old asked is_done is_told).told)
        × (stored.new ≡ (spec.replace_effect tokens.now stored.old asked is_done is_told).stored)) }
{
    let is_taken = is_taken(*stored, asked, is_done);
    let content = content_text(alloc, tokens, asked.token, asked.mark)?;
    let outcome = outcome_text(is_told, is_taken);
    let text = format!(in alloc; "replace {} {content} {outcome}", asked.version)?;
    if is_taken {
        *stored = Stored {
            version: stored.version + 1,
            token: asked.token,
            mark: asked.mark,
        };
    }
    let told = if is_told && is_taken {
        Told::Done
    } else {
        Told::Nothing
    };
    Ok(Effect { text, told })
}
