//! The scopes of an answer as JSON.

ghost use Rattle.std.specs.Prelude.{◌≡◌, IfOk, string_bytes};
ghost use Rattle.serde_json.specs.View.{view};
ghost use Rattle.oauth2_results.specs.ScopesJson as spec;

use crate::json_text::list_text;
use oauth2_world::quoted;
use serde_json::Value;
use std::alloc::{AllocError, Global};

// What stands between the spaces of a text, as an array of strings.
fn words_json(alloc: Global, text: &str) -> Result<String, AllocError>
    ensures { IfOk result (λ s. string_bytes s ≡ spec.words_json text.now) }
{
    let words: Vec<&str> = text.split(' ').collect(alloc)?;
    let mut items = Vec::new(alloc);
    for &word in words.as_slice() {
        items.push(quoted(alloc, word)?)?;
    }
    let list = list_text(alloc, items.as_slice())?;
    Ok(list)
}

// The scopes in the member `scope` of a value, or `null` if it is no text.
fn value_scopes_json(alloc: Global, value: &Value) -> Result<String, AllocError>
    ensures { IfOk result (λ s. string_bytes s
        ≡ spec.optional_words_json (spec.scope_of (view value.now))) }
{
    match value.get("scope") {
        Some(Value::String(text)) => words_json(alloc, text.as_str()),
        _ => String::from_str(alloc, "null"),
    }
}

/// The scopes of an answer, which is a JSON text, as an array, or `null` if it has none.
pub fn scopes_json(alloc: Global, answer: &str) -> Result<String, AllocError>
    ensures { IfOk result (λ s. string_bytes s ≡ spec.scopes_json answer.now) }
{
    match Value::from_str(alloc, answer) {
        Ok(value) => value_scopes_json(alloc, &value),
        Err(error) => if error.is_memory() {
            Err(AllocError)
        } else {
            String::from_str(alloc, "null")
        },
    }
}
