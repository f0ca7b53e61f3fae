//! Scopes that are separated by commas instead of spaces.

ghost use Rattle.std.specs.Prelude.{◌≡◌, ◌∷◌, ◌++◌, ◌<◌, [], None, Some, map, string_bytes};
ghost use Rattle.std.specs.Prelude.{IfOk, OnOk, MatchOption};
ghost use Rattle.std.specs.Bool.{OnTrue};
ghost use Rattle.std.specs.List.{list_all, list_any};
ghost use Rattle.std.specs.Str.{IsAscii};
ghost use Rattle.json.specs.Json.{string};
ghost use Rattle.json.specs.Value.{value_view};
ghost use Rattle.oauth2_adapters.specs.CommasInScopes.{has_commas, is_ascii, is_comma};
ghost use Rattle.oauth2_adapters.specs.CommasInScopes.{spaced_byte, spaced_scope};

use crate::reply_adapter::ReplyAdapter;
use crate::rewriting::{MemberChange, adapt_reply};
use json::Writer;
use oauth2_wire::HttpResponse;
use std::alloc::{AllocError, Global};

/// Replaces each comma in the member `scope` by a space, as the replies of GitHub need.
#[derive(Clone, Copy, Debug, PartialEq, Eq)]
pub struct CommasInScopes;

impl ReplyAdapter for CommasInScopes {
    ghost use Rattle.oauth2_adapters.specs.CommasInScopes.{spaced_scope};
    ghost use Rattle.oauth2_adapters.specs.Rewriting.{with_changes, has_body};

    ghost adapted = { λ _. with_changes spaced_scope };

    ghost needs_memory = { λ _. has_body };

    fn adapt(&self, alloc: Global, reply: HttpResponse) -> Result<HttpResponse, AllocError> {
        adapt_reply(alloc, self, reply)
    }
}

impl MemberChange for CommasInScopes {
    ghost use Rattle.oauth2_adapters.specs.CommasInScopes.{spaced_scope};

    ghost change = { λ _. spaced_scope };

    fn write(
        &self,
        alloc: Global,
        name: &str,
        value: &json::Value<'_>,
        writer: &mut Writer,
    ) -> Result<bool, AllocError> {
        match scope_with_commas(name, value) {
            Some(text) => {
                let spaced = spaces_for_commas(alloc, text)?;
                writer.string(&spaced)?;
                Ok(true)
            }
            None => {
                writer.value(value)?;
                Ok(false)
            }
        }
    }
}

// The text to change, if the member is a scope with commas.
fn scope_with_commas<'a>(name: &str, value: &json::Value<'a>) -> Option<&'a str>
    ensures value { let becomes = spaced_scope name.now (value_view value.now) in
        MatchOption result (becomes ≡ None)
        (λ text. (becomes ≡ Some (string (map spaced_byte text.now))) × IsAscii text.now) }
{
    match value {
        json::Value::String(text) => if name == "scope" && has_commas(*text) {
            Some(*text)
        } else {
            None
        },
        _ => None,
    }
}

fn has_commas(text: &str) -> bool
    ensures value { result ≡ has_commas text.now }
    ensures ascii { OnTrue result (IsAscii text.now) }
{
    if !is_ascii(text) {
        return false;
    }
    has_comma(text)
}

fn is_ascii(text: &str) -> bool
    ensures { result ≡ list_all is_ascii text.now }
{
    text.as_bytes().iter().all(|&b| b < 128)
}

fn has_comma(text: &str) -> bool
    ensures { result ≡ list_any is_comma text.now }
{
    text.as_bytes().iter().any(|&b| b == b',')
}

fn spaces_for_commas(alloc: Global, text: &str) -> Result<String, AllocError>
    requires { IsAscii text.now }
    ensures { IfOk result (λ s. string_bytes s ≡ map spaced_byte text.now) }
{
    let mut spaced = String::with_capacity(alloc, text.len())?;
    for &b in text.as_bytes() {
        push_spaced(&mut spaced, b)?;
    }
    Ok(spaced)
}

fn push_spaced(text: &mut String, b: u8) -> Result<(), AllocError>
    requires { b < 128 }
    ensures { OnOk result (string_bytes text.new ≡ string_bytes text.old ++ spaced_byte b ∷ []) }
{
    if b == b',' {
        text.push(' ')
    } else {
        text.push(char::from(b))
    }
}
