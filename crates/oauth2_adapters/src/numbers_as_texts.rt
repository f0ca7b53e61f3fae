//! Numbers that a server sends as JSON strings.

ghost use Rattle.std.specs.Prelude.{◌≡◌, None, Some, bytes_eq, map, MatchOption};
ghost use Rattle.std.specs.Bool.{OnTrue};
ghost use Rattle.std.specs.List.{list_all, list_any};
ghost use Rattle.json.specs.Json.{number};
ghost use Rattle.json.specs.Print.{IsNumber};
ghost use Rattle.json.specs.Value.{value_view};
ghost use Rattle.oauth2_adapters.specs.NumbersAsTexts.{is_digit, is_digits, number_under};

use crate::reply_adapter::ReplyAdapter;
use crate::rewriting::{MemberChange, adapt_reply};
use json::Writer;
use oauth2_wire::HttpResponse;
use std::alloc::{AllocError, Global};
use std::marker::Model;

/// Turns the members with these names from strings of decimal digits into numbers: `"expires_in":
/// "3599"` becomes `"expires_in": 3599`. Contracts see the names.
#[derive(Debug, Drop)]
pub struct NumbersAsTexts<'a> {
    names: &'a [&'a str],
}

impl<'a> Model for NumbersAsTexts<'a> {
    ghost use Rattle.std.specs.Prelude.{List, ℕ, map};

    ghost Value = { List (List ℕ) };

    ghost view = { λ a. map (λ n. n.now) a.names.now };
}

impl<'a> NumbersAsTexts<'a> {
    /// The adapter for members with these names.
    pub fn new(names: &'a [&'a str]) -> NumbersAsTexts<'a>
        ensures { result ≡ map (λ n. n.now) names.now }
    {
        NumbersAsTexts { names }
    }
}

impl ReplyAdapter for NumbersAsTexts<'_> {
    ghost use Rattle.oauth2_adapters.specs.NumbersAsTexts.{number_under};
    ghost use Rattle.oauth2_adapters.specs.Rewriting.{with_changes, has_body};

    ghost adapted = { λ names. with_changes (number_under names) };

    ghost needs_memory = { λ _. has_body };

    fn adapt(&self, alloc: Global, reply: HttpResponse) -> Result<HttpResponse, AllocError> {
        adapt_reply(alloc, self, reply)
    }
}

impl MemberChange for NumbersAsTexts<'_> {
    ghost use Rattle.oauth2_adapters.specs.NumbersAsTexts.{number_under};

    ghost change = { number_under };

    fn write(
        &self,
        _alloc: Global,
        name: &str,
        value: &json::Value<'_>,
        writer: &mut Writer,
    ) -> Result<bool, AllocError> {
        match digits_under(self.names, name, value) {
            Some(text) => {
                writer.number(text)?;
                Ok(true)
            }
            None => {
                writer.value(value)?;
                Ok(false)
            }
        }
    }
}

// The digits that become a number: the value, if the member has one of these names and the value is
// a text of a whole number's digits.
fn digits_under<'a>(names: &[&str], name: &str, value: &json::Value<'a>) -> Option<&'a str>
    ensures { let becomes = number_under (map (λ n. n.now) names.now) name.now
        (value_view value.now) in
        MatchOption result (becomes ≡ None)
        (λ text. (becomes ≡ Some (number text.now)) × IsNumber text.now) }
{
    match value {
        json::Value::String(text) => if is_named(names, name) && is_digits(*text) {
            Some(*text)
        } else {
            None
        },
        _ => None,
    }
}

fn is_named(names: &[&str], name: &str) -> bool
    ensures { result ≡ list_any (λ n. bytes_eq n name.now) (map (λ n. n.now) names.now) }
{
    for own in names {
        if *own == name {
            return true;
        }
    }
    false
}

pub(crate) fn is_digits(text: &str) -> bool
    ensures value { result ≡ is_digits text.now }
    ensures number { OnTrue result (IsNumber text.now) }
{
    are_digits(text) && json::is_number(text)
}

fn are_digits(text: &str) -> bool
    ensures { result ≡ list_all is_digit text.now }
{
    text.as_bytes().iter().all(|&b| 48 <= b && b <= 57)
}
