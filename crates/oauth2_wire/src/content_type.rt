//! The Content-Type of a reply (RFC 9110, section 8.3).

ghost use Rattle.std.specs.Prelude.{◌≡◌, ◌<◌, ◌++◌, take, drop, IfOk, OnOk, string_bytes, flat_map};
ghost use Rattle.std.specs.List.{list_all};
ghost use Rattle.std.specs.Char.{digit_char};
ghost use Rattle.oauth2_wire.specs.ContentType.{is_text_byte, begins_with_json, ends_the_type};
ghost use Rattle.oauth2_wire.specs.ContentType.{is_json_type, shown_byte};
ghost use Rattle.oauth2_wire.specs.ContentType.{unexpected_type_text};

use oauth2_types::TryClone;
use std::alloc::{AllocError, Global};

/// Which Content-Type values of a success count as JSON.
#[derive(Clone, Copy, Debug, PartialEq, Eq)]
pub enum ReplyRule {
    /// Values that begin with `application/json`; `application/jsonfoo` counts too.
    Prefix,
    /// Values whose media type is `application/json`, with any parameters.
    MediaType,
}

impl TryClone for ReplyRule {
    ghost use Rattle.oauth2_wire.specs.declared.content_type.ReplyRule.{ReplyRule};

    ghost Seen = { ReplyRule };

    ghost seen = { λ rule. rule };

    fn try_clone(&self, _alloc: Global) -> Result<ReplyRule, AllocError> {
        Ok(*self)
    }
}

// Whether a Content-Type value counts as JSON by this rule.
pub(crate) fn is_json_type(rule: ReplyRule, value: &[u8]) -> bool
    ensures { result ≡ is_json_type rule value.now }
{
    match rule {
        ReplyRule::Prefix => is_text(value) && begins_with_json(value),
        ReplyRule::MediaType => is_text(value) && begins_with_json(value) && ends_the_type(value),
    }
}

fn is_text(value: &[u8]) -> bool
    ensures { result ≡ list_all is_text_byte value.now }
{
    value.iter().all(|&b| b == b'\t' || (32 <= b && b <= 126))
}

fn begins_with_json(value: &[u8]) -> bool
    ensures { result ≡ begins_with_json value.now }
{
    front(value, 16).eq_ignore_ascii_case(b"application/json".as_slice())
}

// For a value that begins with `application/json`: whether its media type ends there.
fn ends_the_type(value: &[u8]) -> bool
    ensures { result ≡ ends_the_type (drop 16 value.now) }
{
    match back(value, 16) {
        [] => true,
        [b, ..] => *b == b';' || *b == b' ' || *b == b'\t',
    }
}

// The bytes after the first `n`, or none if there are fewer.
fn back(value: &[u8], n: usize) -> &[u8]
    ensures { result.now ≡ drop n value.now }
{
    if value.len() < n { &[] } else { &value[n..] }
}

// The first `n` bytes, or all if there are fewer.
fn front(value: &[u8], n: usize) -> &[u8]
    ensures { result.now ≡ take n value.now }
{
    if value.len() < n { value } else { &value[..n] }
}

// The error text for a Content-Type that is not JSON.
pub(crate) fn unexpected_type_text(alloc: Global, value: &[u8]) -> Result<String, AllocError>
    ensures { IfOk result (λ text. string_bytes text ≡ unexpected_type_text value.now) }
{
    let mut text = String::from_str(alloc, "unexpected response Content-Type: \"")?;
    push_shown(&mut text, value)?;
    text.push_str("\", should be `application/json`")?;
    Ok(text)
}

fn push_shown(text: &mut String, value: &[u8]) -> Result<(), AllocError>
    ensures { OnOk result (string_bytes text.new
        ≡ string_bytes text.old ++ flat_map shown_byte value.now) }
{
    for &b in value {
        push_shown_byte(text, b)?;
    }
    Ok(())
}

fn push_shown_byte(text: &mut String, b: u8) -> Result<(), AllocError>
    ensures { OnOk result (string_bytes text.new ≡ string_bytes text.old ++ shown_byte b) }
{
    if b == b'"' {
        text.push_str("\\\"")?;
        return Ok(());
    }
    if b <= 126 {
        text.push(char::from(b))?;
        return Ok(());
    }
    text.push_str("\\x")?;
    text.push(hex_digit(b / 16))?;
    text.push(hex_digit(b % 16))?;
    Ok(())
}

fn hex_digit(n: u8) -> char
    requires { n < 16 }
    ensures { result ≡ digit_char n }
{
    if n < 10 {
        char::from(b'0' + n)
    } else {
        char::from(b'a' + (n - 10))
    }
}
