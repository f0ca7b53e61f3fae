//! The members of a key, read from its JSON object without a copy of it.

ghost use Rattle.std.specs.Prelude.{
  ◌≡◌,
  ◌∷◌,
  [],
  codes,
  IfOk,
  Some,
  map,
  option_map,
  string_bytes,
};
ghost use Rattle.serde_json.specs.View.{view, items_view};
ghost use Rattle.oauth2_openid.specs.Token.{bytes_of};
ghost use Rattle.oauth2_keys.specs.ErrorTexts.{key_read_error_text};
ghost use Rattle.oauth2_keys.specs.Members.{
  FindsAs,
  KeyReadsAs,
  base64_text,
  is_private,
  octets,
  needed_text,
  optional_text,
  optional_texts,
  texts_in,
};

use crate::key_error::{KeyError, KeyMember};
use base64::DecodeAllocError;
use base64::engine::general_purpose::URL_SAFE_NO_PAD;
use oauth2_types::display::write_display;
use serde_json::Value;
use std::alloc::{AllocError, AllocFailed, Global};
use std::fmt;

/// Why a key could not be read.
#[derive(Debug, PartialEq, Eq, Drop)]
pub enum KeyReadError {
    /// The key cannot be used.
    Fault(KeyError),
    /// Memory ran out.
    Memory,
}

impl fmt::Display for KeyReadError {
    ghost output = { λ error. Some (key_read_error_text error) };

    ghost styled_output = { λ error _. Some (key_read_error_text error) };

    fn fmt<W: fmt::Write>(&self, f: &mut fmt::Formatter<W>) -> fmt::Result {
        match self {
            KeyReadError::Fault(error) => write_display(f, error),
            KeyReadError::Memory => f.write_str("out of memory"),
        }
    }
}

impl std::error::Error for KeyReadError {}

impl From<AllocError> for KeyReadError {
    ghost use Rattle.oauth2_keys.specs.declared.key_members.KeyReadError.TheVariants.{Memory};

    ghost from_gives = { λ _ e. e ≡ Memory };

    fn from(_: AllocError) -> KeyReadError {
        KeyReadError::Memory
    }
}

impl<T: Drop> From<AllocFailed<T>> for KeyReadError {
    ghost use Rattle.oauth2_keys.specs.declared.key_members.KeyReadError.TheVariants.{Memory};

    ghost from_gives = { λ _ e. e ≡ Memory };

    fn from(_: AllocFailed<T>) -> KeyReadError {
        KeyReadError::Memory
    }
}

pub(crate) fn is_private(key: &Value) -> bool
    ensures { result ≡ is_private (view key.now) }
{
    key.get("d").is_some() || key.get("k").is_some()
}

// The string of a member; `None` if it is absent or null.
pub(crate) fn optional_text(key: &Value, member: KeyMember) -> Result<Option<&str>, KeyError>
    ensures { FindsAs (option_map (λ text. text.now)) result
        (optional_text member (view key.now)) }
{
    match key.get(member.name()) {
        None | Some(Value::Null) => Ok(None),
        Some(Value::String(text)) => Ok(Some(text.as_str())),
        Some(_) => Err(KeyError::WrongType(member)),
    }
}

// The string of a member that has to be present.
pub(crate) fn needed_text(key: &Value, member: KeyMember) -> Result<&str, KeyError>
    ensures { FindsAs (λ text. text.now) result (needed_text member (view key.now)) }
{
    match optional_text(key, member) {
        Ok(Some(text)) => Ok(text),
        Ok(None) => Err(KeyError::Missing(member)),
        Err(fault) => Err(fault),
    }
}

fn copy_text(alloc: Global, text: &str) -> Result<String, KeyReadError>
    ensures { KeyReadsAs string_bytes result (Ok text.now) }
{
    Ok(String::from_str(alloc, text)?)
}

// A copy of the string of a member; `None` if it is absent or null.
pub(crate) fn own_text(
    alloc: Global,
    key: &Value,
    member: KeyMember,
) -> Result<Option<String>, KeyReadError>
    ensures { KeyReadsAs (option_map string_bytes) result
        (optional_text member (view key.now)) }
{
    match optional_text(key, member) {
        Ok(Some(text)) => Ok(Some(copy_text(alloc, text)?)),
        Ok(None) => Ok(None),
        Err(fault) => Err(KeyReadError::Fault(fault)),
    }
}

fn texts_in(alloc: Global, member: KeyMember, items: &[Value]) -> Result<Vec<String>, KeyReadError>
    ensures { KeyReadsAs (λ v. map string_bytes v.items) result
        (texts_in member (items_view items.now)) }
{
    let mut texts = Vec::new(alloc);
    for item in items {
        let Some(text) = item.as_str() else {
            return Err(KeyReadError::Fault(KeyError::WrongType(member)));
        };
        texts.push(String::from_str(alloc, text)?)?;
    }
    Ok(texts)
}

// A copy of the array of strings of a member; `None` if it is absent or null.
pub(crate) fn own_texts(
    alloc: Global,
    key: &Value,
    member: KeyMember,
) -> Result<Option<Vec<String>>, KeyReadError>
    ensures { KeyReadsAs (option_map (λ v. map string_bytes v.items)) result
        (optional_texts member (view key.now)) }
{
    match key.get(member.name()) {
        None | Some(Value::Null) => Ok(None),
        Some(Value::Array(items)) => Ok(Some(texts_in(alloc, member, items.as_slice())?)),
        Some(_) => Err(KeyReadError::Fault(KeyError::WrongType(member))),
    }
}

// The octets of a text; `None` if it is not base64url without padding.
#[tactic(auto, unfolding(oauth2_openid::specs::Token::bytes_of))]
fn decode_octets(alloc: Global, text: &str) -> Result<Option<Vec<u8>>, AllocError>
    ensures { IfOk result (λ found. option_map (λ bytes. bytes.items) found ≡ bytes_of text.now) }
{
    match URL_SAFE_NO_PAD.decode(alloc, text.as_bytes()) {
        Ok(bytes) => Ok(Some(bytes)),
        Err(DecodeAllocError::DecodeError(_)) => Ok(None),
        Err(DecodeAllocError::OutOfMemory) => Err(AllocError),
    }
}

// The text of a member that has to be present and base64url without padding.
pub(crate) fn base64_text(
    alloc: Global,
    key: &Value,
    member: KeyMember,
) -> Result<&str, KeyReadError>
    ensures { KeyReadsAs (λ text. text.now) result (base64_text member (view key.now)) }
{
    match needed_text(key, member) {
        Ok(text) => match decode_octets(alloc, text)? {
            Some(_) => Ok(text),
            None => Err(KeyReadError::Fault(KeyError::NotBase64(member))),
        },
        Err(fault) => Err(KeyReadError::Fault(fault)),
    }
}

// The octets of a member that has to be present and base64url without padding.
pub(crate) fn octets(alloc: Global, key: &Value, member: KeyMember) -> Result<Vec<u8>, KeyReadError>
    ensures { KeyReadsAs (λ v. v.items) result (octets member (view key.now)) }
{
    match needed_text(key, member) {
        Ok(text) => match decode_octets(alloc, text)? {
            Some(octets) => Ok(octets),
            None => Err(KeyReadError::Fault(KeyError::NotBase64(member))),
        },
        Err(fault) => Err(KeyReadError::Fault(fault)),
    }
}
