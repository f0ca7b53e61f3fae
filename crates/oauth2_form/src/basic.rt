//! The header of HTTP Basic credentials (RFC 6749, section 2.3.1; RFC 7617).

ghost use Rattle.std.specs.Prelude.{◌≡◌, ℕ, List, All, Some, IfOk, string_bytes};
ghost use Rattle.oauth2_form.specs.Pairs.{IsByte};
ghost use Rattle.http_header.specs.FieldValue.{plain_value};
ghost use Rattle.oauth2_form.specs.Basic.{basic, basic_value};

use crate::form_encoding::append_encoded_text;
use base64::engine::general_purpose::STANDARD;
use http_header::{HeaderValue, HeaderValueError};
use std::alloc::{AllocError, Global};

/// The value of the Authorization header for an identifier and a secret.
pub fn basic_header(alloc: Global, id: &str, secret: &str) -> Result<HeaderValue, AllocError>
    ensures value { IfOk result (λ v. v ≡ plain_value (basic_value id.now secret.now)) }

    // A server that decodes the header reads the same identifier and secret.
    ensures read_back { IfOk result (λ v. basic v.bytes ≡ Some (id.now, secret.now)) }

    // No other identifier and secret have this header.
    ensures injective { IfOk result
        (λ v. (other_id other_secret : List ℕ) → All IsByte other_id → All IsByte other_secret
        → v.bytes ≡ basic_value other_id other_secret
        → (other_id ≡ id.now) × (other_secret ≡ secret.now)) }
{
    match HeaderValue::from_string(basic_value(alloc, id, secret)?) {
        Ok(value) => Ok(value),
        Err(HeaderValueError::OutOfMemory) => Err(AllocError),
        Err(HeaderValueError::Invalid) => unreachable!(),
    }
}

fn basic_value(alloc: Global, id: &str, secret: &str) -> Result<String, AllocError>
    ensures { IfOk result (λ v. string_bytes v ≡ basic_value id.now secret.now) }
{
    let room = id.len().saturating_add(secret.len()).saturating_add(1);
    let mut text = Vec::with_capacity(alloc, room)?;
    append_encoded_text(&mut text, id)?;
    text.push(b':')?;
    append_encoded_text(&mut text, secret)?;
    // At least the length of `Basic ` and the base64 text: four bytes for every three.
    let room = text.len().saturating_add(text.len() / 2);
    let mut value = String::with_capacity(alloc, room.saturating_add(10))?;
    value.push_str("Basic ")?;
    STANDARD.encode_string(text.as_slice(), &mut value)?;
    Ok(value)
}
