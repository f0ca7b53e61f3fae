//! Looks up the parameters of a query by their names.

ghost use Rattle.std.specs.Cow.{cow_str_bytes};
ghost use Rattle.std.specs.Prelude.{
  ◌≡◌,
  ◌&&◌,
  true,
  bytes_eq,
  filter,
  IfOk,
  IsSome,
  OnErr,
  option_map,
  string_bytes,
};
ghost use Rattle.std.specs.Str.Lossy.{utf8_lossy};
ghost use Rattle.percent_encoding.specs.Percent.{percent_decode as unescaped};
ghost use Rattle.form_urlencoded.specs.Form.{decode as decoded};
ghost use Rattle.oauth2_form.specs.Pairs.{Pair, form};
ghost use Rattle.oauth2_wire.specs.ByName.{bears, read_by_name};
ghost use Rattle.oauth2_redirect.specs.Query.{
  first,
  first_text,
  has_value,
  is_visible,
  sent_pairs,
  sole_text,
};

use form_urlencoded::{decode, raw_pairs};
use percent_encoding::percent_decode;
use std::alloc::{AllocError, Global};

// Whether a text percent-decodes to these bytes.
fn unescapes_to(encoded: &[u8], bytes: &[u8]) -> bool
    ensures { result ≡ bytes_eq (unescaped encoded.now) bytes.now }
{
    let mut left = bytes;
    for byte in percent_decode(encoded) {
        match left.split_first() {
            Some((first, rest)) if *first == byte => left = rest,
            _ => return false,
        }
    }
    left.is_empty()
}

// Whether an encoded text decodes to `text`, which is visible ASCII. Allocates nothing.
pub(crate) fn decodes_to(encoded: &[u8], text: &str) -> bool
    requires { is_visible text.now ≡ true }
    ensures { result ≡ bytes_eq (decoded encoded.now) text.now }
{
    if encoded.contains(&b'+') {
        return false;
    }
    unescapes_to(encoded, text.as_bytes())
}

// Whether a pair is a parameter with this name and a value. `bearer` is its encoded name.
fn is_sent(bearer: &[u8], value: &[u8], name: &str) -> bool
    requires { is_visible name.now ≡ true }
    ensures { let pair : Pair = (decoded bearer.now, decoded value.now) in
        result ≡ (has_value pair && bears name.now pair) }
{
    if value.is_empty() {
        return false;
    }
    decodes_to(bearer, name)
}

// The encoded value of the parameter with this name, if it is sent exactly once.
pub(crate) fn sole_encoded<'a>(query: &'a str, name: &str) -> Option<&'a [u8]>
    requires { is_visible name.now ≡ true }
    ensures { option_map (λ value. decoded value.now) result
        ≡ read_by_name name.now (sent_pairs (form query.now)) }
{
    let mut found = None;
    for (bearer, value) in raw_pairs(query.as_bytes()) {
        if is_sent(bearer, value, name) {
            if found.is_some() {
                return None;
            }
            found = Some(value);
        }
    }
    found
}

// The encoded value of the first parameter with this name.
pub(crate) fn first_encoded<'a>(query: &'a str, name: &str) -> Option<&'a [u8]>
    requires { is_visible name.now ≡ true }
    ensures { option_map (λ value. decoded value.now) result
        ≡ first (filter (bears name.now) (sent_pairs (form query.now))) }
{
    for (bearer, value) in raw_pairs(query.as_bytes()) {
        if is_sent(bearer, value, name) {
            return Some(value);
        }
    }
    None
}

// The decoded text of a value, with U+FFFD for what is not UTF-8.
pub(crate) fn decoded_text(alloc: Global, encoded: &[u8]) -> Result<String, AllocError>
    ensures { IfOk result (λ text. string_bytes text ≡ utf8_lossy (decoded encoded.now)) }
{
    decode(alloc, encoded)?.into_owned(alloc)
}

// The decoded value of the parameter with this name, if it is sent exactly once.
pub(crate) fn sole_value(
    alloc: Global,
    query: &str,
    name: &str,
) -> Result<Option<String>, AllocError>
    requires { is_visible name.now ≡ true }
    ensures value { IfOk result (λ value.
        option_map string_bytes value ≡ sole_text name.now (form query.now)) }
    ensures memory { OnErr result (IsSome (sole_text name.now (form query.now))) }
{
    match sole_encoded(query, name) {
        Some(value) => Ok(Some(decoded_text(alloc, value)?)),
        None => Ok(None),
    }
}

// The decoded value of the first parameter with this name.
pub(crate) fn first_value(
    alloc: Global,
    query: &str,
    name: &str,
) -> Result<Option<String>, AllocError>
    requires { is_visible name.now ≡ true }
    ensures value { IfOk result (λ value.
        option_map string_bytes value ≡ first_text name.now (form query.now)) }
    ensures memory { OnErr result (IsSome (first_text name.now (form query.now))) }
{
    match first_encoded(query, name) {
        Some(value) => Ok(Some(decoded_text(alloc, value)?)),
        None => Ok(None),
    }
}
