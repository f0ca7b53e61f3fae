//! Compares encoded values of a query with texts; this allocates nothing for visible ASCII texts.

ghost use Rattle.std.specs.Prelude.{
  ◌≡◌,
  true,
  IfOk,
  IsOk,
  Some,
  None,
  if◌then◌else◌,
  bytes_eq,
  string_bytes,
};
ghost use Rattle.std.specs.Str.Lossy.{utf8_lossy};
ghost use Rattle.sha2.specs.Sha256.{sha256};
ghost use Rattle.percent_encoding.specs.Percent.{percent_decode as unescaped};
ghost use Rattle.form_urlencoded.specs.Form.{decode as decoded};
ghost use Rattle.oauth2_redirect.specs.Query.{is_visible};
ghost use Rattle.oauth2_types.specs.Digest.{digest_eq};

use crate::query::{decoded_text, decodes_to};
use form_urlencoded::decode;
use percent_encoding::percent_decode;
use sha2::{Digest, Sha256};
use std::alloc::{AllocError, Global};

// Whether a text has only visible ASCII characters.
fn is_visible(text: &[u8]) -> bool
    ensures { result ≡ is_visible text.now }
{
    for byte in text {
        if !byte.is_ascii_graphic() {
            return false;
        }
    }
    true
}

// Whether an encoded value decodes to this text. Allocates nothing if the text is visible ASCII.
pub(crate) fn is_value(alloc: Global, encoded: &[u8], text: &str) -> Result<bool, AllocError>
    ensures is { IfOk result
        (λ is. is ≡ bytes_eq (utf8_lossy (decoded encoded.now)) text.now) }
    ensures visible { is_visible text.now ≡ true → IsOk result }
{
    if is_visible(text.as_bytes()) {
        return Ok(decodes_to(encoded, text));
    }
    Ok(decode(alloc, encoded)?.as_str() == text)
}

// The SHA-256 digest of the percent-decoded bytes, if they are all visible ASCII.
fn unescaped_digest(encoded: &[u8]) -> Option<[u8; 32]>
    ensures { let bytes = unescaped encoded.now in
        result ≡ (if is_visible bytes then Some (sha256 bytes) else None) }
{
    let mut hasher = Sha256::new();
    for byte in percent_decode(encoded) {
        if !byte.is_ascii_graphic() {
            return None;
        }
        hasher.update([byte]);
    }
    Some(hasher.finalize())
}

// The SHA-256 digest of the decoded value, if it is all visible ASCII.
fn visible_digest(encoded: &[u8]) -> Option<[u8; 32]>
    ensures { let bytes = decoded encoded.now in
        result ≡ (if is_visible bytes then Some (sha256 bytes) else None) }
{
    if encoded.contains(&b'+') {
        return None;
    }
    unescaped_digest(encoded)
}

// Whether the decoded value and this text have equal digests.
pub(crate) fn has_digest(alloc: Global, encoded: &[u8], text: &str) -> Result<bool, AllocError>
    ensures has { IfOk result
        (λ has. has ≡ digest_eq (utf8_lossy (decoded encoded.now)) text.now) }
    ensures visible { is_visible (utf8_lossy (decoded encoded.now)) ≡ true → IsOk result }
{
    let digest: [u8; 32] = Sha256::digest(text.as_bytes());
    match visible_digest(encoded) {
        Some(told) => Ok(told == digest),
        None => {
            let told = decoded_text(alloc, encoded)?;
            let told: [u8; 32] = Sha256::digest(told.as_bytes());
            Ok(told == digest)
        }
    }
}
