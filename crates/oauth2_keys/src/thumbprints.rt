//! The thumbprint of a key (RFC 7638; RFC 8037, 2).

ghost use Rattle.std.specs.Prelude.{◌≡◌, IfOk, Some, codes, string_bytes};
ghost use Rattle.serde_json.specs.View.{view};
ghost use Rattle.oauth2_types.specs.Pkce.{base64url};
ghost use Rattle.sha2.specs.Sha256.{sha256};
ghost use Rattle.oauth2_keys.specs.Members.{KeyReadsAs};
ghost use Rattle.oauth2_keys.specs.Thumbprint.{
  canonical,
  canonical_on,
  eddsa_text,
  elliptic_canonical,
  elliptic_text,
  octet_canonical,
  rsa_canonical,
  rsa_text,
  thumbprint,
};

use crate::curves::{curve_name, curve_named};
use crate::key_error::{KeyError, KeyMember};
use crate::key_members::{KeyReadError, base64_text, needed_text};
use base64::engine::general_purpose::URL_SAFE_NO_PAD;
use ecdsa_signatures::EllipticCurve;
use serde_json::Value;
use sha2::{Digest, Sha256};
use std::alloc::{AllocError, Global};

fn rsa_text(alloc: Global, exponent: &str, modulus: &str) -> Result<String, AllocError>
    ensures { IfOk result (λ text. string_bytes text ≡ rsa_text exponent.now modulus.now) }
{
    let mut text = String::from_str(alloc, "{\"e\":\"")?;
    text.push_str(exponent)?;
    text.push_str("\",\"kty\":\"RSA\",\"n\":\"")?;
    text.push_str(modulus)?;
    text.push_str("\"}")?;
    Ok(text)
}

// The JSON that is hashed for a key on a curve: the required members, in the order of their names
// (RFC 7638, 3.2 and 3.3).
fn elliptic_text(
    alloc: Global,
    curve: EllipticCurve,
    x: &str,
    y: &str,
) -> Result<String, AllocError>
    ensures { IfOk result (λ text. string_bytes text ≡ elliptic_text curve x.now y.now) }
{
    let mut text = String::from_str(alloc, "{\"crv\":\"")?;
    text.push_str(curve_name(curve))?;
    text.push_str("\",\"kty\":\"EC\",\"x\":\"")?;
    text.push_str(x)?;
    text.push_str("\",\"y\":\"")?;
    text.push_str(y)?;
    text.push_str("\"}")?;
    Ok(text)
}

fn rsa_canonical(alloc: Global, key: &Value) -> Result<String, KeyReadError>
    ensures { KeyReadsAs string_bytes result (rsa_canonical (view key.now)) }
{
    let exponent = base64_text(alloc, key, KeyMember::Exponent)?;
    let modulus = base64_text(alloc, key, KeyMember::Modulus)?;
    Ok(rsa_text(alloc, exponent, modulus)?)
}

fn canonical_on(alloc: Global, curve: EllipticCurve, key: &Value) -> Result<String, KeyReadError>
    ensures { KeyReadsAs string_bytes result (canonical_on (Some curve) (view key.now)) }
{
    let x = base64_text(alloc, key, KeyMember::X)?;
    let y = base64_text(alloc, key, KeyMember::Y)?;
    Ok(elliptic_text(alloc, curve, x, y)?)
}

fn elliptic_canonical(alloc: Global, key: &Value) -> Result<String, KeyReadError>
    ensures { KeyReadsAs string_bytes result (elliptic_canonical (view key.now)) }
{
    match needed_text(key, KeyMember::Curve) {
        Ok(name) => match curve_named(name) {
            Some(curve) => canonical_on(alloc, curve, key),
            None => Err(KeyReadError::Fault(KeyError::UnknownCurve)),
        },
        Err(fault) => Err(KeyReadError::Fault(fault)),
    }
}

fn eddsa_text(alloc: Global, x: &str) -> Result<String, AllocError>
    ensures { IfOk result (λ text. string_bytes text ≡ eddsa_text x.now) }
{
    let mut text = String::from_str(alloc, "{\"crv\":\"Ed25519\",\"kty\":\"OKP\",\"x\":\"")?;
    text.push_str(x)?;
    text.push_str("\"}")?;
    Ok(text)
}

fn octet_canonical(alloc: Global, key: &Value) -> Result<String, KeyReadError>
    ensures { KeyReadsAs string_bytes result (octet_canonical (view key.now)) }
{
    match needed_text(key, KeyMember::Curve) {
        Ok(name) => if name == "Ed25519" {
            let x = base64_text(alloc, key, KeyMember::X)?;
            Ok(eddsa_text(alloc, x)?)
        } else {
            Err(KeyReadError::Fault(KeyError::UnknownCurve))
        },
        Err(fault) => Err(KeyReadError::Fault(fault)),
    }
}

fn canonical(alloc: Global, key: &Value) -> Result<String, KeyReadError>
    ensures { KeyReadsAs string_bytes result (canonical (view key.now)) }
{
    match needed_text(key, KeyMember::KeyType) {
        Ok(key_type) => if key_type == "RSA" {
            rsa_canonical(alloc, key)
        } else if key_type == "EC" {
            elliptic_canonical(alloc, key)
        } else if key_type == "OKP" {
            octet_canonical(alloc, key)
        } else {
            Err(KeyReadError::Fault(KeyError::UnknownType))
        },
        Err(fault) => Err(KeyReadError::Fault(fault)),
    }
}

#[tactic(auto, unfolding(oauth2_types::specs::Pkce::base64url))]
fn base64url(alloc: Global, octets: &[u8]) -> Result<String, AllocError>
    ensures { IfOk result (λ text. string_bytes text ≡ base64url octets.now) }
{
    URL_SAFE_NO_PAD.encode(alloc, octets)
}

/// The SHA-256 thumbprint of a JSON Web Key in base64url, for a key of each type of `PublicKey`. For a
/// private key it is that of the public key. The members are taken as they are written, so they
/// have to be written as RFC 7518 requires: `n` and `e` without leading zeros.
pub fn thumbprint(alloc: Global, key: &Value) -> Result<String, KeyReadError>
    ensures { KeyReadsAs string_bytes result (thumbprint (view key.now)) }
{
    let text = canonical(alloc, key)?;
    let digest = Sha256::digest(text.as_bytes());
    Ok(base64url(alloc, &digest)?)
}
