//! The hash of the access token (OpenID Connect Core 1.0, section 3.1.3.6).

ghost use Rattle.std.specs.Prelude.{
  ◌≡◌,
  ◌≤◌,
  length,
  take,
  option_copied,
  bytes_eq,
  Ok,
  Err,
  if◌then◌else◌,
};
ghost use Rattle.sha2.specs.Sha256.{sha256};
ghost use Rattle.sha2.specs.Sha512.{sha384, sha512};
ghost use Rattle.oauth2_types.specs.Pkce.{base64url};
ghost use Rattle.oauth2_openid.specs.Checks.{is_among};
ghost use Rattle.oauth2_openid.specs.TokenRules.{
  sha256_algorithms,
  sha384_algorithms,
  sha512_algorithms,
  half_digest,
  told_hash,
  hash_rule,
};

use crate::claims_error::ClaimsError;
use base64::engine::general_purpose::URL_SAFE_NO_PAD;
use sha2::{Digest, Sha256, Sha384, Sha512};

/// The outcome of the check of the hash in an ID token (`at_hash`) against the access token that
/// came with it.
#[derive(Clone, Copy, Debug, PartialEq, Eq, Drop)]
pub enum AccessTokenHash {
    /// The ID token has no `at_hash`.
    Absent,
    /// It is the hash of that access token.
    Matches,
    /// It was not compared: the ID token's algorithm is neither one of the twelve of RFC 7518, 3.1,
    /// that have a hash, nor `EdDSA`, `ESP256`, `ESP384`, `ESP512` or `Ed25519` (RFC 9864, 2).
    NotChecked,
}

fn has_sha256(algorithm: &str) -> bool
    ensures { result ≡ is_among algorithm.now sha256_algorithms }
{
    "RS256" == algorithm
        || "ES256" == algorithm
        || "PS256" == algorithm
        || "HS256" == algorithm
        || "ESP256" == algorithm
}

fn has_sha384(algorithm: &str) -> bool
    ensures { result ≡ is_among algorithm.now sha384_algorithms }
{
    "RS384" == algorithm
        || "ES384" == algorithm
        || "PS384" == algorithm
        || "HS384" == algorithm
        || "ESP384" == algorithm
}

fn has_sha512(algorithm: &str) -> bool
    ensures { result ≡ is_among algorithm.now sha512_algorithms }
{
    "RS512" == algorithm
        || "ES512" == algorithm
        || "PS512" == algorithm
        || "HS512" == algorithm
        || "EdDSA" == algorithm
        || "ESP512" == algorithm
        || "Ed25519" == algorithm
}

// Whether `told` is these bytes in base64url.
fn encodes(told: &str, bytes: &[u8]) -> bool
    requires { length bytes.now ≤ 32 }
    ensures { result ≡ bytes_eq told.now (base64url bytes.now) }
{
    let mut text = [0u8; 43];
    match URL_SAFE_NO_PAD.encode_slice(bytes, &mut text) {
        Ok(len) => told.as_bytes() == &text[..len],
        Err(_) => false,
    }
}

fn is_half_of_sha256(told: &str, access_token: &[u8]) -> bool
    ensures { result ≡ bytes_eq told.now (base64url (take 16 (sha256 access_token.now))) }
{
    encodes(told, &Sha256::digest(access_token)[..16])
}

fn is_half_of_sha384(told: &str, access_token: &[u8]) -> bool
    ensures { result ≡ bytes_eq told.now (base64url (take 24 (sha384 access_token.now))) }
{
    encodes(told, &Sha384::digest(access_token)[..24])
}

fn is_half_of_sha512(told: &str, access_token: &[u8]) -> bool
    ensures { result ≡ bytes_eq told.now (base64url (take 32 (sha512 access_token.now))) }
{
    encodes(told, &Sha512::digest(access_token)[..32])
}

fn verdict(matches: bool) -> Result<AccessTokenHash, ClaimsError>
    ensures { result
        ≡ (if matches then Ok AccessTokenHash.Matches else Err ClaimsError.OtherAccessToken) }
{
    if matches {
        Ok(AccessTokenHash::Matches)
    } else {
        Err(ClaimsError::OtherAccessToken)
    }
}

fn compare(algorithm: &str, access_token: &[u8], told: &str) -> Result<AccessTokenHash, ClaimsError>
    ensures { result ≡ told_hash told.now (half_digest algorithm.now access_token.now) }
{
    if has_sha256(algorithm) {
        verdict(is_half_of_sha256(told, access_token))
    } else if has_sha384(algorithm) {
        verdict(is_half_of_sha384(told, access_token))
    } else if has_sha512(algorithm) {
        verdict(is_half_of_sha512(told, access_token))
    } else {
        Ok(AccessTokenHash::NotChecked)
    }
}

// Checks the claim `at_hash` (`told`), if present, against the access token.
pub(crate) fn check_hash(
    algorithm: &str,
    access_token: &[u8],
    told: Option<&str>,
) -> Result<AccessTokenHash, ClaimsError>
    ensures { result ≡ hash_rule algorithm.now access_token.now (option_copied told.entry) }
{
    match told {
        Some(told) => compare(algorithm, access_token, told),
        None => Ok(AccessTokenHash::Absent),
    }
}
