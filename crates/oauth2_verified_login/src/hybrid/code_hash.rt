//! The hash of the code (OpenID Connect Core 1.0, section 3.3.2.11).

ghost use Rattle.std.specs.Prelude.{◌≡◌, ◌≤◌, length, take, bytes_eq};
ghost use Rattle.sha2.specs.Sha256.{sha256};
ghost use Rattle.sha2.specs.Sha512.{sha384, sha512};
ghost use Rattle.oauth2_types.specs.Pkce.{base64url};
ghost use Rattle.oauth2_openid.specs.Checks.{is_among};
ghost use Rattle.oauth2_openid.specs.TokenRules.{
  sha256_algorithms,
  sha384_algorithms,
  sha512_algorithms,
};
ghost use Rattle.oauth2_verified_login.specs.hybrid.CodeHash.{is_code_hash};

use base64::engine::general_purpose::URL_SAFE_NO_PAD;
use sha2::{Digest, Sha256, Sha384, Sha512};

fn has_sha256(algorithm: &str) -> bool
    ensures { result ≡ is_among algorithm.now sha256_algorithms }
{
    "RS256" == algorithm
        || "ES256" == algorithm
        || "PS256" == algorithm
        || "HS256" == algorithm
        || "ESP256" == algorithm
}

fn has_sha384(algorithm: &str) -> bool
    ensures { result ≡ is_among algorithm.now sha384_algorithms }
{
    "RS384" == algorithm
        || "ES384" == algorithm
        || "PS384" == algorithm
        || "HS384" == algorithm
        || "ESP384" == algorithm
}

fn has_sha512(algorithm: &str) -> bool
    ensures { result ≡ is_among algorithm.now sha512_algorithms }
{
    "RS512" == algorithm
        || "ES512" == algorithm
        || "PS512" == algorithm
        || "HS512" == algorithm
        || "EdDSA" == algorithm
        || "ESP512" == algorithm
        || "Ed25519" == algorithm
}

// Whether `told` is these bytes in base64url.
fn encodes(told: &str, bytes: &[u8]) -> bool
    requires { length bytes.now ≤ 32 }
    ensures { result ≡ bytes_eq told.now (base64url bytes.now) }
{
    let mut text = [0u8; 43];
    match URL_SAFE_NO_PAD.encode_slice(bytes, &mut text) {
        Ok(len) => told.as_bytes() == &text[..len],
        Err(_) => false,
    }
}

fn is_half_of_sha256(told: &str, code: &[u8]) -> bool
    ensures { result ≡ bytes_eq told.now (base64url (take 16 (sha256 code.now))) }
{
    encodes(told, &Sha256::digest(code)[..16])
}

fn is_half_of_sha384(told: &str, code: &[u8]) -> bool
    ensures { result ≡ bytes_eq told.now (base64url (take 24 (sha384 code.now))) }
{
    encodes(told, &Sha384::digest(code)[..24])
}

fn is_half_of_sha512(told: &str, code: &[u8]) -> bool
    ensures { result ≡ bytes_eq told.now (base64url (take 32 (sha512 code.now))) }
{
    encodes(told, &Sha512::digest(code)[..32])
}

// Whether `told` is the left half of the code's digest by the hash of this algorithm, in base64url.
pub(crate) fn is_code_hash(algorithm: &str, code: &[u8], told: &str) -> bool
    ensures { result ≡ is_code_hash algorithm.now code.now told.now }
{
    if has_sha256(algorithm) {
        is_half_of_sha256(told, code)
    } else if has_sha384(algorithm) {
        is_half_of_sha384(told, code)
    } else if has_sha512(algorithm) {
        is_half_of_sha512(told, code)
    } else {
        false
    }
}
