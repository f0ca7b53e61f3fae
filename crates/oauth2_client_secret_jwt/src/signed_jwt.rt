//! JSON Web Signatures by HMAC with SHA-256 (RFC 7515, section 7.1; RFC 7518, section 3.2).

ghost use Rattle.std.specs.Prelude.{◌≡◌, ◌≤◌, ◌++◌, IfOk, OnOk, length, string_bytes};
ghost use Rattle.hash_functions.specs.declared.hash_function.HashFunction.TheVariants.{Sha256};
ghost use Rattle.hmac_signatures.specs.Hmac.{hmac};
ghost use Rattle.oauth2_types.specs.Pkce.{base64url};
ghost use Rattle.oauth2_client_secret_jwt.specs.Assertion.{hs256_code, signed_jwt, signing_input};

use base64::engine::general_purpose::URL_SAFE_NO_PAD;
use hmac_signatures::{AuthenticationCode, HashFunction, HmacKey};
use std::alloc::{AllocError, Global};

const HEADER: &str = "{\"alg\":\"HS256\",\"typ\":\"JWT\"}";

/// The text of a token with these claims: the header, the claims and the code, in base64url.
pub(crate) fn signed_jwt(alloc: Global, secret: &[u8], claims: &[u8]) -> Result<String, AllocError>
    requires { 32 ≤ length secret.now }
    ensures { IfOk result (λ text. string_bytes text ≡ signed_jwt secret.now claims.now) }
{
    let mut text = signing_input(alloc, claims)?;
    let code = hs256_code(secret, text.as_bytes());
    text.push_str(".")?;
    push_base64url(&mut text, code.as_octets())?;
    Ok(text)
}

// What is signed: the header and the claims.
fn signing_input(alloc: Global, claims: &[u8]) -> Result<String, AllocError>
    ensures { IfOk result (λ text. string_bytes text ≡ signing_input claims.now) }
{
    let mut text = String::new(alloc);
    push_base64url(&mut text, HEADER.as_bytes())?;
    text.push_str(".")?;
    push_base64url(&mut text, claims)?;
    Ok(text)
}

// The code of a message by this secret.
#[tactic(auto, unfolding(crate::specs::Assertion::hs256_code))]
fn hs256_code(secret: &[u8], message: &[u8]) -> AuthenticationCode
    requires { 32 ≤ length secret.now }
    ensures { result ≡ hs256_code secret.now message.now }
{
    match HmacKey::new(HashFunction::Sha256, secret) {
        Ok(key) => key.sign(message),
        Err(_) => unreachable!(),
    }
}

// Adds bytes in base64url.
#[tactic(auto, unfolding(oauth2_types::specs::Pkce::base64url))]
fn push_base64url(text: &mut String, bytes: &[u8]) -> Result<(), AllocError>
    ensures { OnOk result (string_bytes text.new
        ≡ string_bytes text.old ++ base64url bytes.now) }
{
    URL_SAFE_NO_PAD.encode_string(bytes, text)
}
