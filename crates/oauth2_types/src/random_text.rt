//! Random bytes written as texts.

ghost use Rattle.std.specs.Prelude.{◌≡◌, ◌≤◌, IfOk, Ok, OnErr, length, string_bytes};
ghost use Rattle.base64.specs.Engines.{url_safe_no_pad};
ghost use Rattle.base64.specs.GeneralPurpose.{decode_of};
ghost use Rattle.base64.specs.Rfc4648.{unpadded_len};
ghost use Rattle.oauth2_types.specs.Pkce.{DrewAtMost, HasValidLength, IsRandomText, base64url};

use crate::pkce_code_verifier::PkceCodeVerifier;
use base64::engine::general_purpose::URL_SAFE_NO_PAD;
use rand_core::Rng;
use std::alloc::{AllocError, Global};

// The unpadded URL-safe base64 of the bytes.
#[tactic(auto, unfolding(crate::specs::Pkce::base64url))]
pub(crate) fn base64url(alloc: Global, bytes: &[u8]) -> Result<String, AllocError>
    ensures text { IfOk result (λ text. string_bytes text ≡ base64url bytes.now) }
    ensures decodes { IfOk result
        (λ text. decode_of url_safe_no_pad (string_bytes text) ≡ Ok bytes.now) }
{
    URL_SAFE_NO_PAD.encode(alloc, bytes)
}

// n random bytes, drawn by one call of the generator, as unpadded base64url.
#[tactic(auto, using(crate::proofs::Lengths::lengths))]
pub(crate) fn random_text<R: Rng>(alloc: Global, rng: &mut R, n: u32) -> Result<String, AllocError>
    ensures random { IfOk result
        (λ text. IsRandomText n (R.stream rng.old) (R.stream rng.new) (string_bytes text)) }
    ensures length { IfOk result (λ text. length (string_bytes text) ≡ unpadded_len n) }
    ensures err { OnErr result (DrewAtMost n (R.stream rng.old) (R.stream rng.new)) }
{
    let mut bytes = vec![in alloc; 0u8; n as usize]?;
    rng.fill_bytes(bytes.as_mut_slice());
    base64url(alloc, bytes.as_slice())
}

// A verifier of n random bytes, which is 43 to 128 characters long.
pub(crate) fn random_verifier<R: Rng>(
    alloc: Global,
    rng: &mut R,
    n: u32,
) -> Result<PkceCodeVerifier, AllocError>
    requires least { 32 ≤ n }
    requires most { n ≤ 96 }
    ensures random { IfOk result
        (λ verifier. IsRandomText n (R.stream rng.old) (R.stream rng.new) verifier) }
    ensures length { IfOk result (λ verifier. HasValidLength verifier) }
    ensures err { OnErr result (DrewAtMost n (R.stream rng.old) (R.stream rng.new)) }
{
    let text = random_text(alloc, rng, n)?;
    Ok(PkceCodeVerifier::new(text))
}
