//! The SHA-256 challenge of a code verifier (RFC 7636, section 4.2).

ghost use Rattle.std.specs.Prelude.{◌≡◌, ◌≤◌, length, IfOk};
ghost use Rattle.oauth2_types.specs.Pkce.{sha256_challenge};

use crate::fault::Fault;
use crate::operation::{Done, Operation};
use oauth2::{PkceCodeChallenge, PkceCodeVerifier};
use std::alloc::Global;

/// Computes the challenge of this verifier.
#[derive(Drop)]
pub struct Challenge {
    verifier: PkceCodeVerifier,
    ghost is_long_enough: { 43 ≤ length verifier },
    ghost is_short_enough: { length verifier ≤ 128 },
}

impl Challenge {
    /// The operation with the verifier of RFC 7636, appendix B.
    pub fn new(alloc: Global) -> Result<Challenge, Fault> {
        let text = "dBjftJeZ4CVP-mB92K27uhbUJU1p1r_wW1gFWFOEjXk";
        let verifier = PkceCodeVerifier::new(String::from_str(alloc, text)?);
        Ok(Challenge { verifier })
    }

    /// The challenge of the verifier.
    pub fn challenge(&self, alloc: Global) -> Result<PkceCodeChallenge, Fault>
        ensures { IfOk result (λ challenge. challenge ≡ sha256_challenge self.now.verifier) }
    {
        Ok(PkceCodeChallenge::from_code_verifier_sha256(alloc, &self.verifier)?)
    }
}

impl Operation for Challenge {
    fn run(&mut self, alloc: Global) -> Result<Done, Fault> {
        let challenge = self.challenge(alloc)?;
        Ok(Done {
            sent: 0,
            read: challenge.as_str().len(),
        })
    }
}
