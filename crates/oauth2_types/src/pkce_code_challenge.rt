//! Code challenges (RFC 7636, section 4.2).

ghost use Rattle.std.specs.Prelude.{◌≡◌, ◌≤◌, IfOk, OnErr, Some, codes, string_bytes};
ghost use Rattle.std.specs.Fmt.{DisplaysOnOk, WritesStyledOnOk, formatter_spec, spec_alternate};
ghost use Rattle.oauth2_types.specs.Pkce.{Accepts, DrewAtMost, HasValidLength, IsRandomText};
ghost use Rattle.oauth2_types.specs.Pkce.{plain_challenge, sha256_challenge};
ghost use Rattle.oauth2_types.specs.Pkce.{challenge_debug, plain_debug, plain_debug_text};

use crate::pkce_code_challenge_method::PkceCodeChallengeMethod;
use crate::pkce_code_verifier::PkceCodeVerifier;
use crate::plain_text::PlainText;
use crate::random_text::{base64url, random_verifier};
use crate::try_clone::TryClone;
use rand_core::Rng;
use sha2::{Digest, Sha256};
use std::alloc::{AllocError, Global};
use std::fmt;
use std::marker::Model;

/// The challenge that the client sends in an authorization URL. The server later checks the
/// verifier against it.
#[derive(PartialEq, Eq, Drop)]
pub struct PkceCodeChallenge {
    code_challenge: PlainText,
    code_challenge_method: PkceCodeChallengeMethod,
}

impl Model for PkceCodeChallenge {
    ghost use Rattle.oauth2_types.specs.Pkce.{Challenge};

    ghost Value = { Challenge };

    ghost view = { λ c. record { text = c.code_challenge; method = c.code_challenge_method } };

    ghost inverse = { λ c. record { code_challenge = c.text; code_challenge_method = c.method } };
}

impl PkceCodeChallenge {
    /// A verifier of 32 random bytes (43 characters), and its `S256` challenge.
    pub fn new_random_sha256<R: Rng>(
        alloc: Global,
        rng: &mut R,
    ) -> Result<(PkceCodeChallenge, PkceCodeVerifier), AllocError>
        ensures random { IfOk result
            (λ (_, verifier). IsRandomText 32 (R.stream rng.old) (R.stream rng.new) verifier) }
        ensures length { IfOk result (λ (_, verifier). HasValidLength verifier) }
        ensures value { IfOk result
            (λ (challenge, verifier). challenge ≡ sha256_challenge verifier) }
        ensures accepts { IfOk result (λ (challenge, verifier). Accepts challenge verifier) }
        ensures err { OnErr result (DrewAtMost 32 (R.stream rng.old) (R.stream rng.new)) }
    {
        PkceCodeChallenge::new_random_sha256_len(alloc, rng, 32)
    }

    /// A verifier of n random bytes (43 to 128 characters), and its `S256` challenge.
    pub fn new_random_sha256_len<R: Rng>(
        alloc: Global,
        rng: &mut R,
        n: u32,
    ) -> Result<(PkceCodeChallenge, PkceCodeVerifier), AllocError>
        requires least { 32 ≤ n }
        requires most { n ≤ 96 }
        ensures random { IfOk result
            (λ (_, verifier). IsRandomText n (R.stream rng.old) (R.stream rng.new) verifier) }
        ensures length { IfOk result (λ (_, verifier). HasValidLength verifier) }
        ensures value { IfOk result
            (λ (challenge, verifier). challenge ≡ sha256_challenge verifier) }
        ensures accepts { IfOk result (λ (challenge, verifier). Accepts challenge verifier) }
        ensures err { OnErr result (DrewAtMost n (R.stream rng.old) (R.stream rng.new)) }
    {
        let verifier = random_verifier(alloc, rng, n)?;
        let challenge = PkceCodeChallenge::from_code_verifier_sha256(alloc, &verifier)?;
        Ok((challenge, verifier))
    }

    /// A verifier of 32 random bytes (43 characters), and its `plain` challenge, which is the
    /// verifier itself. Use it only with a server that does not support `S256`.
    pub fn new_random_plain<R: Rng>(
        alloc: Global,
        rng: &mut R,
    ) -> Result<(PkceCodeChallenge, PkceCodeVerifier), AllocError>
        ensures random { IfOk result
            (λ (_, verifier). IsRandomText 32 (R.stream rng.old) (R.stream rng.new) verifier) }
        ensures length { IfOk result (λ (_, verifier). HasValidLength verifier) }
        ensures value { IfOk result
            (λ (challenge, verifier). challenge ≡ plain_challenge verifier) }
        ensures accepts { IfOk result (λ (challenge, verifier). Accepts challenge verifier) }
        ensures err { OnErr result (DrewAtMost 32 (R.stream rng.old) (R.stream rng.new)) }
    {
        let verifier = random_verifier(alloc, rng, 32)?;
        let challenge = PkceCodeChallenge::from_code_verifier_plain(alloc, &verifier)?;
        Ok((challenge, verifier))
    }

    /// The `S256` challenge of a verifier. The verifier's characters aren't checked.
    pub fn from_code_verifier_sha256(
        alloc: Global,
        verifier: &PkceCodeVerifier,
    ) -> Result<PkceCodeChallenge, AllocError>
        requires { HasValidLength verifier.now }
        ensures value { IfOk result (λ challenge. challenge ≡ sha256_challenge verifier.now) }
        ensures accepts { IfOk result (λ challenge. Accepts challenge verifier.now) }
    {
        let digest = Sha256::digest(verifier.secret().as_bytes());
        let text = base64url(alloc, &digest)?;
        let method = String::from_str(alloc, "S256")?;
        Ok(PkceCodeChallenge::from_parts(text, PkceCodeChallengeMethod::new(method)))
    }

    /// The `plain` challenge of a verifier. The verifier's characters aren't checked.
    pub fn from_code_verifier_plain(
        alloc: Global,
        verifier: &PkceCodeVerifier,
    ) -> Result<PkceCodeChallenge, AllocError>
        requires { HasValidLength verifier.now }
        ensures value { IfOk result (λ challenge. challenge ≡ plain_challenge verifier.now) }
        ensures accepts { IfOk result (λ challenge. Accepts challenge verifier.now) }
    {
        let text = String::from_str(alloc, verifier.secret().as_str())?;
        let method = String::from_str(alloc, "plain")?;
        Ok(PkceCodeChallenge::from_parts(text, PkceCodeChallengeMethod::new(method)))
    }

    /// A challenge from its text and its method. Neither is checked.
    pub fn from_parts(
        code_challenge: String,
        code_challenge_method: PkceCodeChallengeMethod,
    ) -> PkceCodeChallenge
        ensures { result
            ≡ record { text = string_bytes code_challenge; method = code_challenge_method } }
    {
        PkceCodeChallenge {
            code_challenge: PlainText::new(code_challenge),
            code_challenge_method,
        }
    }

    /// The text of the challenge, as it is sent in `code_challenge` (RFC 7636, section 4.3).
    pub fn as_str(&self) -> &str
        ensures { result.now ≡ self.now.text }
    {
        self.code_challenge.text().as_str()
    }

    /// The method, as it is sent in `code_challenge_method` (RFC 7636, section 4.3).
    pub fn method(&self) -> &PkceCodeChallengeMethod
        ensures { result.now ≡ self.now.method }
    {
        &self.code_challenge_method
    }
}

impl TryClone for PkceCodeChallenge {
    ghost use Rattle.oauth2_types.specs.Pkce.{Challenge};

    ghost Seen = { Challenge };

    ghost seen = { λ challenge. challenge };

    fn try_clone(&self, alloc: Global) -> Result<PkceCodeChallenge, AllocError> {
        let code_challenge = self.code_challenge.copy(alloc)?;
        let code_challenge_method = self.code_challenge_method.try_clone(alloc)?;
        Ok(PkceCodeChallenge {
            code_challenge,
            code_challenge_method,
        })
    }
}

// Writes the debug text of a `plain` challenge, which doesn't show the verifier.
fn debug_plain<W: fmt::Write>(f: &mut fmt::Formatter<W>) -> fmt::Result
    ensures writes { DisplaysOnOk W.write_str_gives f.old result (Some plain_debug) f.new }
    ensures styled { WritesStyledOnOk W.write_str_gives f.old result
        (plain_debug_text (spec_alternate (formatter_spec f.old))) f.new }
{
    if f.alternate() {
        return f.write_str(
            "PkceCodeChallenge {\n\
             \x20   code_challenge: [redacted],\n\
             \x20   code_challenge_method: PkceCodeChallengeMethod(\n        \"plain\",\n    ),\n}",
        );
    }
    f.write_str(
        "PkceCodeChallenge { code_challenge: [redacted], code_challenge_method: PkceCodeChallengeMethod(\"plain\") }",
    )
}

impl fmt::Debug for PkceCodeChallenge {
    ghost debug_output = { challenge_debug };

    #[tactic(auto, unfolding(crate::specs::Pkce::challenge_debug))]
    fn fmt<W: fmt::Write>(&self, f: &mut fmt::Formatter<W>) -> fmt::Result
        ensures writes { DisplaysOnOk W.write_str_gives f.old result
            (challenge_debug self.now) f.new }
        // Holds for all formatter options, also for `{:#?}`.
        ensures redacted { self.now.method ≡ codes "plain"
            → WritesStyledOnOk W.write_str_gives f.old result
            (plain_debug_text (spec_alternate (formatter_spec f.old))) f.new }
    {
        if self.code_challenge_method.as_str() == "plain" {
            return debug_plain(f);
        }
        if f.alternate() {
            return f
                .debug_struct("PkceCodeChallenge")
                .field("code_challenge", self.code_challenge.text())
                .field("code_challenge_method", self.method())
                .finish();
        }
        write!(
            f,
            "PkceCodeChallenge {{ code_challenge: {:?}, code_challenge_method: {:?} }}",
            self.as_str(),
            self.method()
        )
    }
}
