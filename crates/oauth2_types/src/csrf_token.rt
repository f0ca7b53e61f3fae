//! The state of an authorization request (RFC 6749, section 4.1.1).

ghost use Rattle.std.specs.Prelude.{◌≡◌, ℕ, IfOk, List, OnErr, Some, codes, string_bytes};
ghost use Rattle.std.specs.Fmt.{DisplaysOnOk, WritesStyledOnOk};
ghost use Rattle.oauth2_types.specs.Pkce.{DrewAtMost, IsRandomText};

use crate::random_text::random_text;
use crate::secret::Secret;
use crate::try_clone::TryClone;
use rand_core::Rng;
use std::alloc::{AllocError, Global};
use std::fmt;
use std::marker::Model;

/// The opaque value of `state`. With it the client tells that a redirect belongs to its own request
/// (RFC 6749, section 10.12).
#[derive(PartialEq, Eq, Hash, Drop)]
pub struct CsrfToken(Secret);

impl Model for CsrfToken {
    ghost Value = { List ℕ };

    ghost view = { λ s. s.0 };

    ghost inverse = { λ text. record { 0 = text } };
}

impl CsrfToken {
    /// Takes any text unchanged; nothing is checked.
    pub fn new(secret: String) -> CsrfToken
        ensures { result ≡ string_bytes secret }
    {
        CsrfToken(Secret::new(secret))
    }

    /// Takes a copy of the text.
    pub fn from_str(alloc: Global, text: &str) -> Result<CsrfToken, AllocError>
        ensures { IfOk result (λ made. made ≡ text.now) }
    {
        Ok(CsrfToken::new(String::from_str(alloc, text)?))
    }

    /// Leaking this text may compromise the security of the flow.
    pub fn secret(&self) -> &String
        ensures { string_bytes result.now ≡ self.now }
    {
        self.0.text()
    }

    /// Leaking this text may compromise the security of the flow.
    pub fn into_secret(self) -> String
        ensures { string_bytes result ≡ self }
    {
        self.0.into_text()
    }

    /// A new value: 16 random bytes as unpadded base64url.
    pub fn new_random<R: Rng>(alloc: Global, rng: &mut R) -> Result<CsrfToken, AllocError>
        ensures random { IfOk result
            (λ token. IsRandomText 16 (R.stream rng.old) (R.stream rng.new) token) }
        ensures err { OnErr result (DrewAtMost 16 (R.stream rng.old) (R.stream rng.new)) }
    {
        CsrfToken::new_random_len(alloc, rng, 16)
    }

    /// A new value: n random bytes as unpadded base64url.
    pub fn new_random_len<R: Rng>(
        alloc: Global,
        rng: &mut R,
        n: u32,
    ) -> Result<CsrfToken, AllocError>
        ensures random { IfOk result
            (λ token. IsRandomText n (R.stream rng.old) (R.stream rng.new) token) }
        ensures err { OnErr result (DrewAtMost n (R.stream rng.old) (R.stream rng.new)) }
    {
        let text = random_text(alloc, rng, n)?;
        Ok(CsrfToken::new(text))
    }
}

impl TryClone for CsrfToken {
    ghost Seen = { List ℕ };

    ghost seen = { λ text. text };

    fn try_clone(&self, alloc: Global) -> Result<CsrfToken, AllocError> {
        Ok(CsrfToken(self.0.copy(alloc)?))
    }
}

impl fmt::Debug for CsrfToken {
    ghost debug_output = { λ _. Some (codes "CsrfToken([redacted])") };

    fn fmt<W: fmt::Write>(&self, f: &mut fmt::Formatter<W>) -> fmt::Result
        ensures writes { DisplaysOnOk W.write_str_gives f.old result
            (Some (codes "CsrfToken([redacted])")) f.new }
        // Holds for all formatter options, also for `{:#?}`.
        ensures styled { WritesStyledOnOk W.write_str_gives f.old result
            (codes "CsrfToken([redacted])") f.new }
    {
        f.write_str("CsrfToken([redacted])")
    }
}
