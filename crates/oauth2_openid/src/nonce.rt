//! The nonce of an authentication request (OpenID Connect Core 1.0, section 3.1.2.1).

ghost use Rattle.std.specs.Prelude.{◌≡◌, ℕ, IfOk, List, OnErr, Some, codes, string_bytes};
ghost use Rattle.std.specs.Fmt.{DisplaysOnOk, WritesStyledOnOk};
ghost use Rattle.oauth2_json.specs.Values.{text};
ghost use Rattle.oauth2_types.specs.Pkce.{DrewAtMost, IsRandomText};

use oauth2_json::{FromJson, ReadError};
use oauth2_types::{CsrfToken, TryClone};
use rand_core::Rng;
use serde_json::Value;
use std::alloc::{AllocError, Global};
use std::fmt;
use std::marker::Model;

/// The value that ties an ID token to the client's own request, so that a token of another request
/// cannot be replayed (section 2). It is a secret, held in a `CsrfToken`.
#[derive(PartialEq, Eq, Hash, Drop)]
pub struct Nonce(CsrfToken);

impl Model for Nonce {
    ghost Value = { List ℕ };

    ghost view = { λ n. n.0 };

    ghost inverse = { λ text. record { 0 = text } };
}

impl Nonce {
    /// Takes any text. It is not checked.
    pub fn new(secret: String) -> Nonce
        ensures { result ≡ string_bytes secret }
    {
        Nonce(CsrfToken::new(secret))
    }

    /// Leaking this text may compromise the security of the flow.
    pub fn secret(&self) -> &String
        ensures { string_bytes result.now ≡ self.now }
    {
        self.0.secret()
    }

    /// Leaking this text may compromise the security of the flow.
    pub fn into_secret(self) -> String
        ensures { string_bytes result ≡ self }
    {
        self.0.into_secret()
    }

    /// A nonce of 16 random bytes, in base64url without padding.
    pub fn new_random<R: Rng>(alloc: Global, rng: &mut R) -> Result<Nonce, AllocError>
        ensures random { IfOk result
            (λ nonce. IsRandomText 16 (R.stream rng.old) (R.stream rng.new) nonce) }
        ensures err { OnErr result (DrewAtMost 16 (R.stream rng.old) (R.stream rng.new)) }
    {
        Ok(Nonce(CsrfToken::new_random(alloc, rng)?))
    }
}

impl TryClone for Nonce {
    ghost Seen = { List ℕ };

    ghost seen = { λ text. text };

    fn try_clone(&self, alloc: Global) -> Result<Nonce, AllocError> {
        Ok(Nonce(self.0.try_clone(alloc)?))
    }
}

impl fmt::Debug for Nonce {
    ghost debug_output = { λ _. Some (codes "Nonce([redacted])") };

    fn fmt<W: fmt::Write>(&self, f: &mut fmt::Formatter<W>) -> fmt::Result
        ensures writes { DisplaysOnOk W.write_str_gives f.old result
            (Some (codes "Nonce([redacted])")) f.new }
        // Whatever options the formatter has, as under `{:#?}`.
        ensures styled { WritesStyledOnOk W.write_str_gives f.old result
            (codes "Nonce([redacted])") f.new }
    {
        f.write_str("Nonce([redacted])")
    }
}

impl FromJson for Nonce {
    ghost Meaning = { List ℕ };

    ghost meaning = { λ n. n };

    ghost reading = { text };

    fn from_json(alloc: Global, value: Value) -> Result<Nonce, ReadError> {
        Ok(Nonce(CsrfToken::from_json(alloc, value)?))
    }
}
