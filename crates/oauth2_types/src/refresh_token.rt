//! Refresh tokens (RFC 6749, section 1.5).

ghost use Rattle.std.specs.Prelude.{◌≡◌, ℕ, List, string_bytes, codes, Some, IfOk};
ghost use Rattle.std.specs.Fmt.{DisplaysOnOk, WritesStyledOnOk};

use crate::secret::Secret;
use crate::try_clone::TryClone;
use std::alloc::{AllocError, Global};
use std::fmt;
use std::marker::Model;

/// A token with which the client gets a new access token (RFC 6749, section 1.5).
#[derive(PartialEq, Eq, Hash, Drop)]
pub struct RefreshToken(Secret);

impl Model for RefreshToken {
    ghost Value = { List ℕ };

    ghost view = { λ s. s.0 };

    ghost inverse = { λ text. record { 0 = text } };
}

impl RefreshToken {
    /// Takes any text unchanged; nothing is checked.
    pub fn new(secret: String) -> RefreshToken
        ensures { result ≡ string_bytes secret }
    {
        RefreshToken(Secret::new(secret))
    }

    /// Takes a copy of the text.
    pub fn from_str(alloc: Global, text: &str) -> Result<RefreshToken, AllocError>
        ensures { IfOk result (λ made. made ≡ text.now) }
    {
        Ok(RefreshToken::new(String::from_str(alloc, text)?))
    }

    /// Leaking this text may compromise the security of the flow.
    pub fn secret(&self) -> &String
        ensures { string_bytes result.now ≡ self.now }
    {
        self.0.text()
    }

    /// Leaking this text may compromise the security of the flow.
    pub fn into_secret(self) -> String
        ensures { string_bytes result ≡ self }
    {
        self.0.into_text()
    }
}

impl TryClone for RefreshToken {
    ghost Seen = { List ℕ };

    ghost seen = { λ text. text };

    fn try_clone(&self, alloc: Global) -> Result<RefreshToken, AllocError> {
        Ok(RefreshToken(self.0.copy(alloc)?))
    }
}

impl fmt::Debug for RefreshToken {
    ghost debug_output = { λ _. Some (codes "RefreshToken([redacted])") };

    fn fmt<W: fmt::Write>(&self, f: &mut fmt::Formatter<W>) -> fmt::Result
        ensures writes { DisplaysOnOk W.write_str_gives f.old result
            (Some (codes "RefreshToken([redacted])")) f.new }
        // Holds for all formatter options, also for `{:#?}`.
        ensures styled { WritesStyledOnOk W.write_str_gives f.old result
            (codes "RefreshToken([redacted])") f.new }
    {
        f.write_str("RefreshToken([redacted])")
    }
}
