//! User codes (RFC 8628, section 3.2).

ghost use Rattle.std.specs.Prelude.{◌≡◌, ℕ, List, string_bytes, codes, Some, IfOk};
ghost use Rattle.std.specs.Fmt.{DisplaysOnOk, WritesStyledOnOk};

use crate::secret::Secret;
use crate::try_clone::TryClone;
use std::alloc::{AllocError, Global};
use std::fmt;
use std::marker::Model;

/// The code that the user types in at the verification URI (RFC 8628, section 3.2).
#[derive(PartialEq, Eq, Hash, Drop)]
pub struct UserCode(Secret);

impl Model for UserCode {
    ghost Value = { List ℕ };

    ghost view = { λ s. s.0 };

    ghost inverse = { λ text. record { 0 = text } };
}

impl UserCode {
    /// Takes any text unchanged; nothing is checked.
    pub fn new(secret: String) -> UserCode
        ensures { result ≡ string_bytes secret }
    {
        UserCode(Secret::new(secret))
    }

    /// Takes a copy of the text.
    pub fn from_str(alloc: Global, text: &str) -> Result<UserCode, AllocError>
        ensures { IfOk result (λ made. made ≡ text.now) }
    {
        Ok(UserCode::new(String::from_str(alloc, text)?))
    }

    /// Leaking this text may compromise the security of the flow.
    pub fn secret(&self) -> &String
        ensures { string_bytes result.now ≡ self.now }
    {
        self.0.text()
    }

    /// Leaking this text may compromise the security of the flow.
    pub fn into_secret(self) -> String
        ensures { string_bytes result ≡ self }
    {
        self.0.into_text()
    }
}

impl TryClone for UserCode {
    ghost Seen = { List ℕ };

    ghost seen = { λ text. text };

    fn try_clone(&self, alloc: Global) -> Result<UserCode, AllocError> {
        Ok(UserCode(self.0.copy(alloc)?))
    }
}

impl fmt::Debug for UserCode {
    ghost debug_output = { λ _. Some (codes "UserCode([redacted])") };

    fn fmt<W: fmt::Write>(&self, f: &mut fmt::Formatter<W>) -> fmt::Result
        ensures writes { DisplaysOnOk W.write_str_gives f.old result
            (Some (codes "UserCode([redacted])")) f.new }
        // Holds for all formatter options, also for `{:#?}`.
        ensures styled { WritesStyledOnOk W.write_str_gives f.old result
            (codes "UserCode([redacted])") f.new }
    {
        f.write_str("UserCode([redacted])")
    }
}
