//! Client secrets (RFC 6749, section 2.3.1).

ghost use Rattle.std.specs.Prelude.{◌≡◌, ℕ, List, string_bytes, codes, Some, IfOk};
ghost use Rattle.std.specs.Fmt.{DisplaysOnOk, WritesStyledOnOk};

use crate::secret::Secret;
use crate::try_clone::TryClone;
use std::alloc::{AllocError, Global};
use std::fmt;
use std::marker::Model;

/// The client's password (RFC 6749, section 2.3.1).
#[derive(PartialEq, Eq, Hash, Drop)]
pub struct ClientSecret(Secret);

impl Model for ClientSecret {
    ghost Value = { List ℕ };

    ghost view = { λ s. s.0 };

    ghost inverse = { λ text. record { 0 = text } };
}

impl ClientSecret {
    /// Takes any text unchanged; nothing is checked.
    pub fn new(secret: String) -> ClientSecret
        ensures { result ≡ string_bytes secret }
    {
        ClientSecret(Secret::new(secret))
    }

    /// Takes a copy of the text.
    pub fn from_str(alloc: Global, text: &str) -> Result<ClientSecret, AllocError>
        ensures { IfOk result (λ made. made ≡ text.now) }
    {
        Ok(ClientSecret::new(String::from_str(alloc, text)?))
    }

    /// Leaking this text may compromise the security of the flow.
    pub fn secret(&self) -> &String
        ensures { string_bytes result.now ≡ self.now }
    {
        self.0.text()
    }

    /// Leaking this text may compromise the security of the flow.
    pub fn into_secret(self) -> String
        ensures { string_bytes result ≡ self }
    {
        self.0.into_text()
    }
}

impl TryClone for ClientSecret {
    ghost Seen = { List ℕ };

    ghost seen = { λ text. text };

    fn try_clone(&self, alloc: Global) -> Result<ClientSecret, AllocError> {
        Ok(ClientSecret(self.0.copy(alloc)?))
    }
}

impl fmt::Debug for ClientSecret {
    ghost debug_output = { λ _. Some (codes "ClientSecret([redacted])") };

    fn fmt<W: fmt::Write>(&self, f: &mut fmt::Formatter<W>) -> fmt::Result
        ensures writes { DisplaysOnOk W.write_str_gives f.old result
            (Some (codes "ClientSecret([redacted])")) f.new }
        // Holds for all formatter options, also for `{:#?}`.
        ensures styled { WritesStyledOnOk W.write_str_gives f.old result
            (codes "ClientSecret([redacted])") f.new }
    {
        f.write_str("ClientSecret([redacted])")
    }
}
