//! Code verifiers (RFC 7636, section 4.1).

ghost use Rattle.std.specs.Prelude.{◌≡◌, ℕ, List, string_bytes, codes, Some, IfOk, IsTrue, ◌↔◌};
ghost use Rattle.std.specs.Fmt.{DisplaysOnOk, WritesStyledOnOk};
ghost use Rattle.oauth2_types.specs.Pkce.{HasValidLength};

use crate::secret::Secret;
use std::alloc::{AllocError, Global};
use std::fmt;
use std::marker::Model;

/// The secret behind a code challenge. It is used once, so it cannot be copied.
#[derive(PartialEq, Eq, Hash, Drop)]
pub struct PkceCodeVerifier(Secret);

impl Model for PkceCodeVerifier {
    ghost Value = { List ℕ };

    ghost view = { λ s. s.0 };

    ghost inverse = { λ text. record { 0 = text } };
}

impl PkceCodeVerifier {
    /// Takes any text unchanged; `has_valid_length` says whether its length is valid.
    pub fn new(secret: String) -> PkceCodeVerifier
        ensures { result ≡ string_bytes secret }
    {
        PkceCodeVerifier(Secret::new(secret))
    }

    /// Takes a copy of the text.
    pub fn from_str(alloc: Global, text: &str) -> Result<PkceCodeVerifier, AllocError>
        ensures { IfOk result (λ made. made ≡ text.now) }
    {
        Ok(PkceCodeVerifier::new(String::from_str(alloc, text)?))
    }

    /// Leaking this text may compromise the security of the flow.
    pub fn secret(&self) -> &String
        ensures { string_bytes result.now ≡ self.now }
    {
        self.0.text()
    }

    /// Leaking this text may compromise the security of the flow.
    pub fn into_secret(self) -> String
        ensures { string_bytes result ≡ self }
    {
        self.0.into_text()
    }

    /// Whether there are 43 to 128 bytes.
    pub fn has_valid_length(&self) -> bool
        ensures { IsTrue result ↔ HasValidLength self.now }
    {
        let len = self.secret().len();
        43 <= len && len <= 128
    }
}

impl fmt::Debug for PkceCodeVerifier {
    ghost debug_output = { λ _. Some (codes "PkceCodeVerifier([redacted])") };

    fn fmt<W: fmt::Write>(&self, f: &mut fmt::Formatter<W>) -> fmt::Result
        ensures writes { DisplaysOnOk W.write_str_gives f.old result
            (Some (codes "PkceCodeVerifier([redacted])")) f.new }
        // Holds for all formatter options, also for `{:#?}`.
        ensures styled { WritesStyledOnOk W.write_str_gives f.old result
            (codes "PkceCodeVerifier([redacted])") f.new }
    {
        f.write_str("PkceCodeVerifier([redacted])")
    }
}
