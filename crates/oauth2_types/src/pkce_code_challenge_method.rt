//! Methods of code challenges (RFC 7636, section 4.2).

ghost use Rattle.std.specs.Prelude.{◌≡◌, ℕ, List, codes, string_bytes, IfOk};
ghost use Rattle.std.specs.Fmt.{DisplaysOnOk, debug_str, debug_variant};
ghost use Rattle.oauth2_types.specs.Display.{WritesDebugText};

use crate::plain_text::PlainText;
use crate::try_clone::TryClone;
use std::alloc::{AllocError, Global};
use std::fmt;
use std::marker::Model;
use std::ops::Deref;

/// How a code challenge was made from its verifier: `S256` or `plain` (RFC 7636, section 4.2).
#[derive(PartialEq, Eq, Hash, Drop)]
pub struct PkceCodeChallengeMethod(PlainText);

impl Model for PkceCodeChallengeMethod {
    ghost Value = { List ℕ };

    ghost view = { λ t. t.0 };

    ghost inverse = { λ text. record { 0 = text } };
}

impl PkceCodeChallengeMethod {
    /// Takes any text unchanged; nothing is checked.
    pub fn new(text: String) -> PkceCodeChallengeMethod
        ensures { result ≡ string_bytes text }
    {
        PkceCodeChallengeMethod(PlainText::new(text))
    }

    /// Takes a copy of the text.
    pub fn from_str(alloc: Global, text: &str) -> Result<PkceCodeChallengeMethod, AllocError>
        ensures { IfOk result (λ made. made ≡ text.now) }
    {
        Ok(PkceCodeChallengeMethod::new(String::from_str(alloc, text)?))
    }
}

impl Deref for PkceCodeChallengeMethod {
    type Target = String;

    ghost deref_gives = { λ t text. string_bytes text ≡ t };

    fn deref(&self) -> &String {
        self.0.text()
    }
}

impl From<PkceCodeChallengeMethod> for String {
    ghost from_gives = { λ t text. string_bytes text ≡ t };

    fn from(text: PkceCodeChallengeMethod) -> String {
        text.0.into_text()
    }
}

impl TryClone for PkceCodeChallengeMethod {
    ghost Seen = { List ℕ };

    ghost seen = { λ text. text };

    fn try_clone(&self, alloc: Global) -> Result<PkceCodeChallengeMethod, AllocError> {
        Ok(PkceCodeChallengeMethod(self.0.copy(alloc)?))
    }
}

impl fmt::Debug for PkceCodeChallengeMethod {
    ghost debug_output = { λ text. debug_variant (codes "PkceCodeChallengeMethod") (debug_str text) };

    fn fmt<W: fmt::Write>(&self, f: &mut fmt::Formatter<W>) -> fmt::Result
        ensures writes { DisplaysOnOk W.write_str_gives f.old result
            (debug_variant (codes "PkceCodeChallengeMethod") (debug_str self.now)) f.new }
        // Holds for all formatter options, also for `{:#?}`.
        ensures styled { WritesDebugText W.write_str_gives f.old result
            (codes "PkceCodeChallengeMethod") self.now f.new }
    {
        self.0.debug(f, "PkceCodeChallengeMethod")
    }
}
