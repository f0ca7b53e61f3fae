//! Access token scopes (RFC 6749, section 3.3).

ghost use Rattle.std.specs.Prelude.{◌≡◌, ℕ, List, codes, string_bytes, IfOk};
ghost use Rattle.std.specs.Fmt.{DisplaysOnOk, debug_str, debug_variant};
ghost use Rattle.oauth2_types.specs.Display.{WritesDebugText};

use crate::plain_text::PlainText;
use crate::try_clone::TryClone;
use std::alloc::{AllocError, Global};
use std::convert::AsStr;
use std::fmt;
use std::marker::Model;
use std::ops::Deref;

/// One entry of an access token's scope (RFC 6749, section 3.3).
#[derive(PartialEq, Eq, Hash, Drop)]
pub struct Scope(PlainText);

impl Model for Scope {
    ghost Value = { List ℕ };

    ghost view = { λ t. t.0 };

    ghost inverse = { λ text. record { 0 = text } };
}

impl Scope {
    /// Takes any text unchanged; nothing is checked.
    pub fn new(text: String) -> Scope
        ensures { result ≡ string_bytes text }
    {
        Scope(PlainText::new(text))
    }

    /// Takes a copy of the text.
    pub fn from_str(alloc: Global, text: &str) -> Result<Scope, AllocError>
        ensures { IfOk result (λ made. made ≡ text.now) }
    {
        Ok(Scope::new(String::from_str(alloc, text)?))
    }
}

impl Deref for Scope {
    type Target = String;

    ghost deref_gives = { λ t text. string_bytes text ≡ t };

    fn deref(&self) -> &String {
        self.0.text()
    }
}

impl From<Scope> for String {
    ghost from_gives = { λ t text. string_bytes text ≡ t };

    fn from(text: Scope) -> String {
        text.0.into_text()
    }
}

impl AsStr for Scope {
    ghost text = { λ scope. scope };

    fn as_str(&self) -> &str {
        self.0.text().as_str()
    }
}

impl TryClone for Scope {
    ghost Seen = { List ℕ };

    ghost seen = { λ text. text };

    fn try_clone(&self, alloc: Global) -> Result<Scope, AllocError> {
        Ok(Scope(self.0.copy(alloc)?))
    }
}

impl fmt::Debug for Scope {
    ghost debug_output = { λ text. debug_variant (codes "Scope") (debug_str text) };

    fn fmt<W: fmt::Write>(&self, f: &mut fmt::Formatter<W>) -> fmt::Result
        ensures writes { DisplaysOnOk W.write_str_gives f.old result
            (debug_variant (codes "Scope") (debug_str self.now)) f.new }
        // Holds for all formatter options, also for `{:#?}`.
        ensures styled { WritesDebugText W.write_str_gives f.old result
            (codes "Scope") self.now f.new }
    {
        self.0.debug(f, "Scope")
    }
}
