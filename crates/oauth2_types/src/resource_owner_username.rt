//! Names of resource owners (RFC 6749, section 4.3.2).

ghost use Rattle.std.specs.Prelude.{◌≡◌, ℕ, List, codes, string_bytes, IfOk};
ghost use Rattle.std.specs.Fmt.{DisplaysOnOk, debug_str, debug_variant};
ghost use Rattle.oauth2_types.specs.Display.{WritesDebugText};

use crate::plain_text::PlainText;
use crate::try_clone::TryClone;
use std::alloc::{AllocError, Global};
use std::fmt;
use std::marker::Model;
use std::ops::Deref;

/// The resource owner's name (RFC 6749, section 4.3.2).
#[derive(PartialEq, Eq, Hash, Drop)]
pub struct ResourceOwnerUsername(PlainText);

impl Model for ResourceOwnerUsername {
    ghost Value = { List ℕ };

    ghost view = { λ t. t.0 };

    ghost inverse = { λ text. record { 0 = text } };
}

impl ResourceOwnerUsername {
    /// Takes any text unchanged; nothing is checked.
    pub fn new(text: String) -> ResourceOwnerUsername
        ensures { result ≡ string_bytes text }
    {
        ResourceOwnerUsername(PlainText::new(text))
    }

    /// Takes a copy of the text.
    pub fn from_str(alloc: Global, text: &str) -> Result<ResourceOwnerUsername, AllocError>
        ensures { IfOk result (λ made. made ≡ text.now) }
    {
        Ok(ResourceOwnerUsername::new(String::from_str(alloc, text)?))
    }
}

impl Deref for ResourceOwnerUsername {
    type Target = String;

    ghost deref_gives = { λ t text. string_bytes text ≡ t };

    fn deref(&self) -> &String {
        self.0.text()
    }
}

impl From<ResourceOwnerUsername> for String {
    ghost from_gives = { λ t text. string_bytes text ≡ t };

    fn from(text: ResourceOwnerUsername) -> String {
        text.0.into_text()
    }
}

impl TryClone for ResourceOwnerUsername {
    ghost Seen = { List ℕ };

    ghost seen = { λ text. text };

    fn try_clone(&self, alloc: Global) -> Result<ResourceOwnerUsername, AllocError> {
        Ok(ResourceOwnerUsername(self.0.copy(alloc)?))
    }
}

impl fmt::Debug for ResourceOwnerUsername {
    ghost debug_output = { λ text. debug_variant (codes "ResourceOwnerUsername") (debug_str text) };

    fn fmt<W: fmt::Write>(&self, f: &mut fmt::Formatter<W>) -> fmt::Result
        ensures writes { DisplaysOnOk W.write_str_gives f.old result
            (debug_variant (codes "ResourceOwnerUsername") (debug_str self.now)) f.new }
        // Holds for all formatter options, also for `{:#?}`.
        ensures styled { WritesDebugText W.write_str_gives f.old result
            (codes "ResourceOwnerUsername") self.now f.new }
    {
        self.0.debug(f, "ResourceOwnerUsername")
    }
}
