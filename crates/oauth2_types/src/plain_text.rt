//! The common part of the plain text types: the text that was given.

ghost use Rattle.std.specs.Prelude.{◌≡◌, ℕ, List, string_bytes, IfOk};
ghost use Rattle.std.specs.Cmp.{partial_equiv_from_equiv};
ghost use Rattle.std.specs.Cmp.Lexicographic.{nat_list_eq_equiv};
ghost use Rattle.std.specs.Cmp.Rules.{hashing};
ghost use Rattle.std.proofs.Common.{rules};
ghost use Rattle.std.specs.Fmt.{DisplaysOnOk, debug_str, debug_variant};
ghost use Rattle.std.specs.Hash as fed;
ghost use Rattle.std.specs.Str.{bytes_eq};
ghost use Rattle.oauth2_types.specs.Display.{WritesDebugText};

use crate::display::write_debug_text;
use std::alloc::{AllocError, Global};
use std::fmt;
use std::hash::{Hash, Hasher};
use std::marker::Model;

pub(crate) struct PlainText {
    text: String,
}

impl Drop for PlainText {
    fn drop(self) {
        let PlainText { text: _ } = self;
    }
}

impl Model for PlainText {
    ghost Value = { List ℕ };

    ghost view = { λ t. string_bytes t.text };
}

impl PlainText {
    pub(crate) fn new(text: String) -> PlainText
        ensures { result ≡ string_bytes text }
    {
        PlainText { text }
    }

    pub(crate) fn text(&self) -> &String
        ensures { string_bytes result.now ≡ self.now }
    {
        &self.text
    }

    pub(crate) fn into_text(self) -> String
        ensures { string_bytes result ≡ self }
    {
        let PlainText { text } = self;
        text
    }

    pub(crate) fn copy(&self, alloc: Global) -> Result<PlainText, AllocError>
        ensures { IfOk result (λ copy. copy ≡ self.now) }
    {
        Ok(PlainText {
            text: String::from_str(alloc, self.text.as_str())?,
        })
    }

    // Writes the type's name, and the text in quotes and parentheses.
    pub(crate) fn debug<W: fmt::Write>(&self, f: &mut fmt::Formatter<W>, name: &str) -> fmt::Result
        ensures writes { DisplaysOnOk W.write_str_gives f.old result
            (debug_variant name.now (debug_str self.now)) f.new }
        ensures styled { WritesDebugText W.write_str_gives f.old result name.now self.now f.new }
    {
        write_debug_text(f, name, self.text.as_str())
    }
}

impl PartialEq for PlainText {
    ghost eq = { bytes_eq };

    ghost laws = { partial_equiv_from_equiv nat_list_eq_equiv };

    fn eq(&self, other: &PlainText) -> bool {
        self.text == other.text
    }
}

impl Eq for PlainText {
    ghost laws = { nat_list_eq_equiv };
}

impl Hash for PlainText {
    ghost hash_input = { λ t. fed.str t };

    ghost respects_eq = { Prim.search (hashing, rules) };

    fn hash<H: Hasher>(&self, state: &mut H) {
        self.text.hash(state);
    }
}
