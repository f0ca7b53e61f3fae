//! Response types (RFC 6749, section 3.1.1).

ghost use Rattle.std.specs.Prelude.{◌≡◌, ℕ, List, codes, string_bytes, IfOk};
ghost use Rattle.std.specs.Fmt.{DisplaysOnOk, debug_str, debug_variant};
ghost use Rattle.oauth2_types.specs.Display.{WritesDebugText};

use crate::plain_text::PlainText;
use crate::try_clone::TryClone;
use std::alloc::{AllocError, Global};
use std::fmt;
use std::marker::Model;
use std::ops::Deref;

/// What the client requests from the authorization endpoint, such as `code` (RFC 6749, section
/// 3.1.1).
#[derive(PartialEq, Eq, Hash, Drop)]
pub struct ResponseType(PlainText);

impl Model for ResponseType {
    ghost Value = { List ℕ };

    ghost view = { λ t. t.0 };

    ghost inverse = { λ text. record { 0 = text } };
}

impl ResponseType {
    /// Takes any text unchanged; nothing is checked.
    pub fn new(text: String) -> ResponseType
        ensures { result ≡ string_bytes text }
    {
        ResponseType(PlainText::new(text))
    }

    /// Takes a copy of the text.
    pub fn from_str(alloc: Global, text: &str) -> Result<ResponseType, AllocError>
        ensures { IfOk result (λ made. made ≡ text.now) }
    {
        Ok(ResponseType::new(String::from_str(alloc, text)?))
    }
}

impl Deref for ResponseType {
    type Target = String;

    ghost deref_gives = { λ t text. string_bytes text ≡ t };

    fn deref(&self) -> &String {
        self.0.text()
    }
}

impl From<ResponseType> for String {
    ghost from_gives = { λ t text. string_bytes text ≡ t };

    fn from(text: ResponseType) -> String {
        text.0.into_text()
    }
}

impl TryClone for ResponseType {
    ghost Seen = { List ℕ };

    ghost seen = { λ text. text };

    fn try_clone(&self, alloc: Global) -> Result<ResponseType, AllocError> {
        Ok(ResponseType(self.0.copy(alloc)?))
    }
}

impl fmt::Debug for ResponseType {
    ghost debug_output = { λ text. debug_variant (codes "ResponseType") (debug_str text) };

    fn fmt<W: fmt::Write>(&self, f: &mut fmt::Formatter<W>) -> fmt::Result
        ensures writes { DisplaysOnOk W.write_str_gives f.old result
            (debug_variant (codes "ResponseType") (debug_str self.now)) f.new }
        // Holds for all formatter options, also for `{:#?}`.
        ensures styled { WritesDebugText W.write_str_gives f.old result
            (codes "ResponseType") self.now f.new }
    {
        self.0.debug(f, "ResponseType")
    }
}
