//! Client identifiers (RFC 6749, section 2.2).

ghost use Rattle.std.specs.Prelude.{◌≡◌, ℕ, List, codes, string_bytes, IfOk};
ghost use Rattle.std.specs.Fmt.{DisplaysOnOk, debug_str, debug_variant};
ghost use Rattle.oauth2_types.specs.Display.{WritesDebugText};

use crate::plain_text::PlainText;
use crate::try_clone::TryClone;
use std::alloc::{AllocError, Global};
use std::fmt;
use std::marker::Model;
use std::ops::Deref;

/// The identifier that the authorization server issued to the client (RFC 6749, section 2.2).
#[derive(PartialEq, Eq, Hash, Drop)]
pub struct ClientId(PlainText);

impl Model for ClientId {
    ghost Value = { List ℕ };

    ghost view = { λ t. t.0 };

    ghost inverse = { λ text. record { 0 = text } };
}

impl ClientId {
    /// Takes any text unchanged; nothing is checked.
    pub fn new(text: String) -> ClientId
        ensures { result ≡ string_bytes text }
    {
        ClientId(PlainText::new(text))
    }

    /// Takes a copy of the text.
    pub fn from_str(alloc: Global, text: &str) -> Result<ClientId, AllocError>
        ensures { IfOk result (λ made. made ≡ text.now) }
    {
        Ok(ClientId::new(String::from_str(alloc, text)?))
    }
}

impl Deref for ClientId {
    type Target = String;

    ghost deref_gives = { λ t text. string_bytes text ≡ t };

    fn deref(&self) -> &String {
        self.0.text()
    }
}

impl From<ClientId> for String {
    ghost from_gives = { λ t text. string_bytes text ≡ t };

    fn from(text: ClientId) -> String {
        text.0.into_text()
    }
}

impl TryClone for ClientId {
    ghost Seen = { List ℕ };

    ghost seen = { λ text. text };

    fn try_clone(&self, alloc: Global) -> Result<ClientId, AllocError> {
        Ok(ClientId(self.0.copy(alloc)?))
    }
}

impl fmt::Debug for ClientId {
    ghost debug_output = { λ text. debug_variant (codes "ClientId") (debug_str text) };

    fn fmt<W: fmt::Write>(&self, f: &mut fmt::Formatter<W>) -> fmt::Result
        ensures writes { DisplaysOnOk W.write_str_gives f.old result
            (debug_variant (codes "ClientId") (debug_str self.now)) f.new }
        // Holds for all formatter options, also for `{:#?}`.
        ensures styled { WritesDebugText W.write_str_gives f.old result
            (codes "ClientId") self.now f.new }
    {
        self.0.debug(f, "ClientId")
    }
}
