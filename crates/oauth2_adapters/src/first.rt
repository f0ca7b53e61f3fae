//! The next JSON token.

ghost use Rattle.std.specs.Prelude.{◌≡◌, ◌∷◌, ℕ, List};
ghost use Rattle.std.specs.Bool.{OnTrue};
ghost use Rattle.json.specs.Token.{begin_object, string};
ghost use Rattle.oauth2_adapters.specs.private.First.{begins_with_brace, begins_with_text};

use json::{Reader, Token};

// Takes the next token, and returns whether it opens an object.
pub(crate) fn opens_object(reader: &mut Reader<'_>) -> bool
    ensures found { result ≡ begins_with_brace reader.old }
    ensures rest { OnTrue result (reader.old ≡ begin_object ∷ reader.new) }
{
    match reader.next() {
        Some(Token::BeginObject) => true,
        _ => false,
    }
}

// Takes the next token, and returns whether it is a string.
pub(crate) fn pass_text(reader: &mut Reader<'_>) -> bool
    ensures found { result ≡ begins_with_text reader.old }
    ensures rest { OnTrue result ((s : List ℕ) × (reader.old ≡ string s ∷ reader.new)) }
{
    match reader.next() {
        Some(Token::String(_)) => true,
        _ => false,
    }
}
