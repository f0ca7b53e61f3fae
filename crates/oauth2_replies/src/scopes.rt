//! Scopes as one string, with a space between two of them (RFC 6749, section 3.3).

ghost use Rattle.std.specs.Prelude.{ℕ, List, Option, option_map};
ghost use Rattle.serde_json.specs.Data.{string};
ghost use Rattle.oauth2_json.specs.Members.{optional_member};
ghost use Rattle.oauth2_json.specs.Values.{text, words_reading};
ghost use Rattle.oauth2_json.specs.Words.{joined_words};

use oauth2_json::{ReadError, members};
use oauth2_member_rows::{ReadKind, WriteKind};
use oauth2_types::Scope;
use serde_json::Value;
use std::alloc::{AllocError, Global};

/// A member with scopes, which may be absent or null. An empty list is written as an empty string.
pub struct OptionalScopes;

impl ReadKind for OptionalScopes {
    type Value = Option<Vec<Scope>>;

    ghost Meaning = { Option (List (List ℕ)) };

    ghost meaning = { option_map (λ list. list.items) };

    ghost reading = { optional_member (words_reading text) };

    fn read(
        alloc: Global,
        name: &str,
        found: Option<Value>,
    ) -> Result<Option<Vec<Scope>>, ReadError> {
        members::optional_words(alloc, name, found)
    }
}

impl WriteKind for OptionalScopes {
    type Value = Option<Vec<Scope>>;

    ghost written = { λ o. option_map (λ words. string (joined_words words))
        (option_map (λ list. list.items) o) };

    #[tactic(auto, using(oauth2_json::proofs::Optionals::words_alone))]
    fn write(alloc: Global, value: &Option<Vec<Scope>>) -> Result<Option<Value>, AllocError> {
        members::words_value(alloc, value)
    }
}
