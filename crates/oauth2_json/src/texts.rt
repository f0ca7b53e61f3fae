//! Texts as JSON strings.

ghost use Rattle.std.specs.Prelude.{ℕ, List, Ok, string_bytes};
ghost use Rattle.serde_json.specs.Data.{string};
ghost use Rattle.serde_json.specs.View.{view};
ghost use Rattle.oauth2_json.specs.Reading.{ReadsAs, ReadsExactly};
ghost use Rattle.oauth2_json.specs.Values.{text};

use crate::read::{FromJson, ParseCause, ReadError};
use crate::write::{ToJson, WriteError};
use oauth2_types::{ClientId, PkceCodeChallengeMethod, ResourceOwnerUsername, ResponseType, Scope};
use serde_json::Value;
use std::alloc::Global;
use std::ops::Deref;

impl FromJson for String {
    ghost Meaning = { List ℕ };

    ghost meaning = { string_bytes };

    ghost reading = { text };

    fn from_json(alloc: Global, value: Value) -> Result<String, ReadError>
        ensures reads { ReadsAs string_bytes result (text (view value)) }
        // The same without `Memory`, since nothing is allocated.
        ensures exactly { ReadsExactly string_bytes result (text (view value)) }
    {
        match value {
            Value::String(text) => Ok(text),
            _ => Err(ReadError::whole(alloc, ParseCause::WrongType)),
        }
    }
}

impl ToJson for String {
    ghost writing = { λ s. Ok (string (string_bytes s)) };

    fn to_json(&self, alloc: Global) -> Result<Value, WriteError> {
        Ok(Value::try_from_str(alloc, self.as_str())?)
    }
}

impl FromJson for ClientId {
    ghost Meaning = { List ℕ };

    ghost meaning = { λ t. t };

    ghost reading = { text };

    fn from_json(alloc: Global, value: Value) -> Result<ClientId, ReadError> {
        Ok(ClientId::new(String::from_json(alloc, value)?))
    }
}

impl ToJson for ClientId {
    ghost writing = { λ t. Ok (string t) };

    fn to_json(&self, alloc: Global) -> Result<Value, WriteError> {
        self.deref().to_json(alloc)
    }
}

impl FromJson for PkceCodeChallengeMethod {
    ghost Meaning = { List ℕ };

    ghost meaning = { λ t. t };

    ghost reading = { text };

    fn from_json(alloc: Global, value: Value) -> Result<PkceCodeChallengeMethod, ReadError> {
        Ok(PkceCodeChallengeMethod::new(String::from_json(alloc, value)?))
    }
}

impl ToJson for PkceCodeChallengeMethod {
    ghost writing = { λ t. Ok (string t) };

    fn to_json(&self, alloc: Global) -> Result<Value, WriteError> {
        self.deref().to_json(alloc)
    }
}

impl FromJson for ResourceOwnerUsername {
    ghost Meaning = { List ℕ };

    ghost meaning = { λ t. t };

    ghost reading = { text };

    fn from_json(alloc: Global, value: Value) -> Result<ResourceOwnerUsername, ReadError> {
        Ok(ResourceOwnerUsername::new(String::from_json(alloc, value)?))
    }
}

impl ToJson for ResourceOwnerUsername {
    ghost writing = { λ t. Ok (string t) };

    fn to_json(&self, alloc: Global) -> Result<Value, WriteError> {
        self.deref().to_json(alloc)
    }
}

impl FromJson for ResponseType {
    ghost Meaning = { List ℕ };

    ghost meaning = { λ t. t };

    ghost reading = { text };

    fn from_json(alloc: Global, value: Value) -> Result<ResponseType, ReadError> {
        Ok(ResponseType::new(String::from_json(alloc, value)?))
    }
}

impl ToJson for ResponseType {
    ghost writing = { λ t. Ok (string t) };

    fn to_json(&self, alloc: Global) -> Result<Value, WriteError> {
        self.deref().to_json(alloc)
    }
}

impl FromJson for Scope {
    ghost Meaning = { List ℕ };

    ghost meaning = { λ t. t };

    ghost reading = { text };

    fn from_json(alloc: Global, value: Value) -> Result<Scope, ReadError> {
        Ok(Scope::new(String::from_json(alloc, value)?))
    }
}

impl ToJson for Scope {
    ghost writing = { λ t. Ok (string t) };

    fn to_json(&self, alloc: Global) -> Result<Value, WriteError> {
        self.deref().to_json(alloc)
    }
}
