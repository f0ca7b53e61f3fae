//! Token types (RFC 6749, section 7.1).

ghost use Rattle.std.specs.Prelude.{◌≡◌, ℕ, List, Ok, string_bytes};
ghost use Rattle.serde_json.specs.Data.{string};
ghost use Rattle.oauth2_codes.specs.Codes.{TokenCode, token_code, token_code_of, token_code_text};
ghost use Rattle.oauth2_codes.specs.Codes.{token_code_reading, canonical};

use oauth2_json::{FromJson, ReadError, ToJson, WriteError};
use oauth2_types::TryClone;
use serde_json::Value;
use std::alloc::{AllocError, Global};
use std::convert::AsStr;
use std::fmt;

/// A token type (RFC 6749, section 7.1). Case matters: `BEARER` is read as an `Extension`. The
/// token response and the introspection response lower its ASCII letters before they read it.
#[derive(Debug, PartialEq, Eq, Drop)]
pub enum BasicTokenType {
    /// `bearer` (RFC 6750).
    Bearer,
    /// `mac`.
    Mac,
    /// Any other token type, with its text.
    Extension(String),
}

impl BasicTokenType {
    // The variant that the text names. Case matters.
    fn from_text(text: String) -> BasicTokenType
        ensures { token_code result ≡ token_code_of (string_bytes text) }
    {
        match text.as_str() {
            "bearer" => BasicTokenType::Bearer,
            "mac" => BasicTokenType::Mac,
            _ => BasicTokenType::Extension(text),
        }
    }
}

impl AsStr for BasicTokenType {
    ghost text = { λ t. token_code_text (token_code t) };

    fn as_str(&self) -> &str {
        match self {
            BasicTokenType::Bearer => "bearer",
            BasicTokenType::Mac => "mac",
            BasicTokenType::Extension(text) => text.as_str(),
        }
    }
}

impl FromJson for BasicTokenType {
    ghost Meaning = { TokenCode };

    ghost meaning = { token_code };

    ghost reading = { token_code_reading };

    fn from_json(alloc: Global, value: Value) -> Result<BasicTokenType, ReadError> {
        Ok(BasicTokenType::from_text(String::from_json(alloc, value)?))
    }
}

impl ToJson for BasicTokenType {
    ghost writing = { λ t. Ok (string (token_code_text (token_code t))) };

    fn to_json(&self, alloc: Global) -> Result<Value, WriteError> {
        Ok(Value::try_from_str(alloc, self.as_str())?)
    }
}

impl TryClone for BasicTokenType {
    ghost Seen = { TokenCode };

    ghost seen = { token_code };

    fn try_clone(&self, alloc: Global) -> Result<BasicTokenType, AllocError> {
        match self {
            BasicTokenType::Bearer => Ok(BasicTokenType::Bearer),
            BasicTokenType::Mac => Ok(BasicTokenType::Mac),
            BasicTokenType::Extension(text) => Ok(BasicTokenType::Extension(text.try_clone(
                alloc,
            )?)),
        }
    }
}

/// The type of a token. A copy (`TryClone`) has the meaning of the original in contracts, and is
/// written as the same JSON.
pub trait TokenType: FromJson + ToJson + fmt::Debug + PartialEq + TryClone {
    ghost use Rattle.std.specs.Prelude.{◌≡◌};

    ghost copies_mean_alike: { (a b : Self) → Self.TryClone.seen a ≡ Self.TryClone.seen b
        → Self.FromJson.meaning a ≡ Self.FromJson.meaning b };

    ghost copies_are_written_alike: { (a b : Self) → Self.TryClone.seen a ≡ Self.TryClone.seen b
        → Self.ToJson.writing a ≡ Self.ToJson.writing b };
}

impl TokenType for BasicTokenType {
    ghost use Rattle.std.proofs.Common.{ap};

    ghost copies_mean_alike = { λ a b h. h };

    ghost copies_are_written_alike = { λ a b h. ap (λ c. Ok (string (token_code_text c))) h };
}

/// Writing what was read from a text returns that text (`text`). What is written of a variant reads
/// back as the variant that its text names (`back`), which reads back as itself (`once`).
pub fn token_type_laws()
    ensures text { (s : List ℕ) → token_code_text (token_code_of s) ≡ s }
    ensures back { (c : TokenCode) → token_code_reading (string (token_code_text c))
        ≡ Ok (canonical c) }
    ensures once { (c : TokenCode) → canonical (canonical c) ≡ canonical c }
{}
