//! Writing: the trait of the types that can be written as JSON, and the errors.

ghost use Rattle.std.specs.Prelude.{◌≡◌, Some};
ghost use Rattle.oauth2_json.specs.ErrorTexts.{write_error_text};

use serde_json::Value;
use std::alloc::{AllocError, AllocFailed, Global};
use std::fmt;

/// Why a value could not be written.
#[derive(Clone, Copy, Debug, PartialEq, Eq, Drop)]
pub enum WriteError {
    /// Memory ran out.
    Memory,
    /// An extra member has a name that the type itself writes.
    NameClash,
    /// An extra member holds a float, at any depth.
    Float,
}

impl fmt::Display for WriteError {
    ghost output = { λ error. Some (write_error_text error) };

    ghost styled_output = { λ error _. Some (write_error_text error) };

    fn fmt<W: fmt::Write>(&self, f: &mut fmt::Formatter<W>) -> fmt::Result {
        match self {
            WriteError::Memory => f.write_str("out of memory"),
            WriteError::NameClash => {
                f.write_str("an extra member bears a name of the type's own")
            }
            WriteError::Float => f.write_str("an extra member holds a float"),
        }
    }
}

impl std::error::Error for WriteError {}

impl From<AllocError> for WriteError {
    ghost use Rattle.oauth2_json.specs.declared.write.WriteError.TheVariants.{Memory};

    ghost from_gives = { λ _ e. e ≡ Memory };

    fn from(_e: AllocError) -> WriteError {
        WriteError::Memory
    }
}

impl<T: Drop> From<AllocFailed<T>> for WriteError {
    ghost use Rattle.oauth2_json.specs.declared.write.WriteError.TheVariants.{Memory};

    ghost from_gives = { λ _ e. e ≡ Memory };

    fn from(_e: AllocFailed<T>) -> WriteError {
        WriteError::Memory
    }
}

/// A type whose values are written as JSON values.
pub trait ToJson {
    ghost use Rattle.oauth2_json.specs.Writing.{Writing, WritesAs};

    /// What a value is written as: JSON, or a refusal.
    ghost writing: { Self → Writing };

    /// Writes the value as a JSON value.
    fn to_json(&self, alloc: Global) -> Result<Value, WriteError>
        ensures { WritesAs result (writing self.now) };
}
