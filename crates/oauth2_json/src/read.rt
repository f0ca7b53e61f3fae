//! Reading: the trait of the types that can be read from JSON, and the errors.

ghost use Rattle.std.specs.Prelude.{◌≡◌, Some};
ghost use Rattle.oauth2_json.specs.ErrorTexts.{cause_text, parse_fault_text, read_error_text};
ghost use Rattle.oauth2_json.specs.Reading.{FaultsAs, IsFault, UnderAs, fault_of, whole};

use oauth2_types::display::write_display;
use serde_json::Value;
use std::alloc::{AllocError, AllocFailed, Global};
use std::fmt;

/// Why a JSON value cannot be read as the type that was asked for.
#[derive(Clone, Copy, Debug, PartialEq, Eq, Drop)]
pub enum ParseCause {
    /// The body is not one whole JSON value.
    NotJson,
    /// The value is not an object.
    NotObject,
    /// The member is absent.
    Missing,
    /// The value is of another type.
    WrongType,
    /// The number is not a whole number.
    NotWhole,
    /// The number is outside the range.
    OutOfRange,
    /// The text is not a URL.
    BadUrl,
    /// The object has the member under both of its names.
    BothNames,
    /// The type's own rules refuse the value: an object with another shape, or a code that it does
    /// not know.
    Refused,
}

/// Which member could not be read, and why. The name is empty if the fault is in the value as a
/// whole.
#[derive(Debug, PartialEq, Eq, Drop)]
pub struct ParseFault {
    /// The name of the member.
    pub member: String,
    /// Why it could not be read.
    pub cause: ParseCause,
}

/// Why a value could not be read.
#[derive(Debug, PartialEq, Eq, Drop)]
pub enum ReadError {
    /// The value has a fault.
    Fault(ParseFault),
    /// Memory ran out.
    Memory,
}

impl ParseCause {
    fn text(self) -> &'static str
        ensures { result.now ≡ cause_text self }
    {
        match self {
            ParseCause::NotJson => "not one whole JSON value",
            ParseCause::NotObject => "not an object",
            ParseCause::Missing => "missing",
            ParseCause::WrongType => "of the wrong type",
            ParseCause::NotWhole => "not a whole number",
            ParseCause::OutOfRange => "out of range",
            ParseCause::BadUrl => "not a URL",
            ParseCause::BothNames => "under both of its names",
            ParseCause::Refused => "of another shape",
        }
    }
}

impl fmt::Display for ParseCause {
    ghost output = { λ cause. Some (cause_text cause) };

    ghost styled_output = { λ cause _. Some (cause_text cause) };

    fn fmt<W: fmt::Write>(&self, f: &mut fmt::Formatter<W>) -> fmt::Result {
        f.write_str(self.text())
    }
}

impl fmt::Display for ParseFault {
    ghost output = { λ fault. Some (parse_fault_text (fault_of fault)) };

    ghost styled_output = { λ fault _. Some (parse_fault_text (fault_of fault)) };

    fn fmt<W: fmt::Write>(&self, f: &mut fmt::Formatter<W>) -> fmt::Result {
        if self.member.as_str().is_empty() {
            return f.write_str(self.cause.text());
        }
        write_display(f, format_args!("{}: {}", self.member, self.cause))
    }
}

impl fmt::Display for ReadError {
    ghost output = { λ error. Some (read_error_text error) };

    ghost styled_output = { λ error _. Some (read_error_text error) };

    fn fmt<W: fmt::Write>(&self, f: &mut fmt::Formatter<W>) -> fmt::Result {
        match self {
            ReadError::Fault(fault) => fmt::Display::fmt(fault, f),
            ReadError::Memory => f.write_str("out of memory"),
        }
    }
}

impl std::error::Error for ReadError {}

impl From<AllocError> for ReadError {
    ghost use Rattle.oauth2_json.specs.declared.read.ReadError.TheVariants.{Memory};

    ghost from_gives = { λ _ e. e ≡ Memory };

    fn from(_e: AllocError) -> ReadError {
        ReadError::Memory
    }
}

impl<T: Drop> From<AllocFailed<T>> for ReadError {
    ghost use Rattle.oauth2_json.specs.declared.read.ReadError.TheVariants.{Memory};

    ghost from_gives = { λ _ e. e ≡ Memory };

    fn from(_e: AllocFailed<T>) -> ReadError {
        ReadError::Memory
    }
}

impl ReadError {
    /// A fault of the whole value: the member name is empty. Allocates nothing.
    pub fn whole(alloc: Global, cause: ParseCause) -> ReadError
        ensures { IsFault result (whole cause) }
    {
        let member = String::new(alloc);
        ReadError::Fault(ParseFault { member, cause })
    }

    /// A fault of the member `name`; `Memory` if there is no memory for the name.
    pub fn at(alloc: Global, name: &str, cause: ParseCause) -> ReadError
        ensures { FaultsAs result (record { member = name.now; cause = cause }) }
    {
        match String::from_str(alloc, name) {
            Ok(member) => ReadError::Fault(ParseFault { member, cause }),
            Err(_) => ReadError::Memory,
        }
    }

    /// The error with the name of an outer member, for a fault inside that member. The cause stays
    /// the same.
    pub fn under(self, alloc: Global, name: &str) -> ReadError
        ensures { UnderAs name.now self result }
    {
        match self {
            ReadError::Fault(fault) => ReadError::at(alloc, name, fault.cause),
            ReadError::Memory => ReadError::Memory,
        }
    }
}

/// A type whose values can be read from JSON.
pub trait FromJson {
    ghost use Rattle.std.specs.Prelude.{◌≡◌, false};
    ghost use Rattle.oauth2_json.specs.Body.{body_reading};
    ghost use Rattle.oauth2_json.specs.Reading.{Reading, ReadsAs};
    ghost use Rattle.serde_json.specs.Data.{Data, Members, object};
    ghost use Rattle.serde_json.specs.View.{view};

    /// What contracts compare of a value: its contents, with texts as bytes, not its place in
    /// memory.
    ghost Meaning: { Type 0 };

    ghost meaning: { Self → Meaning };

    /// What a JSON value reads to: a meaning, or a fault.
    ghost reading: { Data → Reading Meaning };

    /// Reads a JSON value that is already parsed.
    fn from_json(alloc: Global, value: Value) -> Result<Self, ReadError>
        ensures { ReadsAs meaning result (reading (view value)) };

    /// Reads a whole body, which has to be one JSON value. A type may override it, to read the body
    /// without a `Value`.
    fn from_body(alloc: Global, bytes: &[u8]) -> Result<Self, ReadError>
        ensures { ReadsAs meaning result (body_reading reading bytes.now) }
    {
        match Value::from_slice(alloc, bytes) {
            Ok(value) => Self::from_json(alloc, value),
            Err(error) => if error.is_memory() {
                Err(ReadError::Memory)
            } else {
                Err(ReadError::whole(alloc, ParseCause::NotJson))
            },
        }
    }

    /// Whether reading depends on the members of an object. Extra fields that keep none of them
    /// return false.
    fn reads_members() -> bool
        ensures { result ≡ false → (a b : Members) → reading (object a) ≡ reading (object b) }
    {
        true
    }
}
