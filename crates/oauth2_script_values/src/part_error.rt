//! The errors of reading a part of a script.

ghost use Rattle.std.specs.Prelude.{◌≡◌, ◌⊎◌};
ghost use Rattle.http_header.specs.declared.value.HeaderValueError.TheVariants as header;
ghost use Rattle.url.specs.Parser.{IsOutOfRoom};
ghost use Rattle.oauth2_script_values.specs.Gives.{bad_error, fault_view, step_view};
ghost use Rattle.oauth2_script_values.specs.Reading.{fault, fault_inside, to_member};
ghost use Rattle.oauth2_script_values.specs.declared.part_error.PartError.TheVariants.{Memory};
ghost use Rattle.oauth2_script_values.specs.declared.script_cause.ScriptCause.TheVariants.{
  BadText,
  BadUrl,
};

use crate::path::{Path, Step};
use crate::script_cause::ScriptCause;
use http_header::HeaderValueError;
use std::alloc::{AllocError, AllocFailed};
use url::ParseError;

/// Which value inside a part is bad, and why.
#[derive(Clone, Copy)]
pub struct PartFault {
    pub path: Path,
    pub why: ScriptCause,
}

/// Why no part was read.
#[derive(Clone, Copy)]
pub enum PartError {
    /// The value is not such a part.
    Bad(PartFault),
    /// Memory ran out, or a URL is 4 GB or longer.
    Memory,
}

/// The error of a value that is bad itself.
pub fn bad(why: ScriptCause) -> PartError
    ensures { result ≡ bad_error why }
{
    let path = Path {
        first: Step::End,
        second: Step::End,
        third: Step::End,
        fourth: Step::End,
    };
    PartError::Bad(PartFault { path, why })
}

impl PartFault {
    /// The same fault, seen from the value that contains this one: the step from there to here
    /// comes first in its path. A path has room for four steps, and a fifth is lost.
    pub fn inside(self, step: Step) -> PartFault
        ensures { fault_view result ≡ fault_inside (step_view step) (fault_view self) }
    {
        let path = Path {
            first: step,
            second: self.path.first,
            third: self.path.second,
            fourth: self.path.third,
        };
        PartFault {
            path,
            why: self.why,
        }
    }
}

/// The fault of a member that is bad.
pub fn bad_member(name: &'static str, why: ScriptCause) -> PartFault
    ensures { fault_view result ≡ fault_inside (to_member name.now) (fault why) }
{
    bad_step(Step::Member(name), why)
}

/// The fault of a value that is one step further in.
pub fn bad_step(step: Step, why: ScriptCause) -> PartFault
    ensures { fault_view result ≡ fault_inside (step_view step) (fault why) }
{
    let path = Path {
        first: step,
        second: Step::End,
        third: Step::End,
        fourth: Step::End,
    };
    PartFault { path, why }
}

impl From<AllocError> for PartError {
    ghost from_gives = { λ _ e. e ≡ Memory };

    fn from(_e: AllocError) -> PartError {
        PartError::Memory
    }
}

impl<T: Drop> From<AllocFailed<T>> for PartError {
    ghost from_gives = { λ _ e. e ≡ Memory };

    fn from(_e: AllocFailed<T>) -> PartError {
        PartError::Memory
    }
}

impl From<ParseError> for PartError {
    // `Overflow` is a URL of 4 GB or more. It may be a URL by the standard, so it is not `Bad`.
    ghost from_gives = { λ given e. (IsOutOfRoom given × (e ≡ Memory))
        ⊎ ((IsOutOfRoom given → ⊥) × (e ≡ bad_error BadUrl)) };

    fn from(e: ParseError) -> PartError {
        match e {
            ParseError::OutOfMemory => PartError::Memory,
            ParseError::Overflow => PartError::Memory,
            _ => bad(ScriptCause::BadUrl),
        }
    }
}

impl From<HeaderValueError> for PartError {
    ghost from_gives = { λ given e. ((given ≡ header.OutOfMemory) × (e ≡ Memory))
        ⊎ ((given ≡ header.Invalid) × (e ≡ bad_error BadText)) };

    fn from(e: HeaderValueError) -> PartError {
        match e {
            HeaderValueError::Invalid => bad(ScriptCause::BadText),
            HeaderValueError::OutOfMemory => PartError::Memory,
        }
    }
}
