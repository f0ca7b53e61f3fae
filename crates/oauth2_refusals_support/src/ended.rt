//! Why a row ended without a result.

ghost use Rattle.std.specs.Prelude.{◌≡◌, string_bytes, IfErr, IfOk};
ghost use Rattle.oauth2_refusals_support.specs.Ended as spec;
ghost use Rattle.oauth2_refusals_support.specs.declared.ended.Ended.TheVariants.{
  Starved,
  Unwritten,
};
ghost use Rattle.oauth2_refusals_support.specs.declared.ended.Want.TheVariants as want;

use oauth2::url::ParseError;
use oauth2::{CodeFlowError, ReadError, RequestFault, ViewError, WriteError};
use std::alloc::{AllocError, Global};
use std::io;

/// Which error says that memory ran out.
#[derive(Clone, Copy, Debug)]
pub enum Want {
    /// Memory ran out before the row's calls, for the values that they are called with.
    Row,
    AllocError,
    CodeFlowError,
    ParseError,
    ReadError,
    RedirectError,
    RequestFault,
    RequestTokenError { sent: bool },
    ViewError,
    WriteError,
}

/// Why a row ended without a result.
#[derive(Clone, Copy)]
pub enum Ended {
    Starved(Want),
    /// A call refused its arguments.
    Refused,
    /// There is no such row.
    Unknown,
    /// The input or the output failed.
    Unwritten,
}

impl From<AllocError> for Ended {
    ghost from_gives = { λ _ e. e ≡ Starved want.AllocError };

    fn from(_e: AllocError) -> Ended {
        Ended::Starved(Want::AllocError)
    }
}

impl From<io::Error> for Ended {
    ghost from_gives = { λ _ e. e ≡ Unwritten };

    fn from(_e: io::Error) -> Ended {
        Ended::Unwritten
    }
}

impl From<ParseError> for Ended {
    ghost from_gives = { λ error e. e ≡ spec.of_parse_error error };

    fn from(error: ParseError) -> Ended {
        match error {
            ParseError::OutOfMemory | ParseError::Overflow => Ended::Starved(Want::ParseError),
            _ => Ended::Refused,
        }
    }
}

impl From<ReadError> for Ended {
    ghost from_gives = { λ error e. e ≡ spec.of_read_error error };

    fn from(error: ReadError) -> Ended {
        match error {
            ReadError::Memory => Ended::Starved(Want::ReadError),
            ReadError::Fault(_) => Ended::Refused,
        }
    }
}

impl From<WriteError> for Ended {
    ghost from_gives = { λ error e. e ≡ spec.of_write_error error };

    fn from(error: WriteError) -> Ended {
        match error {
            WriteError::Memory => Ended::Starved(Want::WriteError),
            WriteError::NameClash | WriteError::Float => Ended::Refused,
        }
    }
}

impl From<RequestFault> for Ended {
    ghost from_gives = { λ fault e. e ≡ spec.of_request_fault fault };

    fn from(fault: RequestFault) -> Ended {
        match fault {
            RequestFault::Memory => Ended::Starved(Want::RequestFault),
            RequestFault::NotHttp => Ended::Refused,
        }
    }
}

impl From<CodeFlowError> for Ended {
    ghost from_gives = { λ error e. e ≡ spec.of_code_flow_error error };

    fn from(error: CodeFlowError) -> Ended {
        match error {
            CodeFlowError::Memory => Ended::Starved(Want::CodeFlowError),
            CodeFlowError::Url(_) | CodeFlowError::NotHttp => Ended::Refused,
        }
    }
}

impl From<ViewError> for Ended {
    ghost from_gives = { λ error e. e ≡ spec.of_view_error error };

    fn from(error: ViewError) -> Ended {
        match error {
            ViewError::Memory => Ended::Starved(Want::ViewError),
            ViewError::BadBasic => Ended::Refused,
        }
    }
}

/// Copies a text for a row. If memory runs out, the error is `Starved` with `Want::Row`.
pub fn text(alloc: Global, text: &str) -> Result<String, Ended>
    ensures made { IfOk result (λ s. string_bytes s ≡ text.now) }
    ensures starved { IfErr result (λ e. e ≡ Starved want.Row) }
{
    match String::from_str(alloc, text) {
        Ok(text) => Ok(text),
        Err(AllocError) => Err(Ended::Starved(Want::Row)),
    }
}
