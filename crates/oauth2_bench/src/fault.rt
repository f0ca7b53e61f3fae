//! Why a run ended early.

ghost use Rattle.std.specs.Prelude.{◌≡◌};
ghost use Rattle.oauth2_bench.specs.declared.fault.Fault.TheVariants.{Io, Memory, Refused};

use oauth2::url::ParseError;
use oauth2::{ReadError, RequestTokenError};
use std::alloc::AllocError;
use std::io;

/// Why a run ended early.
#[derive(Clone, Copy, Debug, PartialEq, Eq)]
pub enum Fault {
    /// The arguments name no operation, or have no number.
    Arguments,
    /// The arguments, the clock or the output failed.
    Io,
    Memory,
    /// A call that an operation makes returned an error.
    Refused,
}

impl From<AllocError> for Fault {
    ghost from_gives = { λ _ e. e ≡ Memory };

    fn from(_e: AllocError) -> Fault {
        Fault::Memory
    }
}

impl From<io::Error> for Fault {
    ghost from_gives = { λ _ e. e ≡ Io };

    fn from(_e: io::Error) -> Fault {
        Fault::Io
    }
}

impl From<ParseError> for Fault {
    ghost from_gives = { λ _ e. e ≡ Refused };

    fn from(_e: ParseError) -> Fault {
        Fault::Refused
    }
}

impl From<ReadError> for Fault {
    ghost from_gives = { λ _ e. e ≡ Refused };

    fn from(_e: ReadError) -> Fault {
        Fault::Refused
    }
}

impl<RE: Drop, TE: Drop> From<RequestTokenError<RE, TE>> for Fault {
    ghost from_gives = { λ _ e. e ≡ Refused };

    fn from(_e: RequestTokenError<RE, TE>) -> Fault {
        Fault::Refused
    }
}
