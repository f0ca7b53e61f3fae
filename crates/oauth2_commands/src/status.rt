//! The errors of a run.

ghost use Rattle.std.specs.Prelude.{◌≡◌};
ghost use Rattle.oauth2_commands.specs.declared.status.RunFault.TheVariants.{Memory};

use std::alloc::AllocError;

/// The error of a run that has no `RunStatus`.
#[derive(Clone, Copy, Debug, PartialEq, Eq)]
pub enum RunFault {
    /// The reader failed, or did not end within 1,048,576 calls. Nothing was written.
    Read,
    /// The writer failed. Some of the result may have been written.
    Write,
    /// Memory ran out outside a call of the client. Nothing was written.
    Memory,
}

impl From<AllocError> for RunFault {
    ghost from_gives = { λ _ e. e ≡ Memory };

    fn from(_e: AllocError) -> RunFault {
        RunFault::Memory
    }
}
