//! How a run ends.

ghost use Rattle.std.specs.Prelude.{◌≡◌};
ghost use Rattle.oauth2_request_commands.specs.Out as spec;

/// How a run ended, if its lines were written.
#[derive(Clone, Copy, Debug, PartialEq, Eq)]
pub enum RunStatus {
    /// The command has an answer; `keeper` has one for each reading.
    Answered,
    /// The last line is a fault; for `keeper`, one of the lines is a fault or a wait.
    Fault,
    /// The input is not a script.
    BadScript,
}

impl RunStatus {
    /// The status of two parts of a run: `later` if this one has an answer, else this one.
    pub fn both(self, later: RunStatus) -> RunStatus
        ensures { result ≡ spec.both self later }
    {
        match self {
            RunStatus::Answered => later,
            RunStatus::Fault => RunStatus::Fault,
            RunStatus::BadScript => RunStatus::BadScript,
        }
    }
}
