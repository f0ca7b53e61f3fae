//! The exit status of the process.

ghost use Rattle.std.specs.Prelude.{◌≡◌};
ghost use Rattle.std.specs.Process.{exit_status};
ghost use Rattle.oauth2_run.specs.Exit.{run_exit_status};

use oauth2_commands::{RunFault, RunStatus};
use std::process::ExitCode;

/// The exit status of a run: 0 an answer, 1 a fault or a wait, 2 a bad script, 3 a `RunFault`.
pub fn exit_of(run: Result<RunStatus, RunFault>) -> ExitCode
    ensures { exit_status result ≡ run_exit_status run }
{
    match run {
        Ok(RunStatus::Answered) => ExitCode::from(0),
        Ok(RunStatus::Fault) => ExitCode::from(1),
        Ok(RunStatus::BadScript) => ExitCode::from(2),
        Err(_) => ExitCode::from(3),
    }
}
