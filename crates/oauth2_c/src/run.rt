//! The result of a script's run, and how its text is put into the room that a caller gives.

ghost use Rattle.std.specs.Prelude.{◌≡◌, pos, length, IfOk};
ghost use Rattle.oauth2_commands.specs.Run.{IsResultOf};
ghost use Rattle.oauth2_c.specs.Call.{IsPut, status_code};

use oauth2_commands::{RunFault, RunStatus, ScriptSource, run_script};
use std::alloc::Global;

/// The status of a call for which memory ran out.
pub(crate) const NO_MEMORY: i32 = 3;

// The text of the run of a script, and how it ended.
pub(crate) fn result_of(alloc: Global, script: &[u8]) -> Result<(Vec<u8>, RunStatus), RunFault>
    ensures { IfOk result (λ r. IsResultOf script.now r.0.items r.1) }
{
    let mut reader = ScriptSource::new(script);
    let mut text = Vec::new(alloc);
    let status = run_script(alloc, &mut reader, &mut text)?;
    Ok((text, status))
}

// Puts the text at the beginning of the room, if it fits there. Returns how many bytes it has.
pub(crate) fn put(text: &[u8], room: &mut [u8]) -> usize
    ensures count { result ≡ length text.now }
    ensures put { IsPut text.now room.old room.new }
{
    let count = text.len();
    if count <= room.len() {
        room[..count].copy_from_slice(text);
    }
    count
}

// The number of a status.
pub(crate) fn status_code(status: RunStatus) -> i32
    ensures { result ≡ pos (status_code status) }
{
    match status {
        RunStatus::Answered => 0,
        RunStatus::Fault => 1,
        RunStatus::BadScript => 2,
    }
}
