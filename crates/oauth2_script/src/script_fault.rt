//! The fault of a bad script.

ghost use Rattle.std.specs.Prelude.{◌≡◌, string_bytes, IfOk};
ghost use Rattle.oauth2_script_values.specs.Gives.{path_view};
ghost use Rattle.oauth2_script_values.specs.Path.{path_text};

use oauth2_script_values::{PartFault, ScriptCause, path_text};
use std::alloc::{AllocError, Global};

/// The first member of a script that is bad, and why.
#[derive(Debug, PartialEq, Eq, Drop)]
pub struct ScriptFault {
    /// The path of the member, as `replies[2].status`; empty for the whole input.
    pub member: String,
    pub why: ScriptCause,
}

/// The fault with its path as a text.
pub fn script_fault(alloc: Global, fault: PartFault) -> Result<ScriptFault, AllocError>
    ensures member { IfOk result
        (λ told. string_bytes told.member ≡ path_text (path_view fault.path)) }
    ensures why { IfOk result (λ told. told.why ≡ fault.why) }
{
    let member = path_text(alloc, fault.path)?;
    Ok(ScriptFault {
        member,
        why: fault.why,
    })
}
