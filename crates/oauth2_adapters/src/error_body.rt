//! Whether a body is an error response.

ghost use Rattle.std.specs.Prelude.{◌≡◌, ◌<◌, Some, true, false, length, IfOk, OnErr};
ghost use Rattle.std.specs.Bool.{MatchBool};
ghost use Rattle.json.specs.Json.{members, value};
ghost use Rattle.oauth2_adapters.specs.ErrorsAtStatus200.{tells_error};
ghost use Rattle.oauth2_adapters.specs.Objects.{object_in, object_of};
ghost use Rattle.oauth2_adapters.specs.private.ErrorMembers.{told_in, is_told, MayStandInError};
ghost use Rattle.oauth2_adapters.specs.private.ErrorMembers.{StandsInNone};
ghost use Rattle.oauth2_adapters.specs.private.Tokens.{object_at};

use crate::first::{opens_object, pass_text};
use json::{Reader, Scratch};
use std::alloc::{AllocError, Global};

// How deep the value of a member may nest: the whole body may nest 127 deep.
const DEPTH: usize = 126;

// Whether a body is an error response. The buffer of the reader is as long as the body.
pub(crate) fn tells_error(alloc: Global, body: &[u8]) -> Result<bool, AllocError>
    ensures value { IfOk result (λ told. told ≡ tells_error (object_of body.now)) }
    ensures memory { OnErr result (0 < length body.now) }
{
    match std::str::from_utf8(body) {
        Ok(text) => text_tells_error(alloc, text),
        Err(_) => Ok(false),
    }
}

fn text_tells_error(alloc: Global, text: &str) -> Result<bool, AllocError>
    ensures value { IfOk result (λ told. told ≡ tells_error (object_in text.now)) }
    ensures memory { OnErr result (0 < length text.now) }
{
    let mut scratch = Scratch::new(alloc);
    let mut reader = Reader::new(text, &mut scratch)?;
    Ok(object_tells_error(&mut reader))
}

// Whether the next tokens are exactly one object that is an error response.
fn object_tells_error(reader: &mut Reader<'_>) -> bool
    ensures { result ≡ tells_error (object_at reader.old) }
{
    if !opens_object(reader) {
        return false;
    }
    if !members_tell_error(reader) {
        return false;
    }
    reader.next().is_none()
}

// Whether the next members are those of an error response. If so, the reader is then after their
// closing brace.
fn members_tell_error(reader: &mut Reader<'_>) -> bool
    ensures { let told = told_in false (members (value 126) (length reader.old) reader.old) in
        MatchBool result (told ≡ Some (true, reader.new)) (is_told told ≡ false) }
{
    let mut found = false;
    'members: while let Ok(key) = reader.next_key() {
        let Some(name) = key else {
            return found;
        };
        if !pass_value(name, reader) {
            return false;
        }
        found = found || name == "error";
    }
    false
}

// Skips the value of a member with that name. Returns whether it can be in an error response.
fn pass_value(name: &str, reader: &mut Reader<'_>) -> bool
    ensures { MatchBool result (MayStandInError name.now reader.old reader.new)
        (StandsInNone name.now reader.old) }
{
    if name == "access_token" || name == "device_code" || name == "active" {
        return false;
    }
    if name == "error" {
        return pass_text(reader);
    }
    match reader.skip_value(DEPTH) {
        Ok(()) => true,
        Err(_) => false,
    }
}
