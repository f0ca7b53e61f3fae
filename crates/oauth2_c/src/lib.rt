//! The program of scripts for callers that are not written in Rattle: C functions over buffers.

#![tactic(auto)]

ghost use Rattle.oauth2_c.specs.Call.{IsCall, IsText, version};
ghost use Rattle.oauth2_results.specs.Words.{kinds_text};

mod run;

use oauth2_results::kinds_text;
use run::{NO_MEMORY, put, result_of, status_code};
use std::alloc::Global;

/// Runs a script, and puts the text of its result at the beginning of `output`, if it fits there.
///
/// The script is JSON in UTF-8, of which docs/SCRIPT.md tells. The result is the exit status of the
/// program of that page: 0 for an answer, 1 for a fault, 2 for a bad script, 3 if memory ran out.
/// `length` becomes the number of bytes that the text has, also if it does not fit.
#[unsafe(no_mangle)]
pub extern "C" fn lifecrib_run(
    alloc: Global,
    script: &[u8],
    output: &mut [u8],
    length: &mut usize,
) -> i32
    ensures { IsCall script.now output.old output.new length.new result }
{
    match result_of(alloc, script) {
        Ok((text, status)) => {
            *length = put(text.as_slice(), output);
            status_code(status)
        }
        Err(_) => {
            *length = 0;
            NO_MEMORY
        }
    }
}

/// Puts the version of the library at the beginning of `output`, if it fits there.
///
/// `length` becomes the number of bytes that it has, also if it does not fit.
#[unsafe(no_mangle)]
pub extern "C" fn lifecrib_version(output: &mut [u8], length: &mut usize)
    ensures { IsText version output.old output.new length.new }
{
    *length = put("0.1.0".as_bytes(), output);
}

/// Puts the words for all kinds of faults at the beginning of `output`, each with a newline behind
/// it, if they fit there.
///
/// `length` becomes the number of bytes that they have, also if they do not fit.
#[unsafe(no_mangle)]
pub extern "C" fn lifecrib_kinds(output: &mut [u8], length: &mut usize)
    ensures { IsText kinds_text output.old output.new length.new }
{
    *length = put(kinds_text().as_bytes(), output);
}
