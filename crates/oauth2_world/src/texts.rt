//! Texts as JSON.

ghost use Rattle.std.specs.Prelude.{◌≡◌, string_bytes, IfOk};
ghost use Rattle.oauth2_world.specs.Quotation.{quotation};

use json::Writer;
use std::alloc::{AllocError, Global};

/// A text as a JSON string, with its quotation marks.
#[tactic(auto, unfolding(crate::specs::Quotation::quotation))]
pub fn quoted(alloc: Global, text: &str) -> Result<String, AllocError>
    ensures { IfOk result (λ s. string_bytes s ≡ quotation text.now) }
{
    let room = text.len().saturating_add(2);
    let mut writer = Writer::new(Vec::with_capacity(alloc, room)?);
    writer.string(text)?;
    match String::from_utf8(writer.into_inner()) {
        Ok(text) => Ok(text),
        Err(_) => unreachable!(),
    }
}
