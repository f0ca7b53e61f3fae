//! Error responses whose members can be shown.

ghost use Rattle.std.specs.Prelude.{◌≡◌, option_map, option_copied, string_bytes, IfOk};
ghost use Rattle.oauth2_codes.specs.ErrorResponse.{parts_of};

use oauth2::StandardErrorResponse;
use oauth2_world::ErrorMembers;
use std::alloc::{AllocError, Global};
use std::convert::AsStr;

/// An error response whose members can be shown (RFC 6749, section 5.2).
pub trait ShownError: Sized {
    ghost use Rattle.std.specs.Prelude.{◌≡◌, ℕ, List, IfOk};
    ghost use Rattle.oauth2_codes.specs.ErrorResponse.{ErrorParts};
    ghost use Rattle.oauth2_world.specs.Events.{members_of};

    /// The members as texts.
    ghost texts: { Self → ErrorParts (List ℕ) };

    /// The members as texts.
    fn shown_members(&self, alloc: Global) -> Result<ErrorMembers, AllocError>
        ensures { IfOk result (λ shown. members_of shown ≡ texts self.now) };
}

fn copy_of(alloc: Global, text: Option<&String>) -> Result<Option<String>, AllocError>
    ensures { IfOk result (λ copy. option_map string_bytes copy
        ≡ option_map string_bytes (option_copied text.entry)) }
{
    match text {
        Some(text) => Ok(Some(String::from_str(alloc, text.as_str())?)),
        None => Ok(None),
    }
}

impl<T: AsStr> ShownError for StandardErrorResponse<T> {
    ghost texts = { parts_of T.text };

    fn shown_members(&self, alloc: Global) -> Result<ErrorMembers, AllocError> {
        Ok(ErrorMembers {
            error: String::from_str(alloc, self.error().as_str())?,
            description: copy_of(alloc, self.error_description())?,
            uri: copy_of(alloc, self.error_uri())?,
        })
    }
}
