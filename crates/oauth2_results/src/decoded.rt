//! What a server reads of a request that only decodes it.

ghost use Rattle.std.specs.Prelude.{◌≡◌, IfOk};
ghost use Rattle.oauth2_wire.specs.Request.{view_of};
ghost use Rattle.oauth2_results.specs.Decoded as spec;

use oauth2_wire::{HttpRequest, ViewError, server_view};
use std::alloc::{AllocError, Global};

/// The credentials of the Authorization header, and the pairs of the form.
#[derive(Drop)]
pub struct Decoded {
    pub basic: Option<(String, String)>,
    pub pairs: Vec<(String, String)>,
}

/// What a server reads of this request that only decodes the header and the form.
pub fn decode(alloc: Global, request: &HttpRequest) -> Result<Decoded, AllocError>
    ensures { IfOk result (λ d. spec.decoded_seen d ≡ spec.decoded_of (view_of request.now)) }
{
    match server_view(alloc, request) {
        Ok(view) => Ok(Decoded {
            basic: view.basic,
            pairs: view.form,
        }),
        Err(ViewError::BadBasic) => Ok(Decoded {
            basic: None,
            pairs: Vec::new(alloc),
        }),
        Err(ViewError::Memory) => Err(AllocError),
    }
}
