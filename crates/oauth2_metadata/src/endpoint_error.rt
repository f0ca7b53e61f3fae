//! Why no client for a task can be made from metadata.

use crate::endpoint_fault::{Endpoint, EndpointFault};
use oauth2_types::display::write_display;
use std::alloc::AllocError;
use std::fmt;

/// Why no client for a task can be made with the endpoints of the metadata.
#[derive(Clone, Copy, Debug, PartialEq, Eq)]
pub enum EndpointError {
    /// A client may not call this endpoint.
    Refused(EndpointFault),
    /// The metadata does not have this endpoint, which the task needs.
    Missing(Endpoint),
    /// Memory ran out.
    Memory,
}

impl fmt::Display for EndpointError {
    ghost use Rattle.std.specs.Prelude.{Some};
    ghost use Rattle.oauth2_metadata.specs.Client.{endpoint_error_text};

    ghost output = { λ error. Some (endpoint_error_text error) };

    ghost styled_output = { λ error _. Some (endpoint_error_text error) };

    fn fmt<W: fmt::Write>(&self, f: &mut fmt::Formatter<W>) -> fmt::Result {
        match self {
            EndpointError::Refused(fault) => write_display(f, fault),
            EndpointError::Missing(endpoint) => write_display(
                f,
                format_args!("metadata has no {endpoint}"),
            ),
            EndpointError::Memory => f.write_str("Out of memory"),
        }
    }
}

impl std::error::Error for EndpointError {}

impl From<AllocError> for EndpointError {
    ghost use Rattle.std.specs.Prelude.{◌≡◌};
    ghost use Rattle.oauth2_metadata.specs.declared.endpoint_error.EndpointError.TheVariants.{Memory};

    ghost from_gives = { λ _ e. e ≡ Memory };

    fn from(_: AllocError) -> EndpointError {
        EndpointError::Memory
    }
}
