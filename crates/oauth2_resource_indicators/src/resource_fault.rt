//! Why a resource could not be added to a request.

use std::alloc::AllocError;
use std::fmt;

/// Why a resource could not be added to a request.
#[derive(Clone, Copy, Debug, PartialEq, Eq)]
pub enum ResourceFault {
    /// The resource is not an absolute URI without a fragment (RFC 8707, section 2).
    ResourceIsNoUri,
    /// Memory ran out.
    Memory,
}

impl fmt::Display for ResourceFault {
    ghost use Rattle.std.specs.Prelude.{Some};
    ghost use Rattle.oauth2_resource_indicators.specs.ResourceText.{resource_fault_text};

    ghost output = { λ fault. Some (resource_fault_text fault) };

    ghost styled_output = { λ fault _. Some (resource_fault_text fault) };

    fn fmt<W: fmt::Write>(&self, f: &mut fmt::Formatter<W>) -> fmt::Result {
        f.write_str(match self {
            ResourceFault::ResourceIsNoUri => "resource is not an absolute URI without a fragment",
            ResourceFault::Memory => "Out of memory",
        })
    }
}

impl std::error::Error for ResourceFault {}

impl From<AllocError> for ResourceFault {
    ghost use Rattle.std.specs.Prelude.{◌≡◌};
    ghost use Rattle.oauth2_resource_indicators.specs.declared.resource_fault.ResourceFault.TheVariants.{Memory};

    ghost from_gives = { λ _ e. e ≡ Memory };

    fn from(_: AllocError) -> ResourceFault {
        ResourceFault::Memory
    }
}
