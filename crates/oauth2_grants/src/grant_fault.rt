//! Why a request by an extension grant could not be made.

use std::alloc::AllocError;
use std::fmt;

/// Why a request by an extension grant could not be made.
#[derive(Clone, Copy, Debug, PartialEq, Eq)]
pub enum GrantFault {
    /// The grant type is not an absolute URI (RFC 6749, section 4.5).
    GrantTypeIsNoUri,
    /// The request sends a parameter of this name itself: `grant_type`, `scope`, `client_id` or
    /// `client_secret`.
    NameIsTaken,
    /// The resource is not an absolute URI without a fragment (RFC 8693, section 2.1; RFC 8707,
    /// section 2).
    ResourceIsNoUri,
    /// The type of a token is not an absolute URI (RFC 8693, section 3).
    TokenTypeIsNoUri,
    /// Memory ran out.
    Memory,
}

impl fmt::Display for GrantFault {
    ghost use Rattle.std.specs.Prelude.{Some};
    ghost use Rattle.oauth2_grants.specs.GrantText.{grant_fault_text};

    ghost output = { λ fault. Some (grant_fault_text fault) };

    ghost styled_output = { λ fault _. Some (grant_fault_text fault) };

    fn fmt<W: fmt::Write>(&self, f: &mut fmt::Formatter<W>) -> fmt::Result {
        f.write_str(match self {
            GrantFault::GrantTypeIsNoUri => "grant type is not an absolute URI",
            GrantFault::NameIsTaken => "the request itself sends a parameter of this name",
            GrantFault::ResourceIsNoUri => "resource is not an absolute URI without a fragment",
            GrantFault::TokenTypeIsNoUri => "token type is not an absolute URI",
            GrantFault::Memory => "Out of memory",
        })
    }
}

impl std::error::Error for GrantFault {}

impl From<AllocError> for GrantFault {
    ghost use Rattle.std.specs.Prelude.{◌≡◌};
    ghost use Rattle.oauth2_grants.specs.declared.grant_fault.GrantFault.TheVariants.{Memory};

    ghost from_gives = { λ _ e. e ≡ Memory };

    fn from(_: AllocError) -> GrantFault {
        GrantFault::Memory
    }
}
