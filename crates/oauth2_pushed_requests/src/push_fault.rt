//! Why an authorization URL cannot be pushed.

use std::alloc::{AllocError, AllocFailed};
use std::fmt;

/// Why an authorization URL cannot be pushed.
#[derive(Clone, Copy, Debug, PartialEq, Eq)]
pub enum PushFault {
    /// The query of the URL does not begin with the parameters of the endpoint's own query (RFC
    /// 6749, section 3.1).
    OtherEndpoint,
    /// The name or the value of a parameter is not UTF-8.
    NotText,
    /// The URL has a parameter `request_uri` already (RFC 9126, section 2.1).
    HasRequestUri,
    /// The URL has a parameter `client_secret`.
    HasClientSecret,
    /// The URL has no parameter `client_id`, or more than one, or it is that of another client.
    OtherClient,
    /// The query of one of the two endpoints, that of pushes or the authorization endpoint, has a
    /// parameter `client_id` or `request_uri`, which the request itself sends (RFC 6749, sections
    /// 3.1 and 3.2: none is sent twice).
    EndpointQuery,
    /// Memory ran out.
    Memory,
}

impl fmt::Display for PushFault {
    ghost use Rattle.std.specs.Prelude.{Some};
    ghost use Rattle.oauth2_pushed_requests.specs.FaultText.{push_fault_text};

    ghost output = { λ fault. Some (push_fault_text fault) };

    ghost styled_output = { λ fault _. Some (push_fault_text fault) };

    fn fmt<W: fmt::Write>(&self, f: &mut fmt::Formatter<W>) -> fmt::Result {
        f.write_str(match self {
            PushFault::OtherEndpoint => "URL does not begin with its endpoint's query",
            PushFault::NotText => "URL has a parameter that is not UTF-8",
            PushFault::HasRequestUri => "URL has the parameter `request_uri`",
            PushFault::HasClientSecret => "URL has the parameter `client_secret`",
            PushFault::OtherClient => "URL has not one `client_id` that is this client's",
            PushFault::EndpointQuery => "URL of an endpoint has `client_id` or `request_uri`",
            PushFault::Memory => "Out of memory",
        })
    }
}

impl std::error::Error for PushFault {}

impl From<AllocError> for PushFault {
    ghost use Rattle.std.specs.Prelude.{◌≡◌};
    ghost use Rattle.oauth2_pushed_requests.specs.declared.push_fault.PushFault.TheVariants.{
      Memory,
    };

    ghost from_gives = { λ _ e. e ≡ Memory };

    fn from(_: AllocError) -> PushFault {
        PushFault::Memory
    }
}

impl<T: Drop> From<AllocFailed<T>> for PushFault {
    ghost use Rattle.std.specs.Prelude.{◌≡◌};
    ghost use Rattle.oauth2_pushed_requests.specs.declared.push_fault.PushFault.TheVariants.{
      Memory,
    };

    ghost from_gives = { λ _ e. e ≡ Memory };

    fn from(_: AllocFailed<T>) -> PushFault {
        PushFault::Memory
    }
}
