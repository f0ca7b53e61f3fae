//! Endpoints that a client may not call.

ghost use Rattle.std.specs.Prelude.{◌≡◌, Some};
ghost use Rattle.oauth2_metadata.specs.EndpointFault.{cause_text, fault_text, member_name};

use oauth2_types::display::write_display;
use std::fmt;

/// An endpoint that a client calls. Its text is the name of its member of the metadata.
#[derive(Clone, Copy, Debug, PartialEq, Eq)]
pub enum Endpoint {
    /// `authorization_endpoint` (RFC 6749, section 3.1).
    Authorization,
    /// `token_endpoint` (RFC 6749, section 3.2).
    Token,
    /// `device_authorization_endpoint` (RFC 8628, section 3.1).
    DeviceAuthorization,
    /// `introspection_endpoint` (RFC 7662, section 2).
    Introspection,
    /// `revocation_endpoint` (RFC 7009, section 2).
    Revocation,
}

/// Why a client may not call an endpoint.
#[derive(Clone, Copy, Debug, PartialEq, Eq)]
pub enum EndpointCause {
    /// The scheme is not `https`, nor `http` with a loopback host.
    NotHttps,
    /// The URL has a fragment, which its standard forbids.
    HasFragment,
}

/// An endpoint that a client may not call, and why.
#[derive(Clone, Copy, Debug, PartialEq, Eq)]
pub struct EndpointFault {
    /// The endpoint.
    pub endpoint: Endpoint,
    /// What is wrong with its URL.
    pub cause: EndpointCause,
}

impl Endpoint {
    fn member(self) -> &'static str
        ensures { result.now ≡ member_name self }
    {
        match self {
            Endpoint::Authorization => "authorization_endpoint",
            Endpoint::Token => "token_endpoint",
            Endpoint::DeviceAuthorization => "device_authorization_endpoint",
            Endpoint::Introspection => "introspection_endpoint",
            Endpoint::Revocation => "revocation_endpoint",
        }
    }
}

impl fmt::Display for Endpoint {
    ghost output = { λ endpoint. Some (member_name endpoint) };

    ghost styled_output = { λ endpoint _. Some (member_name endpoint) };

    fn fmt<W: fmt::Write>(&self, f: &mut fmt::Formatter<W>) -> fmt::Result {
        f.write_str(self.member())
    }
}

impl fmt::Display for EndpointCause {
    ghost output = { λ cause. Some (cause_text cause) };

    ghost styled_output = { λ cause _. Some (cause_text cause) };

    fn fmt<W: fmt::Write>(&self, f: &mut fmt::Formatter<W>) -> fmt::Result {
        f.write_str(match self {
            EndpointCause::NotHttps => "not an https URL",
            EndpointCause::HasFragment => "a URL with a fragment",
        })
    }
}

impl fmt::Display for EndpointFault {
    ghost output = { λ fault. Some (fault_text fault) };

    ghost styled_output = { λ fault _. Some (fault_text fault) };

    fn fmt<W: fmt::Write>(&self, f: &mut fmt::Formatter<W>) -> fmt::Result {
        write_display(f, format_args!("{}: {}", self.endpoint, self.cause))
    }
}

impl std::error::Error for EndpointFault {}
