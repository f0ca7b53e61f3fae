//! Why there is no metadata.

use crate::endpoint_fault::EndpointFault;
use crate::reply::OtherReply;
use oauth2_codes::BasicErrorResponse;
use oauth2_types::display::write_display;
use oauth2_wire::RequestTokenError;
use std::fmt;

/// Why there is no metadata of an issuer.
#[derive(Debug, Drop)]
pub enum MetadataError<RE, T = BasicErrorResponse> {
    /// The request was not sent or failed, or its reply has the status 200 and is not metadata, or
    /// it is an error response (RFC 6749, section 5.2).
    Reply(RequestTokenError<RE, T>),
    /// The reply has another status than 200, for example 404 or that of a redirect.
    Status(OtherReply),
    /// A client may not call this endpoint of the metadata, so none of the metadata is returned.
    Endpoint(EndpointFault),
    /// The metadata names this other issuer, so none of it is returned (RFC 8414, section 3.3).
    OtherIssuer(String),
}

impl<RE, T: fmt::Display> fmt::Display for MetadataError<RE, T> {
    ghost use Rattle.oauth2_metadata.specs.Request.{metadata_error_text};

    ghost output = { metadata_error_text T.output };

    ghost styled_output = { λ error _. metadata_error_text T.output error };

    fn fmt<W: fmt::Write>(&self, f: &mut fmt::Formatter<W>) -> fmt::Result {
        match self {
            MetadataError::Reply(error) => write_display(f, error),
            MetadataError::Status(reply) => write_display(f, reply),
            MetadataError::Endpoint(fault) => write_display(f, fault),
            MetadataError::OtherIssuer(issuer) => write_display(
                f,
                format_args!("metadata is another issuer's: {issuer}"),
            ),
        }
    }
}

impl<RE, T> std::error::Error for MetadataError<RE, T>
where
    RE: fmt::Debug + Drop,
    T: fmt::Debug + fmt::Display + Drop,
{}
