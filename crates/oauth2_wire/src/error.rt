//! Errors of requests: why one could not be made, was not sent, or brought no result.

use crate::request::RequestFault;
use oauth2_codes::{BasicErrorResponseType, StandardErrorResponse};
use oauth2_json::ParseFault;
use oauth2_types::display::write_display;
use std::alloc::{AllocError, Global};
use std::{fmt, io};
use thiserror::Error;

/// Why a `Client` cannot make a request.
#[derive(Debug, Drop)]
pub enum ConfigurationError {
    /// The endpoint with this name has no URL.
    MissingUrl(&'static str),
    /// The URL of the endpoint with this name is not an `https` URL.
    InsecureUrl(&'static str),
}

impl fmt::Display for ConfigurationError {
    ghost use Rattle.oauth2_wire.specs.Display.{configuration_text};

    ghost output = { configuration_text };

    ghost styled_output = { λ error _. configuration_text error };

    fn fmt<W: fmt::Write>(&self, f: &mut fmt::Formatter<W>) -> fmt::Result {
        match self {
            ConfigurationError::MissingUrl(name) => write_display(
                f,
                format_args!("No {name} endpoint URL specified"),
            ),
            ConfigurationError::InsecureUrl(name) => write_display(
                f,
                format_args!("Scheme for {name} endpoint URL must be HTTPS"),
            ),
        }
    }
}

impl std::error::Error for ConfigurationError {}

/// Why a request failed.
#[derive(Debug, Drop)]
pub enum RequestTokenError<RE, T> {
    /// The error that the server sent (RFC 6749, section 5.2).
    ServerResponse(T),
    /// The error of the HTTP client.
    Request(RE),
    /// The body of the reply does not parse: the fault, and the bytes of the body.
    Parse(ParseFault, Vec<u8>),
    /// Another error, as a text: an empty body, a Content-Type that is not JSON, an endpoint URL
    /// that is not an HTTP target.
    Other(String),
    /// Memory ran out.
    Memory {
        /// Whether the HTTP client was called before memory ran out.
        sent: bool,
    },
}

/// The error of a request to an endpoint whose error responses use the basic codes (RFC 6749,
/// section 5.2).
pub type BasicRequestTokenError<RE> = RequestTokenError<
    RE,
    StandardErrorResponse<BasicErrorResponseType>,
>;

impl<RE, T: fmt::Display> fmt::Display for RequestTokenError<RE, T> {
    ghost use Rattle.oauth2_wire.specs.Display.{fault_text};

    ghost output = { fault_text T.output };

    ghost styled_output = { λ error _. fault_text T.output error };

    fn fmt<W: fmt::Write>(&self, f: &mut fmt::Formatter<W>) -> fmt::Result {
        match self {
            RequestTokenError::ServerResponse(error) => write_display(
                f,
                format_args!("Server returned error response: {error}"),
            ),
            RequestTokenError::Request(_) => f.write_str("Request failed"),
            RequestTokenError::Parse(_, _) => f.write_str("Failed to parse server response"),
            RequestTokenError::Other(text) => write_display(f, format_args!("Other error: {text}")),
            RequestTokenError::Memory { sent: _ } => f.write_str("Out of memory"),
        }
    }
}

impl<RE, T> std::error::Error for RequestTokenError<RE, T>
where
    RE: fmt::Debug + Drop,
    T: fmt::Debug + fmt::Display + Drop,
{}

impl<RE, T> RequestTokenError<RE, T> {
    ghost use Rattle.std.specs.Prelude.{◌≡◌, ◌⊎◌, false};
    ghost use Rattle.oauth2_wire.specs.Once.{SaysOther, not_http_text};
    ghost use Rattle.oauth2_wire.specs.declared.error.RequestTokenError.TheVariants.{Memory};
    ghost use Rattle.oauth2_wire.specs.declared.request.RequestFault.TheVariants.{NotHttp};

    /// The error for memory that ran out before a request was sent. It converts the error of a call
    /// that only allocates: `.map_err(RequestTokenError::refused)?`. A function that is generic
    /// over its client writes the closure `|_| RequestTokenError::Memory { sent: false }` instead.
    pub fn refused(_error: AllocError) -> RequestTokenError<RE, T>
        ensures { result ≡ Memory false }
    {
        RequestTokenError::Memory { sent: false }
    }

    /// `Other` with a copy of this text, or `Memory { sent }` if memory for the copy runs out.
    pub fn with_text(alloc: Global, text: &str, sent: bool) -> RequestTokenError<RE, T>
        ensures { SaysOther text.now result ⊎ (result ≡ Memory sent) }
    {
        match String::from_str(alloc, text) {
            Ok(text) => RequestTokenError::Other(text),
            Err(AllocError) => RequestTokenError::Memory { sent },
        }
    }

    /// The error for a request that could not be prepared. If memory ran out, the error is `Memory
    /// { sent }`: `sent` says whether the client was called before.
    pub fn unprepared(alloc: Global, fault: RequestFault, sent: bool) -> RequestTokenError<RE, T>
        ensures { ((fault ≡ NotHttp) × SaysOther not_http_text result) ⊎ (result ≡ Memory sent) }
    {
        match fault {
            RequestFault::NotHttp => RequestTokenError::with_text(
                alloc,
                "failed to prepare request: endpoint URL is not an HTTP target",
                sent,
            ),
            RequestFault::Memory => RequestTokenError::Memory { sent },
        }
    }
}

impl<RE, T> From<RE> for RequestTokenError<RE, T> {
    ghost use Rattle.std.specs.Prelude.{◌≡◌};
    ghost use Rattle.oauth2_wire.specs.declared.error.RequestTokenError.TheVariants.{Request};

    ghost from_gives = { λ error fault. fault ≡ Request error };

    fn from(error: RE) -> RequestTokenError<RE, T> {
        RequestTokenError::Request(error)
    }
}

/// An error type for HTTP clients that you write.
#[derive(Debug, Drop, Error)]
pub enum HttpClientError<RE> {
    /// The error of the HTTP library.
    Reqwest(Box<RE>),
    /// An invalid part of a request or of a reply.
    Http(http::Error),
    /// An error of input or output.
    Io(io::Error),
    /// Another error, as a text.
    Other(String),
}

impl<RE> fmt::Display for HttpClientError<RE> {
    ghost use Rattle.oauth2_wire.specs.Display.{client_text};

    ghost output = { client_text };

    ghost styled_output = { λ error _. client_text error };

    fn fmt<W: fmt::Write>(&self, f: &mut fmt::Formatter<W>) -> fmt::Result {
        match self {
            HttpClientError::Reqwest(_) => f.write_str("client error"),
            HttpClientError::Http(_) => f.write_str("HTTP error"),
            HttpClientError::Io(_) => f.write_str("I/O error"),
            HttpClientError::Other(text) => f.write_str(text.as_str()),
        }
    }
}

impl<RE> From<Box<RE>> for HttpClientError<RE> {
    ghost use Rattle.std.specs.Prelude.{◌≡◌};
    ghost use Rattle.oauth2_wire.specs.declared.error.HttpClientError.TheVariants.{Reqwest};

    ghost from_gives = { λ error given. given ≡ Reqwest error };

    fn from(error: Box<RE>) -> HttpClientError<RE> {
        HttpClientError::Reqwest(error)
    }
}

impl<RE> From<http::Error> for HttpClientError<RE> {
    ghost use Rattle.std.specs.Prelude.{◌≡◌};
    ghost use Rattle.oauth2_wire.specs.declared.error.HttpClientError.TheVariants.{Http};

    ghost from_gives = { λ error given. given ≡ Http error };

    fn from(error: http::Error) -> HttpClientError<RE> {
        HttpClientError::Http(error)
    }
}

impl<RE> From<io::Error> for HttpClientError<RE> {
    ghost use Rattle.std.specs.Prelude.{◌≡◌};
    ghost use Rattle.oauth2_wire.specs.declared.error.HttpClientError.TheVariants.{Io};

    ghost from_gives = { λ error given. given ≡ Io error };

    fn from(error: io::Error) -> HttpClientError<RE> {
        HttpClientError::Io(error)
    }
}
