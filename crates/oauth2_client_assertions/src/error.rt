//! The errors of a client that adds assertions.

use oauth2_types::display::write_display;
use std::fmt;

/// Why a call of an `AssertingClient` returned no reply.
#[derive(Debug, Drop)]
pub enum AssertingError<C, S> {
    /// The request is a form for a target that is no endpoint of the server. It was not sent, and
    /// the source was not asked.
    OtherTarget,
    /// The request authenticates the client otherwise already (RFC 6749, section 2.3). It was not
    /// sent, and the source was not asked.
    OtherAuthentication,
    /// The source returned this error. The request was not sent.
    Source(S),
    /// Memory ran out while the assertion was added. The request was not sent.
    Memory,
    /// The inner client returned this error.
    Client(C),
}

impl<C: fmt::Display, S: fmt::Display> fmt::Display for AssertingError<C, S> {
    ghost use Rattle.oauth2_client_assertions.specs.ErrorTexts.{asserting_error_text};

    ghost output = { asserting_error_text C.output S.output };

    ghost styled_output = { λ error _. asserting_error_text C.output S.output error };

    fn fmt<W: fmt::Write>(&self, f: &mut fmt::Formatter<W>) -> fmt::Result {
        match self {
            AssertingError::OtherTarget => {
                f.write_str("the request goes to no endpoint of the server")
            }
            AssertingError::OtherAuthentication => {
                f.write_str("the request authenticates the client already")
            }
            AssertingError::Source(error) => write_display(f, error),
            AssertingError::Memory => f.write_str("out of memory"),
            AssertingError::Client(error) => write_display(f, error),
        }
    }
}

impl<C, S> std::error::Error for AssertingError<C, S>
where
    C: fmt::Debug + fmt::Display + Drop,
    S: fmt::Debug + fmt::Display + Drop,
{}
