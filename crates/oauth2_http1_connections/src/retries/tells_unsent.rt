//! Errors of HTTP clients that tell whether the request was sent.

use oauth2_adapters::AdapterError;
use oauth2_http1::Http1Error;

/// An error of an HTTP client that tells whether the request was sent.
pub trait TellsUnsent {
    ghost use Rattle.std.specs.Prelude.{◌≡◌, Bool};

    /// The error says that nothing of the request was sent.
    ghost unsent: { Self → Bool };

    /// Whether it is certain that nothing of the request was sent. If that is not known, this is
    /// false.
    fn is_unsent(&self) -> bool
        ensures { result ≡ unsent self.now };
}

impl<E> TellsUnsent for Http1Error<E> {
    ghost use Rattle.oauth2_http1_connections.specs.retries.Unsent.{is_unsent_http1};

    ghost unsent = { is_unsent_http1 };

    fn is_unsent(&self) -> bool {
        match self {
            Http1Error::Request(_) | Http1Error::Connect(_) => true,
            Http1Error::Write(_) | Http1Error::Reply(_) => false,
        }
    }
}

impl<E: TellsUnsent> TellsUnsent for AdapterError<E> {
    ghost use Rattle.oauth2_http1_connections.specs.retries.Unsent.{is_unsent_adapted};

    ghost unsent = { is_unsent_adapted E.unsent };

    fn is_unsent(&self) -> bool {
        match self {
            AdapterError::Client(error) => error.is_unsent(),
            AdapterError::Memory => false,
        }
    }
}
