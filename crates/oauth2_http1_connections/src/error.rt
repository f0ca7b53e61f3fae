//! Why a call of the client returned no reply.

use oauth2_http1::Http1Error;
use oauth2_types::display::write_display;
use std::fmt;

/// Why a request got no reply.
#[derive(Debug, Drop)]
pub enum KeepAliveError<E> {
    /// The request was not sent, or the exchange failed, as on a connection for one request.
    Http1(Http1Error<E>),
    /// A write or a read failed on a connection that was used before, and no byte of a reply had
    /// come. The peer may have closed it in the meantime. The request was not sent again.
    Unanswered {
        /// What failed: a write, or the reading of the reply.
        error: Http1Error<E>,
        /// Whether the request may be sent again, since its method is idempotent.
        may_be_sent_again: bool,
    },
}

impl<E: fmt::Display> fmt::Display for KeepAliveError<E> {
    ghost use Rattle.oauth2_http1_connections.specs.Display.{keep_alive_error_text};

    ghost output = { keep_alive_error_text E.output };

    ghost styled_output = { λ error _. keep_alive_error_text E.output error };

    fn fmt<W: fmt::Write>(&self, f: &mut fmt::Formatter<W>) -> fmt::Result {
        match self {
            KeepAliveError::Http1(error) => write_display(f, error),
            KeepAliveError::Unanswered { error, .. } => {
                write_display(f, format_args!("no reply on a used connection: {error}"))
            }
        }
    }
}

impl<E> std::error::Error for KeepAliveError<E>
where
    E: fmt::Debug + fmt::Display + Drop,
{}
