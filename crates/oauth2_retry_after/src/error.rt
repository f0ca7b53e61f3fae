//! The errors of a client that tells that a server is busy.

use crate::asks_to_wait::AsksToWait;
use http::StatusCode;
use oauth2_types::display::write_display;
use std::fmt;
use std::time::Duration;

/// Why a call of a `TellsBusy` returned no reply.
#[derive(Debug, Drop)]
pub enum BusyError<E> {
    /// The server asks the client to try again later.
    Busy {
        /// The status of the reply: 429 (RFC 6585, section 4) or 503 (RFC 9110, section 15.6.4).
        status: StatusCode,
        /// The wait that the Retry-After of the reply asks for in seconds (RFC 9110, section
        /// 10.2.3); `None` if there is none, or if it is a date.
        retry_after: Option<Duration>,
    },
    /// The inner client returned this error.
    Client(E),
}

impl<E> AsksToWait for BusyError<E> {
    ghost use Rattle.oauth2_retry_after.specs.Busy.{wait_asked_by};

    ghost asked_wait = { wait_asked_by };

    fn asked_wait(&self) -> Option<Duration> {
        match self {
            BusyError::Busy { retry_after, .. } => *retry_after,
            BusyError::Client(_) => None,
        }
    }
}

impl<E: fmt::Display> fmt::Display for BusyError<E> {
    ghost use Rattle.oauth2_retry_after.specs.ErrorTexts.{busy_error_text};

    ghost output = { busy_error_text E.output };

    ghost styled_output = { λ error _. busy_error_text E.output error };

    fn fmt<W: fmt::Write>(&self, f: &mut fmt::Formatter<W>) -> fmt::Result {
        match self {
            BusyError::Busy { .. } => f.write_str("The server asks to try again later"),
            BusyError::Client(error) => write_display(f, error),
        }
    }
}

impl<E> std::error::Error for BusyError<E>
where
    E: fmt::Debug + fmt::Display + Drop,
{}
