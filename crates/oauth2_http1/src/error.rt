//! Why a call gave no reply.

use crate::fault::{MessageFault, ReplyFault, write_text};
use oauth2_types::display::write_display;
use std::{fmt, io};

/// Why a call gave no reply.
#[derive(Debug, Drop)]
pub enum Http1Error<E> {
    /// The request cannot be sent. No connection was opened.
    Request(MessageFault),
    /// The connector returned this error. No connection was opened.
    Connect(E),
    /// A write failed. It is not known how much was written, and nothing is written again.
    Write(io::Error),
    /// The request was written, but no reply was read.
    Reply(ReplyFault),
}

impl<E: fmt::Display> fmt::Display for Http1Error<E> {
    ghost use Rattle.oauth2_http1.specs.Display.{http1_error_text};

    ghost output = { http1_error_text E.output };

    ghost styled_output = { λ error _. http1_error_text E.output error };

    fn fmt<W: fmt::Write>(&self, f: &mut fmt::Formatter<W>) -> fmt::Result {
        match self {
            Http1Error::Request(fault) => write_display(f, fault),
            Http1Error::Connect(error) => write_display(f, format_args!("no connection: {error}")),
            Http1Error::Write(error) => f.write_str(write_text(error)),
            Http1Error::Reply(fault) => write_display(f, fault),
        }
    }
}

impl<E> std::error::Error for Http1Error<E>
where
    E: fmt::Debug + fmt::Display + Drop,
{}
