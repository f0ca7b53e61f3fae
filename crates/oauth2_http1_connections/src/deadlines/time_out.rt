//! How far an exchange was when its time was up.

ghost use Rattle.std.specs.Prelude.{◌≡◌};
ghost use Rattle.std.specs.IoError.{error_kind};
ghost use Rattle.oauth2_http1.specs.Display.{is_time_limit};
ghost use Rattle.oauth2_http1_connections.specs.deadlines.TimeOut.{if_late, time_out_of};

use oauth2_http1::{Http1Error, ReplyFault};
use std::io::{self, ErrorKind};

/// How far an exchange was when its time was up.
#[derive(Clone, Copy, Debug, PartialEq, Eq)]
pub enum TimeOut {
    /// The request was not sent whole. How much of it was, is not known.
    WhileSending,
    /// The request was sent whole, and the server may have done what it asks for.
    AfterSending,
}

// This, if the error of a connection says that a time limit passed.
fn if_late(error: &io::Error, told: TimeOut) -> Option<TimeOut>
    ensures { result ≡ if_late error.now told }
{
    match error.kind() {
        ErrorKind::TimedOut | ErrorKind::WouldBlock => Some(told),
        _ => None,
    }
}

/// How far the exchange was, if this error says that its time was up; else `None`. An error of the
/// connector is its own, so it is not looked at: nothing was sent then.
pub fn time_out_of<E>(error: &Http1Error<E>) -> Option<TimeOut>
    ensures { result ≡ time_out_of error.now }
{
    match error {
        Http1Error::Write(error) => if_late(error, TimeOut::WhileSending),
        Http1Error::Reply(ReplyFault::Read(error)) => if_late(error, TimeOut::AfterSending),
        _ => None,
    }
}
