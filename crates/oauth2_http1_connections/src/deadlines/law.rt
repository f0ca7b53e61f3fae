//! Laws about deadlines.

ghost use Rattle.oauth2_http1_connections.specs.deadlines.Deadline.{EachCallEndsInTime};
ghost use Rattle.oauth2_http1_connections.specs.deadlines.TimeOut.{EachLateReplyWasAskedFor};

use oauth2_http1::Connect;

/// A call that takes at most the time that was left when it began ends by the deadline.
pub fn each_call_ends_in_time()
    ensures { EachCallEndsInTime }
{}

/// If the time was up after the sending, the whole request was written to one connection.
pub fn each_late_reply_was_asked_for<C: Connect>()
    ensures { EachLateReplyWasAskedFor C.opens C.Stream.contents C.Stream.remaining
        C.Stream.reads C.Stream.writes C.Stream.flushes }
{}
