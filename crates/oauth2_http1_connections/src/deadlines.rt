//! An end in time for an exchange over HTTP/1.1: for the opening of its connection, each write, each
//! read, and all of them together.

mod clock;
mod connector;
mod law;
mod stream;
mod time_out;

pub use clock::MonotonicClock;
pub use connector::{DeadlineConnector, LimitedConnect};
pub use law::{each_call_ends_in_time, each_late_reply_was_asked_for};
pub use stream::{DeadlineStream, LimitedStream};
pub use time_out::{TimeOut, time_out_of};
