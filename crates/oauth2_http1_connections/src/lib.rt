//! An HTTP/1.1 client that uses a connection again. Its contract says which connection it takes,
//! which bytes are written and read, and which connections it holds afterwards.

#![tactic(auto)]

mod client;
mod connect;
mod deadlines;
mod error;
mod idle;
mod law;
mod retries;

pub use client::{KeepAliveClient, is_idempotent};
pub use connect::KeepAliveConnect;
pub use deadlines::{
    DeadlineConnector, DeadlineStream, LimitedConnect, LimitedStream, MonotonicClock, TimeOut,
    each_call_ends_in_time, each_late_reply_was_asked_for, time_out_of,
};
pub use error::KeepAliveError;
pub use law::{
    each_idle_connection_has_a_history, each_reply_is_the_next_message,
    each_result_is_from_kept_bytes, replies_stay_in_order, requests_stay_in_order,
};
pub use retries::{
    RetryLimits, Retrying, SleepingClient, TellsUnsent, WithSleep, each_copy_is_the_request,
    each_other_request_is_sent_once, each_unsent_error_opened_nothing,
};
