//! The poll of RFC 8628, 3.4 and 3.5, as a state machine: when a device sends its next request to
//! the token endpoint, how long it sleeps before that, and when it gives up.

#![tactic(auto)]

mod device_poll;
mod laws;
mod run;

pub use device_poll::{DevicePoll, PollAnswer, PollReady, PollSettings, PollStep};
pub use laws::{ending_is_the_only_one, requests_are_bounded, sleeps_are_paced};
pub use run::{PollEnd, PollEvent, PollRun};
