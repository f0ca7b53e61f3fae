//! The poll of a device for its token (RFC 8628, sections 3.4 and 3.5): its request, and the poll
//! of the token endpoint in a world that has a clock, sends requests and sleeps.

#![tactic(auto)]

mod device_access_token_request;
mod joined_world;
mod poll;
mod poll_world;
mod request;
mod verdict;

pub use device_access_token_request::{DeviceAccessTokenRequest, NoClock};
pub use poll_world::PollWorld;
