//! Times in JSON as whole seconds since 1970, and sums of a time and a duration.

#![tactic(auto)]

mod instants;
mod sum;

pub use instants::{needed_time, optional_time, time_value};
pub use sum::nanosecond_after;
