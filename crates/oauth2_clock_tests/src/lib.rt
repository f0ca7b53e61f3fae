//! Tests of what depends on a clock: the poll of a device and the keeper of a token. They are
//! callers with their own contracts, and runs that were worked out by hand.

#![tactic(auto)]

#[cfg(test)]
mod callers;
#[cfg(test)]
mod keeper_tests;
#[cfg(test)]
mod machine_tests;
#[cfg(test)]
mod support;
#[cfg(test)]
mod world_tests;
