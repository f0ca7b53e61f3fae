//! Tests of ID tokens.

#![tactic(auto)]

#[cfg(test)]
mod checks;
#[cfg(test)]
mod reads;
#[cfg(test)]
mod support;
