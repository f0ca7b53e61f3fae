//! The members of a JSON object, from a `Value` or read from a body without one.

#![tactic(auto)]

mod found;
mod member;
mod nested;
mod number;
mod object;
mod text;

pub use object::Object;
