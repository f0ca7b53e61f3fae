//! Tests of calls that run out of memory. This crate has the rows that need no client (challenges,
//! JSON and the poll over lists), what all rows share (names, ends and printed lines), and a random
//! generator for all tests that repeats one word.

#![tactic(auto)]

mod ended;
mod names;
mod repeated;
mod rows;
mod show;
mod table;
mod value_rows;
mod values;

pub use ended::{Ended, Want, text};
pub use repeated::Repeated;
pub use rows::{Rows, run_rows};
pub use show::{show_fault, show_sleep, show_text};
pub use table::find;
pub use value_rows::{ValueRow, show_value_row, value_row};
pub use values::{VERIFIER, verifier};
