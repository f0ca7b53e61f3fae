//! The hash functions that signatures are made with: SHA-256, SHA-384 and SHA-512 (FIPS 180-4), one
//! of which is chosen when the program runs.

#![tactic(auto)]

mod hash_function;

pub use hash_function::HashFunction;
