//! Checks of signatures by a public key of any kind.

use crate::rows::octets_of;
use std::alloc::Global;
use std::fmt::Debug;
use std::io::{self, Write};

/// A public key that a row takes, and that later rows check signatures by.
pub trait RowKey: Debug + Drop {
    /// Whether a row with this first word takes a key.
    fn is_taken_by(name: &str) -> bool;

    /// Reads the key of such a row from the octets of its other words, and prints what it is, or why
    /// there is none.
    fn take<W: Write>(
        name: &str,
        first: &[u8],
        second: &[u8],
        writer: &mut W,
    ) -> io::Result<Option<Self>>;

    /// Whether this is a signature of a message by the algorithm with this name. `None` if the key is
    /// for another algorithm.
    fn verdict(&self, algorithm: &str, message: &[u8], signature: &[u8]) -> Option<bool>;
}

// Prints the result of a check, or the key.
fn write_answer<K: RowKey, W: Write>(
    key: &K,
    name: &str,
    message: &[u8],
    signature: &[u8],
    writer: &mut W,
) -> io::Result<()> {
    if name == "show" {
        return writeln!(writer, "{key:?}");
    }
    match key.verdict(name, message, signature) {
        Some(is_valid) => writeln!(writer, "{is_valid}"),
        None => writeln!(writer, "?"),
    }
}

/// The key that the last row took, if it is one.
#[derive(Drop)]
pub struct SignatureChecks<K: RowKey> {
    key: Option<K>,
}

impl<K: RowKey> SignatureChecks<K> {
    /// No key yet.
    pub fn new() -> SignatureChecks<K> {
        SignatureChecks { key: None }
    }

    /// Takes a key, prints it, or prints the result of a check.
    pub fn run_row<W: Write>(
        &mut self,
        alloc: Global,
        row: &str,
        writer: &mut W,
    ) -> io::Result<()> {
        let mut words = row.split(' ');
        let name = words.next().unwrap_or("");
        let first = octets_of(alloc, words.next());
        let second = octets_of(alloc, words.next());
        if K::is_taken_by(name) {
            self.key = K::take(name, &first, &second, writer)?;
            return Ok(());
        }
        match &self.key {
            Some(key) => write_answer(key, name, &first, &second, writer),
            None => writeln!(writer, "?"),
        }
    }
}
