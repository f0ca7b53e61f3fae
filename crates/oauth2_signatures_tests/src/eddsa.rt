//! The rows `eddsa`.
//!
//! A row `Ed25519 KEY` takes a key, and a row `EdDSA MESSAGE SIGNATURE` checks a signature by it. A
//! row `show` prints the key. Octets are written in hex, and no octets as `-`.

use crate::signature_checks::RowKey;
use eddsa_signatures::EddsaPublicKey;
use std::io::{self, Write};

impl RowKey for EddsaPublicKey {
    fn is_taken_by(name: &str) -> bool {
        name == "Ed25519"
    }

    fn take<W: Write>(
        _name: &str,
        octets: &[u8],
        _second: &[u8],
        writer: &mut W,
    ) -> io::Result<Option<EddsaPublicKey>> {
        match EddsaPublicKey::new(octets) {
            Ok(key) => {
                let is_kept = key.octets() == octets;
                writeln!(writer, "{is_kept:?}")?;
                Ok(Some(key.clone()?))
            }
            Err(error) => {
                writeln!(writer, "{error}")?;
                Ok(None)
            }
        }
    }

    fn verdict(&self, algorithm: &str, message: &[u8], signature: &[u8]) -> Option<bool> {
        if algorithm == "EdDSA" {
            Some(self.verify(message, signature))
        } else {
            None
        }
    }
}
