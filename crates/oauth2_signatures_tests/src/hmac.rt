//! The rows `hmac`.
//!
//! A row `key ALGORITHM OCTETS` takes a key, where ALGORITHM is a name of RFC 7518, 3.1, such as
//! `HS256`. A row `sign MESSAGE` prints the code of a message with this key, and a row
//! `verify MESSAGE SIGNATURE` checks one. A row `show` prints the key, its hash function and a code.
//! Octets are written in hex, and no octets as `-`.

use crate::rows::octets_of;
use hmac_signatures::{HashFunction, HmacKey};
use std::alloc::Global;
use std::io::{self, Write};

fn hash_of(algorithm: &str) -> Option<HashFunction> {
    match algorithm {
        "HS256" => Some(HashFunction::Sha256),
        "HS384" => Some(HashFunction::Sha384),
        "HS512" => Some(HashFunction::Sha512),
        _ => None,
    }
}

// Prints the result of a row `sign`, `verify` or `show` with the key.
fn write_answer<W: Write>(
    key: &HmacKey<'_>,
    name: &str,
    message: &[u8],
    signature: &[u8],
    alloc: Global,
    writer: &mut W,
) -> io::Result<()> {
    match name {
        "sign" => {
            let code = key.sign(message);
            writeln!(writer, "{}", hex::encode(alloc, code.as_octets())?)
        }
        "verify" => writeln!(writer, "{}", key.verify(message, signature)),
        "show" => writeln!(writer, "{:?} {:?} {:?}", key, key.hash(), key.sign(message)),
        _ => writeln!(writer, "?"),
    }
}

// The hash function and the octets of a key, if it is taken.
fn take_key<W: Write>(
    hash: HashFunction,
    octets: Vec<u8>,
    writer: &mut W,
) -> io::Result<Option<(HashFunction, Vec<u8>)>> {
    if let Err(error) = HmacKey::new(hash, octets.as_slice()) {
        writeln!(writer, "{error}")?;
        return Ok(None);
    }
    Ok(Some((hash, octets)))
}

/// Makes and checks codes with the last key.
pub struct HmacCodes {
    // The hash function and the octets of the key.
    key: Option<(HashFunction, Vec<u8>)>,
}

impl Drop for HmacCodes {
    fn drop(self) {
        let HmacCodes { key: _ } = self;
    }
}

impl HmacCodes {
    /// No key yet.
    pub fn new() -> HmacCodes {
        HmacCodes { key: None }
    }

    /// Takes a key, or prints a code or the result of a check.
    pub fn run_row<W: Write>(
        &mut self,
        alloc: Global,
        row: &str,
        writer: &mut W,
    ) -> io::Result<()> {
        let mut words = row.split(' ');
        let name = words.next().unwrap_or("");
        let first = words.next();
        let second = octets_of(alloc, words.next());
        if name == "key"
            && let Some(hash) = hash_of(first.unwrap_or(""))
        {
            self.key = take_key(hash, second, writer)?;
            return Ok(());
        }
        if let Some((hash, octets)) = &self.key
            && let Ok(key) = HmacKey::new(*hash, octets.as_slice())
        {
            let message = octets_of(alloc, first);
            write_answer(&key, name, &message, &second, alloc, writer)
        } else {
            writeln!(writer, "?")
        }
    }
}
