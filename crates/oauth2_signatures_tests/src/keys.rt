//! The rows `keys`.
//!
//! A row `set JSON` reads a key set and prints a line for each key. A row `verify ALGORITHM TOKEN`
//! checks the signature of an ID token. A row `check ALGORITHM KEY-ID MESSAGE SIGNATURE` checks a
//! signature in base64url by the key that is chosen; a KEY-ID of `-` means that there is none. A row
//! `secret ALGORITHM SECRET TOKEN` checks the signature of an ID token by a client's secret, and a
//! row `thumbprint JSON` prints the thumbprint of a key.

use crate::rows::secret_algorithm_of;
use base64::engine::general_purpose::URL_SAFE_NO_PAD;
use oauth2_json::FromJson;
use oauth2_keys::{JsonWebKeySet, ListedKey, SignatureAlgorithm, thumbprint};
use oauth2_openid::IdToken;
use oauth2_types::ClientSecret;
use serde_json::Value;
use std::alloc::Global;
use std::io::{self, Write};

fn write_key<W: Write>(key: &ListedKey, writer: &mut W) -> io::Result<()> {
    match key {
        ListedKey::Usable(key) => writeln!(
            writer,
            "usable: {:?} {:?} {:?}",
            key.key_id(),
            key.key_use(),
            key.algorithm(),
        ),
        ListedKey::Unusable(key) => {
            writeln!(writer, "of no use: {:?} {:?}", key.key_id(), key.fault())
        }
    }
}

fn read_set<W: Write>(
    alloc: Global,
    text: &str,
    writer: &mut W,
) -> io::Result<Option<JsonWebKeySet>> {
    match JsonWebKeySet::from_body(alloc, text.as_bytes()) {
        Ok(set) => {
            for key in set.keys() {
                write_key(key, writer)?;
            }
            Ok(Some(set))
        }
        Err(error) => {
            writeln!(writer, "{error}")?;
            Ok(None)
        }
    }
}

fn write_verified<W: Write>(
    alloc: Global,
    set: &JsonWebKeySet,
    algorithm: SignatureAlgorithm,
    token: &str,
    writer: &mut W,
) -> io::Result<()> {
    match IdToken::from_text(alloc, token) {
        Ok(token) => writeln!(writer, "{:?}", set.verify(&token, algorithm)),
        Err(error) => writeln!(writer, "{error}"),
    }
}

fn write_checked<W: Write>(
    alloc: Global,
    set: &JsonWebKeySet,
    algorithm: SignatureAlgorithm,
    words: (&str, &str, &str),
    writer: &mut W,
) -> io::Result<()> {
    let key_id = if words.0 == "-" { None } else { Some(words.0) };
    let Ok(signature) = URL_SAFE_NO_PAD.decode(alloc, words.2.as_bytes()) else {
        return writeln!(writer, "?");
    };
    match set.chosen_key(algorithm, key_id) {
        Ok(key) => writeln!(
            writer,
            "{}",
            key.verify(algorithm, words.1.as_bytes(), signature.as_slice()),
        ),
        Err(error) => writeln!(writer, "{error:?}"),
    }
}

fn write_signed<W: Write>(
    alloc: Global,
    set: &JsonWebKeySet,
    row: &str,
    writer: &mut W,
) -> io::Result<()> {
    let mut words = row.split(' ');
    let name = words.next().unwrap_or("");
    let Some(algorithm) = SignatureAlgorithm::from_name(words.next().unwrap_or("")) else {
        return writeln!(writer, "?");
    };
    let first = words.next().unwrap_or("");
    let second = words.next().unwrap_or("");
    let third = words.next().unwrap_or("");
    match name {
        "verify" => write_verified(alloc, set, algorithm, first, writer),
        "check" => write_checked(alloc, set, algorithm, (first, second, third), writer),
        _ => writeln!(writer, "?"),
    }
}

fn write_secret_verified<W: Write>(alloc: Global, words: &str, writer: &mut W) -> io::Result<()> {
    let mut words = words.split(' ');
    let Some(algorithm) = secret_algorithm_of(words.next().unwrap_or("")) else {
        return writeln!(writer, "?");
    };
    let secret = ClientSecret::new(String::from_str(alloc, words.next().unwrap_or(""))?);
    match IdToken::from_text(alloc, words.next().unwrap_or("")) {
        Ok(token) => writeln!(writer, "{:?}", algorithm.verify(&token, &secret)),
        Err(error) => writeln!(writer, "{error}"),
    }
}

fn write_thumbprint<W: Write>(alloc: Global, text: &str, writer: &mut W) -> io::Result<()> {
    match Value::from_str(alloc, text) {
        Ok(key) => match thumbprint(alloc, &key) {
            Ok(thumbprint) => writeln!(writer, "{thumbprint}"),
            Err(error) => writeln!(writer, "{error:?}"),
        },
        Err(_) => writeln!(writer, "?"),
    }
}

/// Reads key sets, and checks signatures by the last one.
pub struct KeySets {
    set: Option<JsonWebKeySet>,
}

impl Drop for KeySets {
    fn drop(self) {
        let KeySets { set: _ } = self;
    }
}

impl KeySets {
    /// No key set yet.
    pub fn new() -> KeySets {
        KeySets { set: None }
    }

    /// Does what a row says.
    pub fn run_row<W: Write>(
        &mut self,
        alloc: Global,
        row: &str,
        writer: &mut W,
    ) -> io::Result<()> {
        if let Some(text) = row.strip_prefix("set ") {
            self.set = read_set(alloc, text, writer)?;
            Ok(())
        } else if let Some(text) = row.strip_prefix("thumbprint ") {
            write_thumbprint(alloc, text, writer)
        } else if let Some(words) = row.strip_prefix("secret ") {
            write_secret_verified(alloc, words, writer)
        } else if let Some(set) = &self.set {
            write_signed(alloc, set, row, writer)
        } else {
            writeln!(writer, "?")
        }
    }
}
