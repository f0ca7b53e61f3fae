//! What the rows of several modules have in common.

use jiff::Timestamp;
use oauth2_json::FromJson;
use oauth2_keys::{JsonWebKeySet, SecretAlgorithm};
use std::alloc::Global;
use std::io::{self, Write};

/// The octets that a word is the hex of; none if it is not hex, such as `-`.
pub fn octets_of(alloc: Global, word: Option<&str>) -> Vec<u8> {
    match hex::decode(alloc, word.unwrap_or("-")) {
        Ok(octets) => octets,
        Err(_) => Vec::new(alloc),
    }
}

/// The algorithm with this name, by a client's secret.
pub fn secret_algorithm_of(name: &str) -> Option<SecretAlgorithm> {
    match name {
        "HS256" => Some(SecretAlgorithm::Hs256),
        "HS384" => Some(SecretAlgorithm::Hs384),
        "HS512" => Some(SecretAlgorithm::Hs512),
        _ => None,
    }
}

/// The key set that a text is the JSON of.
pub fn key_set_of(alloc: Global, text: &str) -> Option<JsonWebKeySet> {
    JsonWebKeySet::from_body(alloc, text.as_bytes()).ok()
}

/// The second since 1970 with which a row begins, and the token behind it.
pub fn moment_and_token(words: &str) -> Option<(Timestamp, &str)> {
    let (second, token) = words.split_once(' ')?;
    let moment = Timestamp::from_second(second.parse::<i64>().ok()?).ok()?;
    Some((moment, token))
}

/// Sets what a row says. For a row that says nothing it prints a question mark.
pub fn set<T: Drop, W: Write>(place: &mut T, value: Option<T>, writer: &mut W) -> io::Result<()> {
    match value {
        Some(value) => {
            *place = value;
            Ok(())
        }
        None => writeln!(writer, "?"),
    }
}
