//! Bytes as words, and the request that a line is.

use crate::support::{add_field, request_with};
use http_header::HeaderMap;
use oauth2_wire::HttpRequest;
use std::alloc::Global;
use std::str::SplitWhitespace;

/// The bytes that a word is, if it is one of bytes.
pub fn bytes_of(alloc: Global, word: &str) -> Option<Vec<u8>> {
    if word == "-" {
        return Some(Vec::new(alloc));
    }
    hex::decode(alloc, word).ok()
}

/// The word for these bytes.
pub fn word_of(alloc: Global, bytes: &[u8]) -> Option<String> {
    if bytes.is_empty() {
        return String::from_str(alloc, "-").ok();
    }
    hex::encode(alloc, bytes).ok()
}

// The fields that the words are.
fn fields_of(alloc: Global, words: &mut SplitWhitespace<'_>) -> Option<HeaderMap> {
    let mut map = HeaderMap::new(alloc);
    while let Some(name) = words.next() {
        let bytes = bytes_of(alloc, words.next()?)?;
        add_field(alloc, &mut map, name, bytes.as_slice())?;
    }
    Some(map)
}

/// The request that the words of a line are.
pub fn request_of(alloc: Global, words: &mut SplitWhitespace<'_>) -> Option<HttpRequest> {
    let method = words.next()?;
    let target = words.next()?;
    let body = bytes_of(alloc, words.next()?)?;
    let headers = fields_of(alloc, words)?;
    request_with(alloc, method, target, headers, body)
}
