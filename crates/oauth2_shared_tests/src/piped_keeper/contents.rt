//! What a version holds, as words.

use crate::piped_keeper::text_token::TextToken;
use oauth2_shared_keeper::{Content, StoredValue};
use std::alloc::Global;
use std::str::SplitWhitespace;

/// The words of a content.
pub fn content_text(alloc: Global, content: &Content<TextToken>) -> Option<String> {
    match content {
        Content::AtRest(token) => { format!(in alloc; "rest {}:{}", token.until, token.text).ok() }
        Content::Marked(token, renewal) => {
            format!(in alloc; "mark {renewal} {}:{}", token.until, token.text).ok()
        }
        Content::Empty => String::from_str(alloc, "none").ok(),
    }
}

fn read_content(alloc: Global, words: &mut SplitWhitespace<'_>) -> Option<Content<TextToken>> {
    match words.next()? {
        "rest" => Some(Content::AtRest(TextToken::read(alloc, words.next()?)?)),
        "mark" => {
            let renewal = words.next()?.parse::<u128>().ok()?;
            Some(Content::Marked(TextToken::read(alloc, words.next()?)?, renewal))
        }
        "none" => Some(Content::Empty),
        _ => None,
    }
}

/// The value that a line is, if it is one.
pub fn read_value(alloc: Global, line: &str) -> Option<StoredValue<TextToken>> {
    let mut words = line.split_whitespace();
    let version = words.next()?.parse::<u64>().ok()?;
    let content = read_content(alloc, &mut words)?;
    Some(StoredValue { version, content })
}
