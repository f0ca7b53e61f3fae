//! What calls tell, as words.

use crate::piped_keeper::contents::content_text;
use crate::piped_keeper::parts::Silence;
use crate::piped_keeper::text_token::TextToken;
use oauth2_shared_keeper::{Held, LoggedIn, LoggedOut};
use std::alloc::Global;

// A word, and a token.
fn with_token(alloc: Global, word: &str, token: &TextToken) -> Option<String> {
    format!(in alloc; "{word} {}:{}", token.until, token.text).ok()
}

// A word, the name of a renewal, a version and a token.
fn with_mark(
    alloc: Global,
    word: &str,
    renewal: u128,
    version: u64,
    token: &TextToken,
) -> Option<String> {
    format!(in alloc; "{word} {renewal} {version} {}:{}", token.until, token.text).ok()
}

fn word(alloc: Global, text: &str) -> Option<String> {
    String::from_str(alloc, text).ok()
}

/// The words for what a keeper tells.
pub fn held_words(alloc: Global, held: Held<TextToken, Silence>) -> Option<String> {
    match held {
        Held::Good(token) => with_token(alloc, "good", &token),
        Held::Old {
            renewal,
            version,
            token,
        } => with_mark(alloc, "old", renewal, version, &token),
        Held::LoggedOut => word(alloc, "logged_out"),
        Held::Unkept {
            renewal,
            version,
            token,
        } => with_mark(alloc, "unkept", renewal, version, &token),
        Held::Unanswered {
            renewal,
            version,
            token,
            error: Silence,
        } => with_mark(alloc, "unanswered", renewal, version, &token),
        Held::Unclear {
            renewal,
            version,
            token,
        } => with_mark(alloc, "unclear", renewal, version, &token),
        Held::NoNextVersion(token) => with_token(alloc, "no_next_version", &token),
        Held::Unfinished {
            renewal,
            version,
            token,
        } => with_mark(alloc, "unfinished", renewal, version, &token),
        Held::InUse { renewal, token } => {
            format!(in alloc; "in_use {renewal} {}:{}", token.until, token.text).ok()
        }
        Held::Lost => word(alloc, "lost"),
        Held::Unread => word(alloc, "unread"),
    }
}

/// The words for what became of a login.
pub fn login_words(alloc: Global, told: LoggedIn<TextToken>) -> Option<String> {
    match told {
        LoggedIn::Done => word(alloc, "done"),
        LoggedIn::Refused(token) => with_token(alloc, "refused", &token),
        LoggedIn::Unclear { version, token } => {
            format!(in alloc; "unclear {version} {}:{}", token.until, token.text).ok()
        }
        LoggedIn::Unread(token) => with_token(alloc, "unread", &token),
        LoggedIn::NoNextVersion(token) => with_token(alloc, "no_next_version", &token),
    }
}

/// The words for what became of a logout.
pub fn logout_words(alloc: Global, told: LoggedOut<TextToken>) -> Option<String> {
    match told {
        LoggedOut::Done(content) => {
            let text = content_text(alloc, &content)?;
            format!(in alloc; "done {text}").ok()
        }
        LoggedOut::Refused => word(alloc, "refused"),
        LoggedOut::Unclear { version, content } => {
            let text = content_text(alloc, &content)?;
            format!(in alloc; "unclear {version} {text}").ok()
        }
        LoggedOut::Unread => word(alloc, "unread"),
        LoggedOut::NoNextVersion(content) => {
            let text = content_text(alloc, &content)?;
            format!(in alloc; "no_next_version {text}").ok()
        }
    }
}
