//! What a call returned, as words.

use crate::piped_client::words::word_of;
use http_header::CONTENT_TYPE;
use oauth2_http1_connections::KeepAliveError;
use oauth2_wire::HttpResponse;
use std::alloc::Global;
use std::io;

// The status, the body, and the first Content-Type.
fn reply_words(alloc: Global, reply: &HttpResponse) -> Option<String> {
    let status = reply.status().as_u16();
    let body = word_of(alloc, reply.body().as_slice())?;
    match reply.headers().get(CONTENT_TYPE) {
        Some(value) => {
            let kind = word_of(alloc, value.as_bytes())?;
            format!(in alloc; "reply {status} {body} {kind}").ok()
        }
        None => format!(in alloc; "reply {status} {body}").ok(),
    }
}

/// The words for what a call returned.
pub fn result_words(
    alloc: Global,
    answer: Result<HttpResponse, KeepAliveError<io::Error>>,
) -> Option<String> {
    match answer {
        Ok(reply) => reply_words(alloc, &reply),
        Err(KeepAliveError::Http1(error)) => format!(in alloc; "failed {error}").ok(),
        Err(
            KeepAliveError::Unanswered {
                error,
                may_be_sent_again,
            },
        ) => format!(in alloc; "unanswered {may_be_sent_again} {error}").ok(),
    }
}
