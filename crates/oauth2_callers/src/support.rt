//! Functions that several test files share.

use oauth2::HttpResponse;
use oauth2::http::response::Parts;
use oauth2::http::{Response, StatusCode};
use std::fmt::Debug;
use std::process::Abort;

/// Makes a text with no contract, so that no proof computes its digest or parses it.
pub fn text(rt: &(impl Abort + AllocGlobal), text: &str) -> String {
    String::from_str(rt.alloc(), text).expect(rt, "a text")
}

/// Asserts that the two are equal. A call of this costs a proof far less than `assert_eq!`.
pub fn assert_equal<T: PartialEq + Debug + Drop>(rt: &impl Abort, found: T, wanted: T) {
    assert_eq!(rt; found, wanted);
}

/// Asserts that the two texts are equal.
pub fn assert_text(rt: &impl Abort, found: &str, wanted: &str) {
    assert_eq!(rt; found, wanted);
}

/// A reply with this status and body.
pub fn reply(rt: &(impl Abort + AllocGlobal), status: u16, body: &str) -> HttpResponse {
    let mut head = Parts::new(rt.alloc());
    head.status = StatusCode::from_u16(status).expect(rt, "a status");
    let body = body.as_bytes().to_vec(rt.alloc()).expect(rt, "a body");
    Response::from_parts(head, body)
}
