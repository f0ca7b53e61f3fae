//! Tests of an application that defines its own HTTP client and error, and reads a member of the
//! reply that the standard does not name.

use crate::application::canned_id_token;
use crate::support::{assert_equal, reply, text};
use std::process::Abort;

// Asserts that the application returns this `id_token` for a reply with this body.
fn assert_id_token(rt: &(impl Abort + AllocGlobal), body: &str, wanted: Option<&str>) {
    let url = text(rt, "https://example.com/token");
    let answer = canned_id_token(rt.alloc(), url, text(rt, "ccc"), reply(rt, 200, body));
    let id_token = answer.expect(rt, "an answer");
    assert_equal(rt, id_token.as_deref(), wanted);
}

#[test]
fn id_token_of_a_reply(rt: HostRuntime) {
    let body = r#"{"access_token":"a","token_type":"bearer","id_token":"x.y.z"}"#;
    assert_id_token(&rt, body, Some("x.y.z"));
}

#[test]
fn no_id_token_in_a_reply(rt: HostRuntime) {
    assert_id_token(&rt, r#"{"access_token":"a","token_type":"bearer"}"#, None);
}
