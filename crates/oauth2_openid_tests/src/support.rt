//! Makes tokens from the texts of their parts, and checks that tests call.

use base64::engine::general_purpose::URL_SAFE_NO_PAD;
use oauth2_openid::IdToken;
use std::fmt::{Debug, Display};
use std::process::Abort;

/// The token of OpenID Connect Core 1.0, appendix A.2.
pub(crate) const APPENDIX_A2: &str =
    "eyJraWQiOiIxZTlnZGs3IiwiYWxnIjoiUlMyNTYifQ.ewogImlzcyI6ICJodHRwOi8vc2VydmVyLmV4Y\
     W1wbGUuY29tIiwKICJzdWIiOiAiMjQ4Mjg5NzYxMDAxIiwKICJhdWQiOiAiczZCaGRSa3F0MyIsCiAib\
     m9uY2UiOiAibi0wUzZfV3pBMk1qIiwKICJleHAiOiAxMzExMjgxOTcwLAogImlhdCI6IDEzMTEyODA5N\
     zAsCiAibmFtZSI6ICJKYW5lIERvZSIsCiAiZ2l2ZW5fbmFtZSI6ICJKYW5lIiwKICJmYW1pbHlfbmFtZ\
     SI6ICJEb2UiLAogImdlbmRlciI6ICJmZW1hbGUiLAogImJpcnRoZGF0ZSI6ICIwMDAwLTEwLTMxIiwKI\
     CJlbWFpbCI6ICJqYW5lZG9lQGV4YW1wbGUuY29tIiwKICJwaWN0dXJlIjogImh0dHA6Ly9leGFtcGxlL\
     mNvbS9qYW5lZG9lL21lLmpwZyIKfQ.rHQjEmBqn9Jre0OLykYNnspA10Qql2rvx4FsD00jwlB0Sym4Nz\
     pgvPKsDjn_wMkHxcp6CilPcoKrWHcipR2iAjzLvDNAReF97zoJqq880ZD1bwY82JDauCXELVR9O6_B0w\
     3K-E7yM2macAAgNCUwtik6SjoSUZRcf-O5lygIyLENx882p6MtmwaL1hd6qn5RZOQ0TLrOYu0532g9Ex\
     xcm-ChymrB4xLykpDj3lUivJt63eEGGN6DH5K6o33TcxkIjNrCD4XB1CKKumZvCedgHHF3IAK4dVEDSU\
     oGlH9z4pP_eWYNXvqQOjGs-rDaQzUHl6cQQWNiDpWOl_lxXjQEvQ";

/// The access token of appendix A.3, whose hash is `77QmUPtjPfzWtF2AnpK9RQ`.
pub(crate) const ACCESS_TOKEN: &str = "jHkWEdUXMU1BwAsC4vtUsZwnNvTIxEl0z9K3vx5KF0Y";

/// Makes a text whose bytes proofs do not see, so that no proof computes its digest.
pub(crate) fn text(rt: &(impl Abort + AllocGlobal), text: &str) -> String {
    String::from_str(rt.alloc(), text).expect(rt, "a text")
}

fn encoded(rt: &(impl Abort + AllocGlobal), part: &str) -> String {
    URL_SAFE_NO_PAD
        .encode(rt.alloc(), part.as_bytes())
        .expect(rt, "a part")
}

/// The token of this header and these claims. Its signature is the text `sig`.
pub(crate) fn token(rt: &(impl Abort + AllocGlobal), header: &str, claims: &str) -> String {
    let header = encoded(rt, header);
    let claims = encoded(rt, claims);
    format!(in rt.alloc(); "{header}.{claims}.c2ln").expect(rt, "a token")
}

/// Reads a token, which has to be an ID token.
pub(crate) fn read(rt: &(impl Abort + AllocGlobal), token: &str) -> IdToken {
    IdToken::from_text(rt.alloc(), token)
        .ok()
        .expect(rt, "a token")
}

/// Checks that the two are equal. (A call is much cheaper to prove than the assertion itself.)
pub(crate) fn assert_equal<T: PartialEq + Debug + Drop>(rt: &impl Abort, found: T, expected: T) {
    assert_eq!(rt; found, expected);
}

/// Checks that the texts are equal.
pub(crate) fn assert_text(rt: &impl Abort, found: &str, expected: &str) {
    assert_eq!(rt; found, expected);
}

/// Checks that the texts are equal, for one row of a table.
pub(crate) fn assert_text_at(rt: &impl Abort, found: &str, expected: &str, row: &str) {
    assert_eq!(rt; found, expected, "at {row}");
}

/// Checks the text that the value prints by `{:?}`.
pub(crate) fn assert_debugged_as<T: Debug>(
    rt: &(impl Abort + AllocGlobal),
    value: &T,
    expected: &str,
) {
    let shown = format!(in rt.alloc(); "{value:?}").expect(rt, "a debug text");
    assert_text(rt, shown.as_str(), expected);
}

/// Checks the text that the value displays.
pub(crate) fn assert_displayed_as<T: Display>(
    rt: &(impl Abort + AllocGlobal),
    value: &T,
    expected: &str,
) {
    let shown = format!(in rt.alloc(); "{value}").expect(rt, "a text");
    assert_text(rt, shown.as_str(), expected);
}
