//! The rules that all JSON Web Tokens share, for this crate and those that read other kinds of them.

ghost use Rattle.std.specs.Prelude.{◌≡◌, ◌+ℤ◌, ℤ, pos, option_copied, option_map};
ghost use Rattle.std.specs.Duration.{as_nanos};
ghost use Rattle.std.specs.Result.{result_ok};
ghost use Rattle.serde_json.specs.View.{view, number_view};
ghost use Rattle.oauth2_openid.specs.Kinds.{
  has_started,
  is_by,
  is_encoded,
  is_plain,
  names_plain,
  takes_plain,
};
ghost use Rattle.oauth2_openid.specs.Times.{number_time};

use crate::numeric_date::moment_of;
use jiff::Timestamp;
use oauth2_times::nanosecond_after;
use serde_json::{Number, Value};
use std::time::Duration;

/// Whether a type is that of any JSON Web Token: `JWT` or `application/jwt`, in any case of letters
/// (RFC 7519, 5.1; RFC 7515, 4.1.9).
pub fn names_plain(token_type: &str) -> bool
    ensures { result ≡ names_plain token_type.now }
{
    token_type.eq_ignore_ascii_case("jwt") || token_type.eq_ignore_ascii_case("application/jwt")
}

fn is_plain(token_type: Option<&str>) -> bool
    ensures { result ≡ is_plain (option_copied token_type.entry) }
{
    match token_type {
        Some(token_type) => names_plain(token_type),
        None => false,
    }
}

/// Whether a header with this member `typ`, or with none, names no other kind of token (RFC 8725,
/// 3.11). A type has to be a string.
pub fn takes_plain(token_type: Option<&Value>) -> bool
    ensures { result ≡ takes_plain (option_map (λ v. view v.now) token_type.entry) }
{
    match token_type {
        Some(token_type) => is_plain(token_type.as_str()),
        None => true,
    }
}

/// Whether the payload is encoded by this member `b64` of the header (RFC 7797, 3): it is `true`, or
/// absent.
pub fn is_encoded(b64: Option<&Value>) -> bool
    ensures { result ≡ is_encoded (option_map (λ v. view v.now) b64.entry) }
{
    match b64 {
        None => true,
        Some(Value::Bool(is_encoded)) => *is_encoded,
        Some(_) => false,
    }
}

// Whether that many seconds after 1970 are not after `now` plus the leeway.
fn is_by(seconds: &Number, now: Timestamp, leeway: Duration) -> bool
    ensures { result ≡ is_by (now.nanosecond +ℤ pos (as_nanos leeway))
        (result_ok (number_time (number_view seconds.now))) }
{
    match moment_of(seconds) {
        Some(start) => start.as_nanosecond() <= nanosecond_after(now, leeway),
        None => false,
    }
}

/// Whether this claim `nbf` lets a token be used at the moment `now` (RFC 7519, 4.1.5): it is absent,
/// null, or a time that is not after `now` plus the leeway. A value that is no time does not.
pub fn has_started(start: Option<&Value>, now: Timestamp, leeway: Duration) -> bool
    ensures { result ≡ has_started (now.nanosecond +ℤ pos (as_nanos leeway))
        (option_map (λ v. view v.now) start.entry) }
{
    match start {
        None | Some(Value::Null) => true,
        Some(Value::Number(seconds)) => is_by(seconds, now, leeway),
        Some(_) => false,
    }
}
