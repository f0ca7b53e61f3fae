//! Reads what a busy server asks for.

ghost use Rattle.std.specs.Prelude.{◌≡◌, IsTrue, option_map};
ghost use Rattle.std.specs.Char.{is_ascii_digit};
ghost use Rattle.std.specs.Duration.{as_nanos};
ghost use Rattle.std.specs.List.{list_all};
ghost use Rattle.std.specs.Str.Parse.{digits_value};
ghost use Rattle.http.specs.Response.{head_of};
ghost use Rattle.oauth2_retry_after.specs.RetryAfter.{
  is_busy,
  is_delay,
  delay_seconds,
  nanoseconds_of,
  asked_wait,
};

use http_header::{HeaderValue, RETRY_AFTER};
use oauth2_wire::HttpResponse;
use std::time::Duration;

/// Whether a reply asks the client to try again later: its status is 429 (RFC 6585, section 4) or
/// 503 (RFC 9110, section 15.6.4).
pub fn is_busy(reply: &HttpResponse) -> bool
    ensures { result ≡ is_busy (head_of reply.now).status }
{
    let status = reply.status().as_u16();
    status == 429 || status == 503
}

/// The wait that the first Retry-After of a reply asks for in seconds (RFC 9110, section 10.2.3).
/// If that is longer than any `Duration`, it is `Duration::MAX`. `None` if there is no Retry-After,
/// or if it is a date.
pub fn retry_after(reply: &HttpResponse) -> Option<Duration>
    ensures { option_map as_nanos result ≡ asked_wait reply.now }
{
    match reply.headers().get(RETRY_AFTER) {
        Some(value) => delay(value),
        None => None,
    }
}

// The wait that a Retry-After with this value asks for in seconds.
fn delay(value: &HeaderValue) -> Option<Duration>
    ensures { option_map as_nanos result
        ≡ option_map nanoseconds_of (delay_seconds value.now.bytes) }
{
    match value.to_str() {
        Ok(text) => if is_delay(text) {
            Some(duration_of(text))
        } else {
            None
        },
        Err(_) => None,
    }
}

fn is_delay(text: &str) -> bool
    ensures { result ≡ is_delay text.now }
{
    !text.is_empty() && are_digits(text)
}

fn are_digits(text: &str) -> bool
    ensures { result ≡ list_all is_ascii_digit text.now }
{
    text.as_bytes().iter().all(|b| b.is_ascii_digit())
}

// The time of so many seconds, or the longest `Duration` if that is less.
fn duration_of(seconds: &str) -> Duration
    requires { IsTrue (is_delay seconds.now) }
    ensures { as_nanos result ≡ nanoseconds_of (digits_value 10 seconds.now) }
{
    match seconds.parse::<u64>() {
        Ok(seconds) => Duration::from_secs(seconds),
        Err(_) => Duration::MAX,
    }
}
