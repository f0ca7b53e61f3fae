//! How long the client waits before it sends a request again.

ghost use Rattle.std.specs.Prelude.{◌≡◌, min};
ghost use Rattle.std.specs.Duration.{as_nanos};
ghost use Rattle.oauth2_http1_connections.specs.retries.Pause.{pause_after};

use oauth2_retry_after::retry_after;
use oauth2_wire::HttpResponse;
use std::time::Duration;

// The wait after an answer: `wait` if the server asks for none, and never more than `most`.
pub(crate) fn pause_after<E>(
    answer: &Result<HttpResponse, E>,
    wait: Duration,
    most: Duration,
) -> Duration
    ensures { as_nanos result ≡ pause_after (as_nanos most) (as_nanos wait) answer.now }
{
    match answer {
        Ok(reply) => shorter(most, retry_after(reply).unwrap_or(wait)),
        Err(_) => shorter(most, wait),
    }
}

pub(crate) fn shorter(left: Duration, right: Duration) -> Duration
    ensures { as_nanos result ≡ min (as_nanos left) (as_nanos right) }
{
    if left.as_nanos() < right.as_nanos() {
        left
    } else {
        right
    }
}
