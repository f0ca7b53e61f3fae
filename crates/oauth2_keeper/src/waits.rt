//! How long a keeper waits after a failed request, by what the server asks for.

ghost use Rattle.std.specs.Prelude.{◌≡◌, min, max, option_map};
ghost use Rattle.std.specs.Duration.{as_nanos};
ghost use Rattle.oauth2_keeper.specs.Patience.{wait_asked_by, wait_in_force};

use oauth2::RequestTokenError;
use oauth2_retry_after::AsksToWait;
use std::time::Duration;

// The wait that the server asks for, if the error of the HTTP client tells one.
pub(crate) fn asked_wait<RE: AsksToWait, TE>(error: &RequestTokenError<RE, TE>) -> Option<Duration>
    ensures { option_map as_nanos result ≡ wait_asked_by RE.asked_wait error.now }
{
    match error {
        RequestTokenError::Request(error) => error.asked_wait(),
        RequestTokenError::ServerResponse(_)
        | RequestTokenError::Parse(_, _)
        | RequestTokenError::Other(_)
        | RequestTokenError::Memory { .. } => None,
    }
}

// How long a keeper waits: `asked`, but no longer than `most`, and no shorter than `least`.
pub(crate) fn wait_in_force(least: Duration, most: Duration, asked: Option<Duration>) -> Duration
    ensures { as_nanos result
        ≡ wait_in_force (as_nanos least) (as_nanos most) (option_map as_nanos asked) }
{
    match asked {
        Some(asked) => longer(least, shorter(most, asked)),
        None => least,
    }
}

fn longer(left: Duration, right: Duration) -> Duration
    ensures { as_nanos result ≡ max (as_nanos left) (as_nanos right) }
{
    if left.as_nanos() < right.as_nanos() {
        right
    } else {
        left
    }
}

fn shorter(left: Duration, right: Duration) -> Duration
    ensures { as_nanos result ≡ min (as_nanos left) (as_nanos right) }
{
    if left.as_nanos() < right.as_nanos() {
        left
    } else {
        right
    }
}
