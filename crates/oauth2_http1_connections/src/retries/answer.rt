//! After which answers a request is sent again.

ghost use Rattle.std.specs.Prelude.{◌≡◌};
ghost use Rattle.oauth2_http1_connections.specs.retries.Answers.{is_repeatable};

use crate::retries::tells_unsent::TellsUnsent;
use oauth2_retry_after::is_busy;
use oauth2_wire::HttpResponse;

// Whether a request with this method is sent again after this answer.
pub(crate) fn is_repeatable<E: TellsUnsent>(method: &str, answer: &Result<HttpResponse, E>) -> bool
    ensures { result ≡ is_repeatable E.unsent method.now answer.now }
{
    match answer {
        Ok(reply) => method == "GET" && is_busy(reply),
        Err(error) => method == "GET" || error.is_unsent(),
    }
}
