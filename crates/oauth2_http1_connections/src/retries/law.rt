//! Laws about the requests that are sent.

ghost use Rattle.oauth2_http1_connections.specs.retries.Laws.{EachCopyIsTheRequest, EachOtherRequestIsSentOnce};
ghost use Rattle.oauth2_http1_connections.specs.retries.Laws.{EachUnsentErrorOpenedNothing};

use crate::retries::sleeping_client::SleepingClient;
use crate::retries::tells_unsent::TellsUnsent;
use oauth2_http1::Connect;

/// Nothing of a request that is not a GET was sent before the last call: the error of each earlier
/// call says so.
pub fn each_other_request_is_sent_once<C>()
where
    C: SleepingClient,
    C::Error: TellsUnsent,
    ensures { EachOtherRequestIsSentOnce C.step C.sleeps C.Error.unsent }
{}

/// A copy that is sent in place of a request is the request of the same configuration.
pub fn each_copy_is_the_request()
    ensures { EachCopyIsTheRequest }
{}

/// If the error of an HTTP/1.1 client says that nothing was sent, no connection was opened.
pub fn each_unsent_error_opened_nothing<C: Connect>()
    ensures { EachUnsentErrorOpenedNothing C.opens C.Stream.contents C.Stream.remaining
        C.Stream.reads C.Stream.writes C.Stream.flushes }
{}
