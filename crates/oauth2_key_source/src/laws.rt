//! What a source does over many calls.

ghost use Rattle.std.specs.Prelude.{[], ◌∷◌, option_copied};
ghost use Rattle.oauth2_key_source.specs.Request.{AsksForKeys};
ghost use Rattle.oauth2_key_source.specs.Runs.{
  EachEndIsWithinTheWait,
  EachFloodAsksOnce,
  EachOtherCallSendsNothing,
  EachTwoRequestsAreApart,
  SourceRuns,
  call_at,
};

use crate::key_source::KeySource;
use crate::source_error::KeySourceError;
use jiff::Timestamp;
use oauth2_codes::BasicErrorResponse;
use oauth2_json::FromJson;
use oauth2_wire::SyncHttpClient;
use std::alloc::Global;

/// In whatever calls, of any two requests the second comes at least the wait after the first; where
/// the clock was set back between them, at least the wait after the earliest call since.
pub fn each_two_requests_are_apart<C: SyncHttpClient>()
    ensures { EachTwoRequestsAreApart
        (AsksForKeys ⟦<BasicErrorResponse as FromJson>⟧.meaning C.step) }
{}

/// After a request, whatever calls come before the wait has passed, for whatever keys, send nothing
/// and change nothing.
pub fn each_flood_asks_once<C: SyncHttpClient>()
    ensures { EachFloodAsksOnce
        (AsksForKeys ⟦<BasicErrorResponse as FromJson>⟧.meaning C.step) }
{}

/// A call for which no request is due sends nothing.
#[tactic(auto, using(crate::proofs::RunLaws::sends_nothing))]
pub fn each_other_call_sends_nothing<C: SyncHttpClient>()
    ensures { EachOtherCallSendsNothing
        (AsksForKeys ⟦<BasicErrorResponse as FromJson>⟧.meaning C.step) }
{}

/// However the clock is set, no call is told to wait for longer than one wait from its own moment.
#[tactic(auto, using(crate::proofs::RunLaws::ends_within))]
pub fn each_end_is_within_the_wait<C: SyncHttpClient>()
    ensures { EachEndIsWithinTheWait
        (AsksForKeys ⟦<BasicErrorResponse as FromJson>⟧.meaning C.step) }
{}

/// A call of `lend_keys`, after which the set was given back, is a call as those of the other laws:
/// they hold of calls of `keep_keys`, `verify` and `lend_keys`, in whatever order.
#[tactic(auto, using(crate::proofs::Lent::is_a_run))]
pub fn lent_keys_are_a_call<C: SyncHttpClient>(
    source: &mut KeySource,
    alloc: Global,
    key_id: Option<&str>,
    now: Timestamp,
    http_client: &mut C,
    fault: &mut Option<KeySourceError<C::Error>>,
) -> bool
    requires { C.is_ready http_client.old }
    ensures { let call = call_at source.old (option_copied key_id.entry) now.nanosecond in
        SourceRuns (AsksForKeys ⟦<BasicErrorResponse as FromJson>⟧.meaning C.step)
        source.old http_client.old (call ∷ []) http_client.new source.new }
{
    source
        .lend_keys(alloc, key_id, now, http_client, fault)
        .is_some()
}
