//! Laws: what a keeper keeps over many calls, and how long a patient keeper waits.

ghost use Rattle.oauth2_wire.specs.Once.{AsksOnce};
ghost use Rattle.oauth2_wire.specs.Reply.{answer_of};
ghost use Rattle.oauth2_keeper.specs.Keeper.{given_by};
ghost use Rattle.oauth2_keeper.specs.Patience.{
  EachPatientRunIsARun,
  EachRunOfAnyTypeIsARun,
  EachTokenIsUsable,
  EachOtherTypeIsWaitedFor,
  EachFailureIsWaitedFor,
  EachSetBackIsWaitedFor,
  EachEndIsWithinTheWait,
  EachWaitEnds,
  EachAskedWaitIsHeeded,
  EachWaitIsBounded,
  EachSentFaultCounts,
};
ghost use Rattle.oauth2_keeper.specs.Lends.{EachLendingRunIsARun};
ghost use Rattle.oauth2_keeper.specs.Runs.{EachRunKeepsTheLast, EachRunFollowsFromItsReplies};

use oauth2::{ErrorResponse, SyncHttpClient, TokenResponse};
use oauth2_retry_after::AsksToWait;

/// After any number of calls, the kept token is that of the last accepted reply, and the refresh
/// token that of the last accepted reply that has one. Until then, each is as before the calls.
#[tactic(auto, using(crate::proofs::RunLaws::keeps_the_last))]
pub fn each_run_keeps_the_last<C: SyncHttpClient, TE: ErrorResponse, TR: TokenResponse>()
    ensures { EachRunKeepsTheLast
        (λ rule. AsksOnce TR.meaning TE.meaning C.step (answer_of rule TR.reading TE.reading))
        (given_by TR.TokenType.writing TR.access_token TR.token_type TR.lifetime
        TR.refresh_token) }
{}

/// Which calls make a request, and so what is kept after each, depends only on what was kept at
/// first, the times of the calls and the replies to their requests.
#[tactic(auto, using(crate::proofs::RunLaws::is_its_replies))]
pub fn each_run_follows_from_its_replies<C: SyncHttpClient, TE: ErrorResponse, TR: TokenResponse>()
    ensures { EachRunFollowsFromItsReplies
        (λ rule. AsksOnce TR.meaning TE.meaning C.step (answer_of rule TR.reading TE.reading))
        (given_by TR.TokenType.writing TR.access_token TR.token_type TR.lifetime
        TR.refresh_token) }
{}

/// Calls of `lend_token` and of `token` are calls of a keeper at the same times, in order, so the
/// laws of a keeper hold for them. For a call of `token`, what is kept after it is what its contract
/// says can be.
#[tactic(auto, using(crate::proofs::LendingRuns::is_a_run))]
pub fn each_lending_run_is_a_run<C: SyncHttpClient, TE: ErrorResponse, TR: TokenResponse>()
    ensures { EachLendingRunIsARun
        (λ rule. AsksOnce TR.meaning TE.meaning C.step (answer_of rule TR.reading TE.reading))
        (given_by TR.TokenType.writing TR.access_token TR.token_type TR.lifetime
        TR.refresh_token) }
{}

/// The calls of a patient keeper that are not held back are calls of its keeper at the same times,
/// in order. Before the first and after each of them, a token that its caller can't use is
/// forgotten.
#[tactic(auto, using(crate::proofs::Patience::is_a_run))]
pub fn each_patient_run_is_a_run<C: SyncHttpClient, TE: ErrorResponse, TR: TokenResponse>()
where
    C::Error: AsksToWait,
    ensures { EachPatientRunIsARun
        (λ rule. AsksOnce TR.meaning TE.meaning C.step (answer_of rule TR.reading TE.reading))
        (given_by TR.TokenType.writing TR.access_token TR.token_type TR.lifetime
        TR.refresh_token) C.Error.asked_wait }
{}

/// For a caller that can use tokens of any type, none is forgotten, so the laws of a keeper hold for
/// the calls of a patient keeper that are not held back.
#[tactic(auto, using(crate::proofs::Patience::any_is_a_run))]
pub fn each_run_of_any_type_is_a_run<C: SyncHttpClient, TE: ErrorResponse, TR: TokenResponse>()
where
    C::Error: AsksToWait,
    ensures { EachRunOfAnyTypeIsARun
        (λ rule. AsksOnce TR.meaning TE.meaning C.step (answer_of rule TR.reading TE.reading))
        (given_by TR.TokenType.writing TR.access_token TR.token_type TR.lifetime
        TR.refresh_token) C.Error.asked_wait }
{}

/// After any number of calls of a patient keeper, one without an error leaves a token of a type that
/// its caller can use (RFC 6749, section 7.1): it came with a reply, or was stored, as such.
pub fn each_token_is_usable<C: SyncHttpClient, TE: ErrorResponse, TR: TokenResponse>()
where
    C::Error: AsksToWait,
    ensures { EachTokenIsUsable
        (λ rule. AsksOnce TR.meaning TE.meaning C.step (answer_of rule TR.reading TE.reading))
        (given_by TR.TokenType.writing TR.access_token TR.token_type TR.lifetime
        TR.refresh_token) C.Error.asked_wait }
{}

/// After a failed request, and after a reply with a token that its caller can't use, a patient
/// keeper makes no request before the wait has passed. The wait
/// begins at that request or, if the clock was set back to before it, at the first call after that.
pub fn each_failure_is_waited_for<C: SyncHttpClient, TE: ErrorResponse, TR: TokenResponse>()
where
    C::Error: AsksToWait,
    ensures waits { EachFailureIsWaitedFor
        (λ rule. AsksOnce TR.meaning TE.meaning C.step (answer_of rule TR.reading TE.reading))
        (given_by TR.TokenType.writing TR.access_token TR.token_type TR.lifetime
        TR.refresh_token) C.Error.asked_wait }
    ensures other_type { EachOtherTypeIsWaitedFor
        (λ rule. AsksOnce TR.meaning TE.meaning C.step (answer_of rule TR.reading TE.reading))
        (given_by TR.TokenType.writing TR.access_token TR.token_type TR.lifetime
        TR.refresh_token) C.Error.asked_wait }
    ensures set_back { EachSetBackIsWaitedFor
        (λ rule. AsksOnce TR.meaning TE.meaning C.step (answer_of rule TR.reading TE.reading))
        (given_by TR.TokenType.writing TR.access_token TR.token_type TR.lifetime
        TR.refresh_token) C.Error.asked_wait }
{}

/// However the clock is set, a patient keeper is never held back for longer than one wait from the
/// moment at which it is called.
pub fn each_wait_ends<C: SyncHttpClient, TE: ErrorResponse, TR: TokenResponse>()
where
    C::Error: AsksToWait,
    ensures told { EachEndIsWithinTheWait
        (λ rule. AsksOnce TR.meaning TE.meaning C.step (answer_of rule TR.reading TE.reading))
        (given_by TR.TokenType.writing TR.access_token TR.token_type TR.lifetime
        TR.refresh_token) C.Error.asked_wait }
    ensures ends { EachWaitEnds
        (λ rule. AsksOnce TR.meaning TE.meaning C.step (answer_of rule TR.reading TE.reading))
        (given_by TR.TokenType.writing TR.access_token TR.token_type TR.lifetime
        TR.refresh_token) C.Error.asked_wait }
{}

/// After a failed request whose error tells a wait that the server asks for, a patient keeper makes
/// no request before that wait, or the greatest that it heeds, has passed.
pub fn each_asked_wait_is_heeded<C: SyncHttpClient, TE: ErrorResponse, TR: TokenResponse>()
where
    C::Error: AsksToWait,
    ensures { EachAskedWaitIsHeeded
        (λ rule. AsksOnce TR.meaning TE.meaning C.step (answer_of rule TR.reading TE.reading))
        (given_by TR.TokenType.writing TR.access_token TR.token_type TR.lifetime
        TR.refresh_token) C.Error.asked_wait }
{}

/// A patient keeper never waits for less than the wait of `set_retry_after`, and never for more
/// than that and the greatest wait that it heeds.
#[tactic(auto, using(crate::proofs::AskedWaits::bounded))]
pub fn each_wait_is_bounded<C: SyncHttpClient, TE: ErrorResponse, TR: TokenResponse>()
where
    C::Error: AsksToWait,
    ensures { EachWaitIsBounded
        (λ rule. AsksOnce TR.meaning TE.meaning C.step (answer_of rule TR.reading TE.reading))
        (given_by TR.TokenType.writing TR.access_token TR.token_type TR.lifetime
        TR.refresh_token) C.Error.asked_wait }
{}

/// An error of a request begins a wait exactly if the HTTP client was called.
pub fn each_sent_fault_counts<C: SyncHttpClient, TE: ErrorResponse, TR: TokenResponse>()
    ensures { EachSentFaultCounts
        (λ rule. AsksOnce TR.meaning TE.meaning C.step (answer_of rule TR.reading TE.reading))
        C.step }
{}
