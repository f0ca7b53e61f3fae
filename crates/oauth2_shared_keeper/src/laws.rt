//! Laws of one renewal, and of a keeper.

ghost use Rattle.oauth2_shared_keeper.specs.Fleets.{EachRefreshIsOfTheFleet};
ghost use Rattle.oauth2_shared_keeper.specs.Fleets.{EachRefreshTokenIsSentOnce};
ghost use Rattle.oauth2_shared_keeper.specs.KeeperLaws.{EachCallIsOfItsRounds};
ghost use Rattle.oauth2_shared_keeper.specs.KeeperLaws.{EachCallSendsOnce, EachCallSleepsLittle};
ghost use Rattle.oauth2_shared_keeper.specs.KeeperLaws.{EachGoodIsGood, EachOldIsGood};
ghost use Rattle.oauth2_shared_keeper.specs.KeeperLaws.{EachSendingIsOfARenewal};
ghost use Rattle.oauth2_shared_keeper.specs.KeeperLaws.{EachUnfinishedWasWaitedFor};
ghost use Rattle.oauth2_shared_keeper.specs.KeeperLaws.{NoGivenIsLost};
ghost use Rattle.oauth2_shared_keeper.specs.Laws.{EachGivenIsHandedOver, EachRenewalSendsOnce};
ghost use Rattle.oauth2_shared_keeper.specs.Laws.{EachSendingIsMarked};
ghost use Rattle.oauth2_shared_keeper.specs.Stores.{EachStoreHasAFleet};
ghost use Rattle.oauth2_shared_keeper.specs.Stores.{EachTokenOfAStoreIsSentOnce};

/// A renewal sends one refresh token at most, and that once.
pub fn each_renewal_sends_once<T, E>()
    ensures { EachRenewalSendsOnce T E }
{}

/// It sends that of a token that a load showed at rest, and whose mark was taken.
pub fn each_sending_is_marked<T, E>()
    ensures { EachSendingIsMarked T E }
{}

/// A token that the server gave is handed to the caller, whether the store keeps it or not.
pub fn each_given_is_handed_over<T, E>()
    ensures { EachGivenIsHandedOver T E }
{}

/// Of renewals over one store, each call that sends a refresh token is a sending of a fleet of
/// `oauth2_shared_token`, so that its laws hold of them.
pub fn each_refresh_is_of_the_fleet<T>()
    ensures { EachRefreshIsOfTheFleet T }
{}

/// So the calls of all renewals send a refresh token that came to be stored once at most once.
pub fn each_refresh_token_is_sent_once<T>()
    ensures { EachRefreshTokenIsSentOnce T }
{}

/// Renewals over any store that puts something only in the place of the version that it has, and
/// tells only what was stored, are such a fleet. It may do what it was asked late, again or never,
/// its replies may be lost, loads may show old values, and renewals may stop anywhere.
#[tactic(auto, using(crate::proofs::StoreRuns::each_store_has_a_fleet))]
pub fn each_store_has_a_fleet<T>()
    ensures { EachStoreHasAFleet T }
{}

/// So all renewals over a store send a refresh token that was put there once at most once.
#[tactic(auto, using(crate::proofs::StoreRuns::each_token_of_a_store_is_sent_once))]
pub fn each_token_of_a_store_is_sent_once<T>()
    ensures { EachTokenOfAStoreIsSentOnce T }
{}

/// The calls of a keeper, in order, are those of its rounds to the store and the client, and those
/// to the world, of which the laws below speak.
pub fn each_call_is_of_its_rounds<T, E>()
    ensures { EachCallIsOfItsRounds T E }
{}

/// A call of a keeper sends one refresh token at most, and that once. It begins at most one
/// renewal in each round.
pub fn each_call_sends_once<T, E>()
    ensures { EachCallSendsOnce T E }
{}

/// It sends each in a renewal of a name that it drew.
pub fn each_sending_is_of_a_renewal<T, E>()
    ensures { EachSendingIsOfARenewal T E }
{}

/// A token that a keeper hands out as good was at rest and good when the clock was read, or the
/// server gave it in that round and the store keeps it.
pub fn each_good_is_good<T, E>()
    ensures { EachGoodIsGood T E }
{}

/// A token that a keeper hands out as an old one was marked by the renewal that it tells, and was
/// good for `old_margin` when the clock was read.
pub fn each_old_is_good<T, E>()
    ensures { EachOldIsGood T E }
{}

/// A token that is told as unfinished was marked by the renewal that it tells, and not good for
/// `old_margin`, when the clock was read for the last time. That was after all rounds: where the
/// clock goes on and sleeps take their time, no earlier than `wait` for each round but one after
/// the call.
pub fn each_unfinished_was_waited_for<T, E>()
    ensures { EachUnfinishedWasWaitedFor T E }
{}

/// The sleeps of a call are together at most `wait` for each round but one.
pub fn each_call_sleeps_little<T, E>()
    ensures { EachCallSleepsLittle T E }
{}

/// A token that the server gave in any round is handed to the caller.
pub fn no_given_is_lost<T, E>()
    ensures { NoGivenIsLost T E }
{}
