//! Laws of a shared token, for any number of renewals and any order of what they do.

ghost use Rattle.oauth2_shared_token.specs.Fleet.{
  EachFleetRuns,
  EachFleetSendsOnce,
  EachHandedOutWasStored,
};
ghost use Rattle.oauth2_shared_token.specs.Laws.{
  EachIsSentAtMostOnce,
  EachLogoutHolds,
  EachReadWasStored,
  EachSendingWasStored,
  NoneIsLostUntold,
  OneRunsAtOnce,
  TheNewestGivenIsStored,
  WhatIsStoredIsTheNewest,
};
ghost use Rattle.oauth2_shared_token.specs.Lease.{NoLeaseEndsEarly};
ghost use Rattle.oauth2_shared_token.specs.Names.{
  EachIsSentOnceOverNames,
  EachNameRuns,
  EachSendingOverNamesWasStored,
};
ghost use Rattle.oauth2_shared_token.specs.Renewal.{
  EachStepCanHappen,
  EachStepIsKnown,
  WhatIsKnownStays,
};

/// A refresh token is sent no more often than it was stored.
pub fn sendings_were_stored()
    ensures { EachSendingWasStored }
{}

/// One that came to be stored once is sent at most once.
pub fn each_is_sent_at_most_once()
    ensures { EachIsSentAtMostOnce }
{}

/// What is stored is the last that was kept, signed in, allowed or logged in, or none after a
/// logout.
pub fn what_is_stored_is_the_newest()
    ensures { WhatIsStoredIsTheNewest }
{}

/// A token that the server gave to a renewal was stored, or the mark of that renewal is still in
/// the store, or a caller replaced the mark: by a login, by allowing the old token, or by a logout.
pub fn none_is_lost_untold()
    ensures { NoneIsLostUntold }
{}

/// If no caller replaced the mark of a renewal to which the server gave a token, what is at rest is
/// the newest token that anybody was given.
pub fn the_newest_given_is_stored()
    ensures { TheNewestGivenIsStored }
{}

/// Each step of a renewal is an event that can happen, where what it is told is so.
pub fn each_step_can_happen()
    ensures { EachStepCanHappen }
{}

/// What a renewal knows of itself is so after each of its steps.
pub fn each_step_is_known()
    ensures { EachStepIsKnown }
{}

/// What a renewal knows of itself stays so, whatever the other renewals and the store do.
pub fn what_is_known_stays()
    ensures { WhatIsKnownStays }
{}

/// Whatever happens in a fleet of renewals, its events are a finished run, so that all laws hold of
/// them.
pub fn each_fleet_runs()
    ensures { EachFleetRuns }
{}

/// So the machines of a fleet send a refresh token that came to be stored once at most once.
pub fn each_fleet_sends_once()
    ensures { EachFleetSendsOnce }
{}

/// Whatever a load shows, its token came to be stored before.
pub fn each_read_was_stored()
    ensures { EachReadWasStored }
{}

/// So each token that a machine of a fleet hands out came to be stored before.
pub fn each_handed_out_was_stored()
    ensures { EachHandedOutWasStored }
{}

/// After somebody logged out nothing is stored until somebody logs in.
pub fn each_logout_holds()
    ensures { EachLogoutHolds }
{}

/// Two renewals wait for the server at once only if a caller replaced the mark of one of them: by a
/// login, by allowing the old token, or by a logout.
pub fn one_runs_at_once()
    ensures { OneRunsAtOnce }
{}

/// A mark that is overdue by one clock is past its end by the clock of the renewal that wrote it.
pub fn no_lease_ends_early()
    ensures { NoLeaseEndsEarly }
{}

/// Of a store with a value under each of many names, what happens under one name is a run of its
/// fleet, whatever happens under the others.
pub fn each_name_runs()
    ensures { EachNameRuns }
{}

/// A refresh token is sent no more often, over all names, than it was stored under any of them.
pub fn sendings_over_names_were_stored()
    ensures { EachSendingOverNamesWasStored }
{}

/// So one that came to be stored once, under one name, is sent at most once over all names.
pub fn each_is_sent_once_over_names()
    ensures { EachIsSentOnceOverNames }
{}
