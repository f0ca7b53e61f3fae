//! Laws of every poll, whatever runs it.

ghost use Rattle.oauth2_poll.specs.Laws.{EachEndingIsTheOnlyOne, EachSleepIsPaced};
ghost use Rattle.oauth2_poll.specs.Laws.{RequestsAreBounded};

/// A poll has only one ending, in one round: its settings, clock readings and answers determine it.
pub fn ending_is_the_only_one()
    ensures { EachEndingIsTheOnlyOne }
{}

/// Each sleep is within its bounds, even if the poll is cut short after it.
pub fn sleeps_are_paced()
    ensures { EachSleepIsPaced }
{}

/// If the clock advances at least as long as the poll slept, the intervals and slow-downs before
/// the last request fit the timeout.
pub fn requests_are_bounded()
    ensures { RequestsAreBounded }
{}
