//! A token that many processes share through a store, so that each refresh token is sent once (RFC
//! 6749, 10.4; RFC 9700, 4.14.2).

#![tactic(auto)]

mod laws;
mod renewal;

pub use laws::{
    each_fleet_runs, each_fleet_sends_once, each_handed_out_was_stored, each_is_sent_at_most_once,
    each_is_sent_once_over_names, each_logout_holds, each_name_runs, each_read_was_stored,
    each_step_can_happen, each_step_is_known, no_lease_ends_early, none_is_lost_untold,
    one_runs_at_once, sendings_over_names_were_stored, sendings_were_stored,
    the_newest_given_is_stored, what_is_known_stays, what_is_stored_is_the_newest,
};
pub use renewal::{Content, Learnt, Phase, Step, StoredValue, Told, Turn, next_turn, read_again};
