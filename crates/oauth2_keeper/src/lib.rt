//! The keeper of a client's access token: it hands out the token that it has while that is good,
//! and else requests another from the token endpoint (RFC 6749, sections 4.4 and 6).

#![tactic(auto)]

mod kept_token;
mod kept_tokens;
mod laws;
mod params;
mod patient_keeper;
mod refresh_source;
mod renewal_times;
mod scopes;
mod token_keeper;
pub mod token_types;
mod waits;

pub use laws::{
    each_asked_wait_is_heeded, each_failure_is_waited_for, each_lending_run_is_a_run,
    each_patient_run_is_a_run, each_run_follows_from_its_replies, each_run_keeps_the_last,
    each_run_of_any_type_is_a_run, each_sent_fault_counts, each_token_is_usable, each_wait_ends,
    each_wait_is_bounded,
};
pub use patient_keeper::{BasicPatientKeeper, PatientError, PatientKeeper};
pub use renewal_times::RenewalTimes;
pub use token_keeper::{BasicTokenKeeper, TokenKeeper};
