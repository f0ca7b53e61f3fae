//! The laws of logins: over all redirects that may arrive, and any number of servers, of which some
//! may be an attacker's, each code goes to the server of its login, at most once.

#![tactic(auto)]

mod laws;

pub use laws::{
    each_answer_is_taken, each_code_goes_to_its_server, each_finish_is_an_event,
    each_login_asks_once, each_login_finishes_once, each_request_has_its_number,
    each_request_is_its_logins, each_state_names_one_login, each_token_answers_its_request,
    ended_login_is_not_used, nothing_is_sent_for_others,
};
