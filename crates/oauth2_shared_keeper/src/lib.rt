//! A keeper of a token that many processes share, and one renewal of it: the machine of
//! `oauth2_shared_token`, over a store and a client of the caller (RFC 6749, 6; RFC 9700, 4.14.2).

#![tactic(auto)]

mod calls;
mod client;
mod held;
mod laws;
mod limits;
mod logged_in;
mod logins;
mod marking;
mod outcome;
mod renewal;
mod renewed;
mod replaced;
mod settings;
mod shared_keeper;
mod shared_token;
mod store;
mod store_and_world;
mod timed_store;
mod world;

pub use client::RefreshClient;
pub use held::Held;
pub use laws::{
    each_call_is_of_its_rounds, each_call_sends_once, each_call_sleeps_little,
    each_given_is_handed_over, each_good_is_good, each_old_is_good, each_refresh_is_of_the_fleet,
    each_refresh_token_is_sent_once, each_renewal_sends_once, each_sending_is_marked,
    each_sending_is_of_a_renewal, each_store_has_a_fleet, each_token_of_a_store_is_sent_once,
    each_unfinished_was_waited_for, no_given_is_lost,
};
pub use limits::Limits;
pub use logged_in::{LoggedIn, LoggedOut};
pub use oauth2_shared_token::{Content, StoredValue};
pub use renewal::renew;
pub use renewed::Renewed;
pub use replaced::Replaced;
pub use settings::KeeperSettings;
pub use shared_keeper::SharedKeeper;
pub use shared_token::SharedToken;
pub use store::TokenStore;
pub use store_and_world::StoreAndWorld;
pub use timed_store::TimedStore;
pub use world::KeeperWorld;
