//! A login that many processes share: its token, for a store, and the client of `oauth2` that
//! refreshes it for `oauth2_shared_keeper` (RFC 6749, 6).

#![tactic(auto)]

mod clock_and_client;
mod login_refresher;
mod login_world;
mod refresh_fault;
mod shared_login;

pub use clock_and_client::ClockAndClient;
pub use login_refresher::{BasicLoginRefresher, LoginRefresher};
pub use login_world::LoginWorld;
pub use oauth2_keeper::token_types::BEARER;
pub use oauth2_stored_token::ClientAtEndpoint;
pub use refresh_fault::RefreshFault;
pub use shared_login::SharedLogin;
