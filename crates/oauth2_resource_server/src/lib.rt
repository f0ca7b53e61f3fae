//! A resource server's questions about the tokens that it is sent (RFC 7662): over one connection that
//! is kept, and only where no answer is kept that may still be used.

#![tactic(auto)]

mod laws;
mod resource_server;

pub use laws::{asks_where_no_answer_is_good, each_connection_keeps_its_history};
pub use resource_server::{BasicResourceServer, ResourceServer};
