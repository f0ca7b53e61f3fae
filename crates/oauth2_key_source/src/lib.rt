//! The keys of an issuer: asked for at its `jwks_uri`, kept, and asked for again when the issuer has
//! changed them (OpenID Connect Core 1.0, 10.1.1; RFC 7517, 5).

#![tactic(auto)]

mod kept_keys;
mod key_set_error;
mod key_source;
mod laws;
mod reply;
mod request;
mod source_error;
mod url_error;
mod verify_error;

pub use key_set_error::KeySetError;
pub use key_source::KeySource;
pub use laws::{
    each_end_is_within_the_wait, each_flood_asks_once, each_other_call_sends_nothing,
    each_two_requests_are_apart, lent_keys_are_a_call,
};
pub use request::KeySetRequest;
pub use source_error::KeySourceError;
pub use url_error::KeySetUrlError;
pub use verify_error::VerifyError;
