//! Functions that send each kind of request over a client that uses connections again. The contract
//! of each is one definition, from the bytes that are sent to the bytes that are received.

mod client_credentials;
mod code;
mod device;
mod introspection;
mod refresh;
mod revocation;
mod streams_tests;
