//! Functions that call the libraries as a user does and have their own contracts, and tests that call
//! them. The functions are compiled only with the tests: a library would also have to export all that
//! its public names mention.

#![tactic(auto)]

#[cfg(test)]
mod application;
#[cfg(test)]
mod application_tests;
#[cfg(test)]
mod authorization;
#[cfg(test)]
mod client;
#[cfg(test)]
mod device;
#[cfg(test)]
mod example;
#[cfg(test)]
mod exchange;
#[cfg(test)]
mod http1;
#[cfg(test)]
mod http1_connections;
#[cfg(test)]
mod login_tests;
#[cfg(test)]
mod openid;
#[cfg(test)]
mod own_extra_fields;
mod own_types;
#[cfg(test)]
mod refresh;
#[cfg(test)]
mod revocation;
#[cfg(test)]
mod rfc_client;
#[cfg(test)]
mod support;
#[cfg(test)]
mod transport;
#[cfg(test)]
mod web_login;
