//! Finds and runs the operation of a name.

use crate::authorization_url::AuthorizationUrl;
use crate::challenge::Challenge;
use crate::client_credentials::ClientCredentials;
use crate::code_exchange::CodeExchange;
use crate::device_poll::PollOperation;
use crate::fault::Fault;
use crate::inputs::{introspection, long_token, params, scopes, short_token};
use crate::introspection_request::IntrospectionOperation;
use crate::operation::{Run, timed};
use crate::reading::{IntrospectionReading, TokenReading};
use std::alloc::Global;
use std::rt::Clock;

/// The operations that run if the program has no arguments. The other operations are these at
/// larger sizes.
pub const NAMES: [&str; 17] = [
    "a_code_exchange",
    "b_client_credentials_20_extra_5_scopes",
    "b_client_credentials_200_extra_5_scopes",
    "b_client_credentials_2000_extra_5_scopes",
    "c_authorize_url_pkce_3_scopes_redirect",
    "d_introspection_1kb_request",
    "d_introspection_1kb_read_alone",
    "e_token_4kb_request",
    "e_token_64kb_request",
    "e_token_1mb_request",
    "e_token_4kb_read_alone",
    "e_token_64kb_read_alone",
    "e_token_1mb_read_alone",
    "f_pkce_challenge_sha256",
    "g_device_poll_10_pending",
    "g_device_poll_100_pending",
    "g_device_poll_1000_pending",
];

const KILOBYTE: u32 = 1024;

const MEGABYTE: u32 = 1024 * KILOBYTE;

/// The clock and the allocator of the operations, and how often each runs.
#[derive(Clone, Copy)]
pub struct Bench<'a, C> {
    pub clock: &'a C,
    pub alloc: Global,
    pub iterations: u64,
}

impl<C: Clock> Bench<'_, C> {
    /// Runs the operation with this name, or returns `Fault::Arguments` if there is none.
    pub fn measure(&self, name: &str) -> Result<Run, Fault> {
        match name {
            "a_code_exchange" => self.exchange(short_token(self.alloc)?),
            "b_client_credentials_20_extra_5_scopes" => self.credentials(20),
            "b_client_credentials_200_extra_5_scopes" => self.credentials(200),
            "b_client_credentials_2000_extra_5_scopes" => self.credentials(2000),
            "b_client_credentials_20000_extra_5_scopes" => self.credentials(20000),
            "b_client_credentials_200000_extra_5_scopes" => self.credentials(200000),
            "c_authorize_url_pkce_3_scopes_redirect" => self.authorization_url(),
            "d_introspection_1kb_request" => self.introspection(),
            "d_introspection_1kb_read_alone" => self.introspection_response(),
            "e_token_4kb_request" => self.exchange(long_token(self.alloc, 4 * KILOBYTE)?),
            "e_token_64kb_request" => self.exchange(long_token(self.alloc, 64 * KILOBYTE)?),
            "e_token_1mb_request" => self.exchange(long_token(self.alloc, MEGABYTE)?),
            "e_token_16mb_request" => self.exchange(long_token(self.alloc, 16 * MEGABYTE)?),
            "e_token_100mb_request" => self.exchange(long_token(self.alloc, 100 * MEGABYTE)?),
            "e_token_4kb_read_alone" => self.token(4 * KILOBYTE),
            "e_token_64kb_read_alone" => self.token(64 * KILOBYTE),
            "e_token_1mb_read_alone" => self.token(MEGABYTE),
            "f_pkce_challenge_sha256" => self.challenge(),
            "g_device_poll_10_pending" => self.device_poll(10),
            "g_device_poll_100_pending" => self.device_poll(100),
            "g_device_poll_1000_pending" => self.device_poll(1000),
            "g_device_poll_10000_pending" => self.device_poll(10000),
            "g_device_poll_100000_pending" => self.device_poll(100000),
            _ => Err(Fault::Arguments),
        }
    }

    fn exchange(&self, body: String) -> Result<Run, Fault> {
        let operation = CodeExchange::new(self.alloc, body)?;
        timed(self.clock, self.alloc, operation, self.iterations)
    }

    fn credentials(&self, number: u32) -> Result<Run, Fault> {
        let body = short_token(self.alloc)?;
        let scopes = scopes(self.alloc)?;
        let params = params(self.alloc, number)?;
        let operation = ClientCredentials::new(self.alloc, body, scopes, params)?;
        timed(self.clock, self.alloc, operation, self.iterations)
    }

    fn authorization_url(&self) -> Result<Run, Fault> {
        let challenge = Challenge::new(self.alloc)?.challenge(self.alloc)?;
        let operation = AuthorizationUrl::new(self.alloc, challenge)?;
        timed(self.clock, self.alloc, operation, self.iterations)
    }

    fn introspection(&self) -> Result<Run, Fault> {
        let body = introspection(self.alloc)?;
        let operation = IntrospectionOperation::new(self.alloc, body)?;
        timed(self.clock, self.alloc, operation, self.iterations)
    }

    fn introspection_response(&self) -> Result<Run, Fault> {
        let body = introspection(self.alloc)?;
        timed(
            self.clock,
            self.alloc,
            IntrospectionReading { body },
            self.iterations,
        )
    }

    fn token(&self, size: u32) -> Result<Run, Fault> {
        let body = long_token(self.alloc, size)?;
        timed(
            self.clock,
            self.alloc,
            TokenReading { body },
            self.iterations,
        )
    }

    fn device_poll(&self, pending: u32) -> Result<Run, Fault> {
        let body = short_token(self.alloc)?;
        let operation = PollOperation::new(self.alloc, body, pending)?;
        timed(self.clock, self.alloc, operation, self.iterations)
    }

    fn challenge(&self) -> Result<Run, Fault> {
        let operation = Challenge::new(self.alloc)?;
        timed(self.clock, self.alloc, operation, self.iterations)
    }
}
