//! A clock and a generator whose values a test knows, and sources with them.

use jiff::Timestamp;
use oauth2_client_secret_jwt::{Audience, ClientSecretJwt, Clock, IssuerIdentifier};
use oauth2_tests_support::text;
use oauth2_types::{ClientId, ClientSecret};
use oauth2_urls::TokenUrl;
use rand_core::TryRng;
use std::alloc::Global;
use std::fmt;
use std::test::Fail;

/// A secret of 32 bytes, the fewest that are taken.
pub(crate) const SECRET: &str = "0123456789abcdef0123456789abcdef";

/// The clock or the generator stopped.
#[derive(Clone, Copy, Debug)]
pub(crate) struct Stopped;

impl fmt::Display for Stopped {
    fn fmt<W: fmt::Write>(&self, f: &mut fmt::Formatter<W>) -> fmt::Result {
        f.write_str("it stopped")
    }
}

impl std::error::Error for Stopped {}

/// A clock that shows this nanosecond since 1970, and one second more after each call; or none.
#[derive(Clone, Copy)]
pub(crate) struct Ticking(pub(crate) Option<i128>);

impl Clock for Ticking {
    type Error = Stopped;

    fn now(&mut self) -> Result<Timestamp, Stopped> {
        let Some(nanosecond) = self.0 else {
            return Err(Stopped);
        };
        self.0 = nanosecond.checked_add(1_000_000_000);
        Timestamp::from_nanosecond(nanosecond).map_err(|_| Stopped)
    }
}

/// A generator whose bytes are this number, the next one and so on; or none.
#[derive(Clone, Copy)]
pub(crate) struct Counting(pub(crate) Option<u8>);

impl Counting {
    fn next_byte(&mut self) -> Result<u8, Stopped> {
        let Some(byte) = self.0 else {
            return Err(Stopped);
        };
        self.0 = byte.checked_add(1);
        Ok(byte)
    }
}

impl TryRng for Counting {
    type Error = Stopped;

    fn try_next_u32(&mut self) -> Result<u32, Stopped> {
        Ok(u32::from(self.next_byte()?))
    }

    fn try_next_u64(&mut self) -> Result<u64, Stopped> {
        Ok(u64::from(self.next_byte()?))
    }

    fn try_fill_bytes(&mut self, dst: &mut [u8]) -> Result<(), Stopped> {
        for byte in dst {
            *byte = self.next_byte()?;
        }
        Ok(())
    }
}

/// The issuer with this identifier.
pub(crate) fn issuer(alloc: Global, identifier: &str) -> Result<Audience, Fail> {
    Ok(Audience::Issuer(IssuerIdentifier::new(alloc, text(alloc, identifier)?)?))
}

/// The server with this token endpoint.
pub(crate) fn token_endpoint(alloc: Global, url: &str) -> Result<Audience, Fail> {
    Ok(Audience::TokenEndpoint(TokenUrl::parse(alloc, url)?))
}

/// A source of this client at this nanosecond since 1970, for this audience.
pub(crate) fn source(
    alloc: Global,
    client_id: &str,
    secret: &str,
    audience: Audience,
    nanosecond: i128,
) -> Result<ClientSecretJwt<Ticking, Counting>, Fail> {
    Ok(ClientSecretJwt::new(
        ClientId::new(text(alloc, client_id)?),
        ClientSecret::new(text(alloc, secret)?),
        audience,
        Ticking(Some(nanosecond)),
        Counting(Some(0)),
    )?)
}
