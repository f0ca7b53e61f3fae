//! Operations that read the body of a reply, without a request.

use crate::fault::Fault;
use crate::operation::{Done, Operation};
use oauth2::basic::{BasicTokenIntrospectionResponse, BasicTokenResponse};
use oauth2::{TokenIntrospectionResponse, TokenResponse, read_body};
use std::alloc::Global;

/// Reads an introspection response.
#[derive(Drop)]
pub struct IntrospectionReading {
    pub body: String,
}

impl Operation for IntrospectionReading {
    fn run(&mut self, alloc: Global) -> Result<Done, Fault> {
        let read = read_body::<BasicTokenIntrospectionResponse>(alloc, self.body.as_bytes())?;
        let Some(scopes) = read.scopes() else {
            return Err(Fault::Refused);
        };
        Ok(Done {
            sent: 0,
            read: scopes.len(),
        })
    }
}

/// Reads a token response.
#[derive(Drop)]
pub struct TokenReading {
    pub body: String,
}

impl Operation for TokenReading {
    fn run(&mut self, alloc: Global) -> Result<Done, Fault> {
        let read = read_body::<BasicTokenResponse>(alloc, self.body.as_bytes())?;
        Ok(Done {
            sent: 0,
            read: read.access_token().secret().len(),
        })
    }
}
