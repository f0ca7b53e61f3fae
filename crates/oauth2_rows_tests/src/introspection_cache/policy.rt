//! What the resource server of a row accepts.

use oauth2::basic::BasicTokenType;
use oauth2_introspection_cache::{
    AcceptedAudience, AcceptedIssuer, AcceptedTokens, SenderConstraint,
};
use std::alloc::Global;

/// What is accepted, and the scopes that a request needs, between commas.
#[derive(Drop)]
pub struct Policy {
    pub accepted: AcceptedTokens<BasicTokenType>,
    scopes: String,
}

fn audience_of(alloc: Global, word: &str) -> anyhow::Result<AcceptedAudience> {
    match word {
        "-" => Ok(AcceptedAudience::IssuedForThisServerAlone),
        name => Ok(AcceptedAudience::Named(String::from_str(alloc, name)?)),
    }
}

fn issuer_of(alloc: Global, word: &str) -> anyhow::Result<AcceptedIssuer> {
    match word {
        "-" => Ok(AcceptedIssuer::EachOfTheEndpoint),
        name => Ok(AcceptedIssuer::Named(String::from_str(alloc, name)?)),
    }
}

fn type_of(alloc: Global, word: &str) -> anyhow::Result<BasicTokenType> {
    match word {
        "bearer" => Ok(BasicTokenType::Bearer),
        name => Ok(BasicTokenType::Extension(String::from_str(alloc, name)?)),
    }
}

impl Policy {
    /// What a row says: an audience, an issuer, a token type and scopes.
    pub fn of_words(alloc: Global, words: &str) -> anyhow::Result<Policy> {
        let mut words = words.split(' ');
        let audience = audience_of(alloc, words.next().unwrap_or(""))?;
        let issuer = issuer_of(alloc, words.next().unwrap_or(""))?;
        let token_type = type_of(alloc, words.next().unwrap_or(""))?;
        let scopes = String::from_str(alloc, words.next().unwrap_or(""))?;
        let constraint = SenderConstraint::NoKeyProven;
        let accepted = AcceptedTokens {
            audience,
            issuer,
            token_type,
            constraint,
        };
        Ok(Policy { accepted, scopes })
    }

    /// The scopes that a request needs.
    pub fn needed(&self, alloc: Global) -> anyhow::Result<Vec<&str>> {
        let mut needed = Vec::new(alloc);
        if self.scopes.as_str() != "-" {
            for scope in self.scopes.split(',') {
                needed.push(scope)?;
            }
        }
        Ok(needed)
    }
}
