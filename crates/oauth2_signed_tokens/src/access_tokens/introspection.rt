//! A verified token as the response of an introspection (RFC 7662, 2.2).

ghost use Rattle.std.specs.Prelude.{◌≡◌, IfOk, map, option_map, string_bytes};
ghost use Rattle.oauth2_signed_tokens.specs.access_tokens.Introspection.{introspection_of};
ghost use Rattle.oauth2_signed_tokens.specs.access_tokens.Seen.{access_token_of, verified_token_of};

use crate::access_tokens::access_token::JwtAccessToken;
use crate::access_tokens::verified::VerifiedAccessToken;
use oauth2_introspection::StandardTokenIntrospectionResponse;
use oauth2_types::{ClientId, Scope, TryClone};
use std::alloc::{AllocError, Global};

// Copies of the issuer, the subject and the audience of a token.
#[derive(Drop)]
struct Parties {
    issuer: String,
    subject: String,
    audience: Vec<String>,
}

// Copies of the client, the scopes and the identifier (`jti`) of a token.
#[derive(Drop)]
struct Grant {
    client_id: ClientId,
    scopes: Option<Vec<Scope>>,
    token_id: String,
}

fn copied_texts(alloc: Global, texts: &[String]) -> Result<Vec<String>, AllocError>
    ensures { IfOk result (λ copies. map string_bytes copies.items ≡ map string_bytes texts.now) }
{
    let mut copies = Vec::new(alloc);
    for text in texts {
        copies.push(text.try_clone(alloc)?)?;
    }
    Ok(copies)
}

fn parties_of(alloc: Global, token: &JwtAccessToken) -> Result<Parties, AllocError>
    ensures issuer { IfOk result (λ p.
        string_bytes p.issuer ≡ (access_token_of token.now).token.claims.own.issuer) }
    ensures subject { IfOk result (λ p.
        string_bytes p.subject ≡ (access_token_of token.now).token.claims.own.subject) }
    ensures audience { IfOk result (λ p.
        map string_bytes p.audience.items ≡ (access_token_of token.now).token.claims.own.audience) }
{
    Ok(Parties {
        issuer: String::from_str(alloc, token.issuer())?,
        subject: String::from_str(alloc, token.subject())?,
        audience: copied_texts(alloc, token.audience())?,
    })
}

fn grant_of(alloc: Global, token: &JwtAccessToken) -> Result<Grant, AllocError>
    ensures client_id { IfOk result (λ g. g.client_id ≡ (access_token_of token.now).own.client_id) }
    ensures scopes { IfOk result (λ g.
        option_map (λ list. list.items) g.scopes ≡ (access_token_of token.now).own.scopes) }
    ensures token_id { IfOk result (λ g. string_bytes g.token_id
        ≡ (access_token_of token.now).own.token_id) }
{
    Ok(Grant {
        client_id: token.own.client_id.try_clone(alloc)?,
        scopes: token.own.scopes.try_clone(alloc)?,
        token_id: token.own.token_id.try_clone(alloc)?,
    })
}

impl VerifiedAccessToken {
    /// The token as an introspection response for an active token (RFC 7662, 2.2), so that one
    /// program can handle both kinds of tokens. It has no `username` and no `token_type`, which a
    /// JWT access token does not have. `extra_fields` are the fields that the standard does not
    /// define; they are dropped if memory runs out.
    pub fn introspection<EF: Drop, TT: Drop>(
        &self,
        alloc: Global,
        extra_fields: EF,
    ) -> Result<StandardTokenIntrospectionResponse<EF, TT>, AllocError>
        ensures { IfOk result (λ r. r ≡ introspection_of (verified_token_of self.now) extra_fields) }
    {
        let token = self.token();
        let parties = parties_of(alloc, token)?;
        let grant = grant_of(alloc, token)?;
        let mut response = StandardTokenIntrospectionResponse::new(true, extra_fields);
        response.set_scopes(grant.scopes);
        response.set_client_id(Some(grant.client_id));
        response.set_exp(Some(token.expires_at()));
        response.set_iat(Some(token.issued_at()));
        response.set_nbf(token.not_before());
        response.set_sub(Some(parties.subject));
        response.set_aud(Some(parties.audience));
        response.set_iss(Some(parties.issuer));
        response.set_jti(Some(grant.token_id));
        Ok(response)
    }
}
