//! What a resource server expects of a JWT access token.

use oauth2_keys::SignatureAlgorithm;
use std::marker::Model;
use std::time::Duration;

/// What a request proved of a key, for a token that is bound to one (`cnf`; RFC 7800, 3.1).
///
/// There is one variant, since no proof is checked yet. A check of DPoP's proof (RFC 9449) or of a
/// certificate of mutual TLS (RFC 8705) would add one that holds a value which it alone makes.
#[derive(Clone, Copy, Debug, PartialEq, Eq, Drop)]
pub enum SenderConstraint {
    /// No key was proven: the token is used as a bearer token (RFC 6750). A token that is bound to a
    /// key is refused.
    NoKeyProven,
}

/// What a JWT access token is checked against.
#[derive(Drop)]
pub struct ExpectedAccessToken {
    /// The issuer of the tokens, as its metadata name it. It is compared byte for byte.
    pub issuer: String,
    /// The identifier of this resource server, as the authorization server writes it into `aud`.
    /// It is compared byte for byte.
    pub audience: String,
    /// The algorithm with which the issuer signs its access tokens. Take it from the issuer's
    /// documents or from its operator, never from a token.
    pub algorithm: SignatureAlgorithm,
    /// What the request with the token proved of a key.
    pub constraint: SenderConstraint,
    /// How far the clocks of the issuer and of the resource server may be apart.
    pub leeway: Duration,
}

impl Model for ExpectedAccessToken {
    ghost use Rattle.std.specs.Prelude.{string_bytes};
    ghost use Rattle.std.specs.Duration.{as_nanos};
    ghost use Rattle.oauth2_signed_tokens.specs.access_tokens.Rules.{Expectation};

    ghost Value = { Expectation };

    ghost view = { λ e. record {
      issuer = string_bytes e.issuer;
      audience = string_bytes e.audience;
      algorithm = e.algorithm;
      constraint = e.constraint;
      leeway = as_nanos e.leeway;
    } };
}
