//! What a client expects of an ID token.

use crate::issuer_rule::IssuerRule;
use crate::nonce::Nonce;
use oauth2_types::ClientId;
use std::marker::Model;
use std::time::Duration;

/// What an ID token is checked against.
#[derive(Drop)]
pub struct Expected {
    /// The issuer whose token endpoint returned the token.
    pub issuer: IssuerRule,
    /// The client itself.
    pub client_id: ClientId,
    /// The other audiences that the client trusts, most often none. A token with any other
    /// audience is refused (3.1.3.7, 3). Each audience of a token is compared with each of these.
    pub other_audiences: Vec<String>,
    /// The other parties to which its tokens may be issued (`azp`), most often none. An example is
    /// an Android app whose tokens name its server as their audience.
    pub authorized_parties: Vec<String>,
    /// The algorithm that the client registered (`id_token_signed_response_alg`), such as `RS256`:
    /// a token with another one is refused. Only a client that registered `none` may name it here
    /// (section 2). If this is `None`, any algorithm is accepted except the empty text and `none`,
    /// in any case of letters.
    pub algorithm: Option<String>,
    /// The nonce that was sent with the request, if one was.
    pub nonce: Option<Nonce>,
    /// How far the clocks of the issuer and of the client may be apart.
    pub leeway: Duration,
    /// The maximum age (`max_age`) that was sent with the request, if one was.
    pub max_age: Option<Duration>,
}

impl Model for Expected {
    ghost use Rattle.std.specs.Prelude.{map, option_map, string_bytes};
    ghost use Rattle.std.specs.Duration.{as_nanos};
    ghost use Rattle.oauth2_openid.specs.Claims.{Expectation};
    ghost use Rattle.oauth2_openid.specs.Issuers.{named_issuers};

    ghost Value = { Expectation };

    ghost view = { λ e. record {
      issuer = named_issuers e.issuer;
      client = e.client_id;
      other_audiences = map string_bytes e.other_audiences.items;
      authorized_parties = map string_bytes e.authorized_parties.items;
      algorithm = option_map string_bytes e.algorithm;
      nonce = e.nonce;
      leeway = as_nanos e.leeway;
      greatest_age = option_map as_nanos e.max_age;
    } };
}
