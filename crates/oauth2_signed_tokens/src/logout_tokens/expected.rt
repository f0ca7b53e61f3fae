//! What a client expects of a logout token.

use crate::logout_tokens::type_rule::TypeRule;
use oauth2_openid::IssuerRule;
use oauth2_types::ClientId;
use std::marker::Model;
use std::time::Duration;

/// What the claims and the type of a logout token are checked against. It is what the client expects
/// of the ID tokens of the same issuer (2.6, 4), and which types it takes.
#[derive(Drop)]
pub struct ExpectedLogoutToken {
    /// The issuer, as its metadata name it, or the rule for its tenants: the one of the issuer's ID
    /// tokens. It is compared byte for byte.
    pub issuer: IssuerRule,
    /// The client itself.
    pub client_id: ClientId,
    /// The other audiences that the client trusts, most often none. A token with any other
    /// audience is refused (OpenID Connect Core 1.0, 3.1.3.7, 3).
    pub other_audiences: Vec<String>,
    /// Which types (`typ`) the token may have. Without a reason for another choice, this is
    /// `TypeRule::LogoutOrPlain`.
    pub type_rule: TypeRule,
    /// How far the clocks of the issuer and of the client may be apart.
    pub leeway: Duration,
}

impl Model for ExpectedLogoutToken {
    ghost use Rattle.std.specs.Prelude.{map, string_bytes};
    ghost use Rattle.std.specs.Duration.{as_nanos};
    ghost use Rattle.oauth2_openid.specs.Issuers.{named_issuers};
    ghost use Rattle.oauth2_signed_tokens.specs.logout_tokens.Rules.{Expectation};

    ghost Value = { Expectation };

    ghost view = { λ e. record {
      issuer = named_issuers e.issuer;
      client = e.client_id;
      other_audiences = map string_bytes e.other_audiences.items;
      type_rule = e.type_rule;
      leeway = as_nanos e.leeway;
    } };
}
