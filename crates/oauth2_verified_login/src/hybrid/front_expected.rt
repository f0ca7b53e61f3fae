//! What the ID token of the front channel is checked against.

ghost use Rattle.std.specs.Prelude.{◌≡◌, IsSome, Some};

use oauth2_openid::{Expected, Nonce};
use std::marker::Model;

/// What the ID token of the front channel is checked against: what a client expects of any ID token,
/// and the nonce of the login, which is required here (OpenID Connect Core 1.0, 3.3.2.11). Contracts
/// see it as an `Expected` that has a nonce.
#[derive(Drop)]
pub struct FrontExpected {
    expected: Expected,
}

impl Model for FrontExpected {
    ghost use Rattle.std.specs.Prelude.{IsSome};
    ghost use Rattle.oauth2_openid.specs.Claims.{Expectation};

    ghost Value = { Expectation };

    ghost view = { λ front. front.expected };

    ghost invariant = { λ front. IsSome front.expected.nonce };
}

impl FrontExpected {
    /// What is expected at a login with this nonce. The nonce takes the place of one that `expected`
    /// has.
    pub fn new(expected: Expected, nonce: Nonce) -> FrontExpected
        ensures { result ≡ record expected { nonce = Some nonce } }
    {
        FrontExpected {
            expected: Expected {
                nonce: Some(nonce),
                ..expected
            },
        }
    }

    /// What the ID token of the token response is checked against: the nonce is the same in both
    /// (3.3.3.6).
    pub fn expected(&self) -> &Expected
        ensures expected { result.now ≡ self.now }
        ensures nonce { IsSome self.now.nonce }
    {
        &self.expected
    }
}
