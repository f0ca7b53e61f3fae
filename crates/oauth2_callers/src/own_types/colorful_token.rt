//! Revocable tokens of a kind that the standard does not name.

ghost use Rattle.std.specs.Prelude.{Some, codes, string_bytes};

use oauth2::RevocableToken;

/// A token to revoke, sent with the hint `red_token` (RFC 7009, section 2.1).
#[derive(Drop)]
pub struct ColorfulRevocableToken(pub String);

impl RevocableToken for ColorfulRevocableToken {
    ghost secret = { λ token. string_bytes token.0 };

    ghost type_hint = { λ token. Some (codes "red_token") };

    fn secret(&self) -> &str {
        self.0.as_str()
    }

    fn type_hint(&self) -> Option<&str> {
        Some("red_token")
    }
}
