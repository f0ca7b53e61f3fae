//! Which types a client takes for that of a logout token.

ghost use Rattle.std.specs.Prelude.{◌≡◌, option_map};
ghost use Rattle.serde_json.specs.View.{view};
ghost use Rattle.oauth2_signed_tokens.specs.logout_tokens.Rules.{
  names_logout,
  takes_named,
  takes_type,
  takes_untyped,
};

use oauth2_openid::kinds::names_plain;
use serde_json::Value;

/// Which types (`typ`) the header of a logout token may have. Types are compared in any case of
/// letters, with or without `application/` before them.
#[derive(Clone, Copy, Debug, PartialEq, Eq, Drop)]
pub enum TypeRule {
    /// Only `logout+jwt`. Choose this if your issuer is known to send it: then no token of another
    /// kind passes for a logout token.
    OnlyLogout,
    /// `logout+jwt`, `JWT`, or no type. This is for any other issuer: the standard only recommends
    /// the type (2.4), and many issuers send logout tokens without it. The claims `events` and
    /// `nonce` tell such a token from an ID token.
    LogoutOrPlain,
}

impl TypeRule {
    // Whether a header with this member `typ`, or with none, is taken.
    pub(crate) fn takes(self, token_type: Option<&Value>) -> bool
        ensures { result ≡ takes_type self (option_map (λ v. view v.now) token_type.entry) }
    {
        match token_type {
            Some(token_type) => match token_type.as_str() {
                Some(token_type) => self.takes_named(token_type),
                None => false,
            },
            None => self.takes_untyped(),
        }
    }

    fn takes_named(self, token_type: &str) -> bool
        ensures { result ≡ takes_named self token_type.now }
    {
        match self {
            TypeRule::OnlyLogout => names_logout(token_type),
            TypeRule::LogoutOrPlain => names_logout(token_type) || names_plain(token_type),
        }
    }

    fn takes_untyped(self) -> bool
        ensures { result ≡ takes_untyped self }
    {
        match self {
            TypeRule::OnlyLogout => false,
            TypeRule::LogoutOrPlain => true,
        }
    }
}

// Whether a type is that of a logout token.
fn names_logout(token_type: &str) -> bool
    ensures { result ≡ names_logout token_type.now }
{
    token_type.eq_ignore_ascii_case("logout+jwt")
        || token_type.eq_ignore_ascii_case("application/logout+jwt")
}
