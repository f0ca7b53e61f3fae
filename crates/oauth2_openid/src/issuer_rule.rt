//! Which issuers a client accepts ID tokens from (OpenID Connect Core 1.0, section 3.1.3.7, 2).

ghost use Rattle.std.specs.Prelude.{
  ◌≡◌,
  ◌≢◌,
  ℕ,
  List,
  ◌++◌,
  MatchOption,
  bytes_eq,
  option_copied,
};
ghost use Rattle.oauth2_openid.specs.Issuers.{named_issuers};
ghost use Rattle.oauth2_openid.specs.Rules.{is_issuer};

use crate::texts::is_among;

/// The issuers that a client expects. Texts are compared byte for byte.
#[derive(Debug, Drop)]
pub enum IssuerRule {
    /// Only this issuer.
    Is(String),
    /// One of these, such as the two spellings of Google's, `https://accounts.google.com` and
    /// `accounts.google.com`.
    OneOf(Vec<String>),
    /// For a provider that has an issuer for each of its tenants, such as Microsoft Entra: the
    /// parts of the issuer before and after the tenant. The tenant is in the token's claim `tid`.
    /// For Entra `before` is `https://login.microsoftonline.com/`, and `after` is `/v2.0`. A token
    /// of any tenant passes: look at `tid` if it matters to you which one it is.
    PerTenant { before: String, after: String },
}

impl IssuerRule {
    /// Whether the issuer is expected, for a token that names this tenant.
    pub fn names(&self, tenant: Option<&str>, issuer: &str) -> bool
        ensures { result
            ≡ is_issuer (named_issuers self.now) (option_copied tenant.entry) issuer.now }
    {
        match self {
            IssuerRule::Is(named) => issuer == named.as_str(),
            IssuerRule::OneOf(named) => is_among(named.as_slice(), issuer),
            IssuerRule::PerTenant { before, after } => match tenant {
                Some(tenant) => is_joined(issuer, before.as_str(), tenant, after.as_str()),
                None => false,
            },
        }
    }
}

// The part of `text` after `front`; `None` if `text` does not begin with `front`.
fn after<'a>(text: &'a str, front: &str) -> Option<&'a str>
    ensures { MatchOption result ((rest : List ℕ) → text.now ≢ front.now ++ rest)
        (λ rest. text.now ≡ front.now ++ rest.now) }
{
    text.strip_prefix(front)
}

// Whether `text` is these three texts, one after another.
#[tactic(auto, using(crate::proofs::Joined::joined, crate::proofs::Joined::no_second, crate::proofs::Joined::no_first))]
fn is_joined(text: &str, first: &str, second: &str, third: &str) -> bool
    ensures { result ≡ bytes_eq text.now (first.now ++ second.now ++ third.now) }
{
    match after(text, first) {
        Some(after_first) => match after(after_first, second) {
            Some(after_second) => after_second == third,
            None => false,
        },
        None => false,
    }
}
