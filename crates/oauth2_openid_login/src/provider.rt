//! What a client knows of an OpenID provider.

ghost use Rattle.std.specs.Duration.{as_nanos};
ghost use Rattle.std.specs.Prelude.{◌≡◌, IfOk, Some, map, option_copied, option_map, string_bytes};
ghost use Rattle.oauth2_redirect.specs.Redirect.{expectation_of};
ghost use Rattle.oauth2_openid.specs.Issuers.{named_issuers};
ghost use Rattle.oauth2_openid_login.specs.Provider.{
  login_expectation,
  names_issuer,
  new_provider,
  redirect_issuer,
  token_issuers,
};

use crate::redirect_issuer::RedirectIssuer;
use oauth2_openid::{Expected, IssuerRule, Nonce};
use oauth2_redirect::{ExpectedIssuer, Login, LoginIssuer};
use oauth2_types::{ClientId, TryClone};
use std::alloc::{AllocError, Global};
use std::marker::Model;
use std::time::Duration;

/// An OpenID provider, as a client knows it before any login.
#[derive(Debug, Drop)]
pub struct OpenIdProvider<'a> {
    issuer: &'a str,
    redirects: RedirectIssuer,
    issuer_rule: Option<&'a IssuerRule>,
    other_audiences: &'a [&'a str],
    authorized_parties: &'a [&'a str],
    algorithm: Option<&'a str>,
    leeway: Duration,
}

impl<'a> Model for OpenIdProvider<'a> {
    ghost use Rattle.std.specs.Prelude.{map, option_copied};
    ghost use Rattle.std.specs.Duration.{as_nanos};
    ghost use Rattle.oauth2_openid_login.specs.Provider.{Provider, token_issuers};

    ghost Value = { Provider };

    ghost view = { λ p. record {
      issuer = p.issuer.now;
      redirects = p.redirects;
      issuer_rule = token_issuers p.issuer.now (option_copied p.issuer_rule);
      other_audiences = map (λ t. t.now) p.other_audiences.now;
      authorized_parties = map (λ t. t.now) p.authorized_parties.now;
      algorithm = option_copied p.algorithm;
      leeway = as_nanos p.leeway;
    } };
}

impl<'a> OpenIdProvider<'a> {
    /// The provider with this issuer, which is compared byte for byte with `iss` in its redirects
    /// and its ID tokens. `leeway` is the largest difference between its clock and the client's.
    pub fn new(issuer: &'a str, redirects: RedirectIssuer, leeway: Duration) -> OpenIdProvider<'a>
        ensures { result ≡ new_provider issuer.now redirects (as_nanos leeway) }
    {
        OpenIdProvider {
            issuer,
            redirects,
            issuer_rule: None,
            other_audiences: &[],
            authorized_parties: &[],
            algorithm: None,
            leeway,
        }
    }

    /// Sets the issuers of its ID tokens, if they have other issuers than the provider's own: one
    /// of several spellings, or one for each tenant. The `iss` of a redirect is still compared with
    /// the provider's own issuer, since only the ID token says which tenant it is.
    pub fn set_issuer_rule(self, issuer_rule: &'a IssuerRule) -> OpenIdProvider<'a>
        ensures { result ≡ record self.entry { issuer_rule = named_issuers issuer_rule.now } }
    {
        OpenIdProvider {
            issuer_rule: Some(issuer_rule),
            ..self
        }
    }

    /// Sets the audiences that the client trusts besides itself; by default there are none. A token
    /// with any other audience is refused (section 3.1.3.7, 3).
    pub fn set_other_audiences(self, other_audiences: &'a [&'a str]) -> OpenIdProvider<'a>
        ensures { result ≡ record self.entry {
          other_audiences = map (λ t. t.now) other_audiences.now;
        } }
    {
        OpenIdProvider {
            other_audiences,
            ..self
        }
    }

    /// Sets the parties besides the client that the tokens may be issued to (`azp`); by default
    /// there are none. An example is an Android app whose tokens have its server as their audience.
    pub fn set_authorized_parties(self, authorized_parties: &'a [&'a str]) -> OpenIdProvider<'a>
        ensures { result ≡ record self.entry {
          authorized_parties = map (λ t. t.now) authorized_parties.now;
        } }
    {
        OpenIdProvider {
            authorized_parties,
            ..self
        }
    }

    /// Sets the algorithm that the client registered (`id_token_signed_response_alg`), such as
    /// `RS256`. By default any algorithm except `none` is accepted.
    pub fn set_algorithm(self, algorithm: &'a str) -> OpenIdProvider<'a>
        ensures { result ≡ record self.entry { algorithm = Some algorithm.now } }
    {
        OpenIdProvider {
            algorithm: Some(algorithm),
            ..self
        }
    }

    // What a login at this provider keeps of its issuer.
    pub(crate) fn login_issuer(&self, alloc: Global) -> Result<LoginIssuer, AllocError>
        ensures { IfOk result (λ issuer. expectation_of issuer ≡ redirect_issuer self.now) }
    {
        let issuer = String::from_str(alloc, self.issuer)?;
        Ok(match self.redirects {
            RedirectIssuer::InEachRedirect => LoginIssuer::InEachRedirect(issuer),
            RedirectIssuer::OwnRedirectUri => LoginIssuer::OwnRedirectUri(Some(issuer)),
        })
    }

    // Whether a login was started at this provider.
    pub(crate) fn is_of(&self, login: &Login) -> bool
        ensures { result ≡ names_issuer login.now.issuer self.now.issuer }
    {
        match login.issuer() {
            ExpectedIssuer::Required(issuer) => self.issuer == issuer,
            ExpectedIssuer::Compared(issuer) => self.issuer == issuer,
            ExpectedIssuer::Unknown => false,
        }
    }

    // What the ID token of a login is checked against.
    pub(crate) fn expected_id_token(
        &self,
        alloc: Global,
        client_id: &ClientId,
        nonce: &Nonce,
        max_age: Option<u64>,
    ) -> Result<Expected, AllocError>
        ensures { IfOk result
            (λ expected. expected ≡ login_expectation self.now client_id.now nonce.now max_age) }
    {
        Ok(Expected {
            issuer: token_issuers(alloc, self.issuer, self.issuer_rule)?,
            client_id: client_id.try_clone(alloc)?,
            other_audiences: owned_texts(alloc, self.other_audiences)?,
            authorized_parties: owned_texts(alloc, self.authorized_parties)?,
            algorithm: copy_optional_text(alloc, self.algorithm)?,
            nonce: Some(nonce.try_clone(alloc)?),
            leeway: self.leeway,
            max_age: max_age.map(Duration::from_secs),
        })
    }
}

// A copy of the rule for the issuers of ID tokens. Without a rule they have this issuer.
fn token_issuers(
    alloc: Global,
    issuer: &str,
    rule: Option<&IssuerRule>,
) -> Result<IssuerRule, AllocError>
    ensures { IfOk result (λ issuers. named_issuers issuers
        ≡ token_issuers issuer.now (option_copied rule.entry)) }
{
    match rule {
        Some(rule) => owned_rule(alloc, rule),
        None => Ok(IssuerRule::Is(String::from_str(alloc, issuer)?)),
    }
}

fn owned_rule(alloc: Global, rule: &IssuerRule) -> Result<IssuerRule, AllocError>
    ensures { IfOk result (λ copy. named_issuers copy ≡ named_issuers rule.now) }
{
    Ok(match rule {
        IssuerRule::Is(issuer) => IssuerRule::Is(issuer.try_clone(alloc)?),
        IssuerRule::OneOf(issuers) => IssuerRule::OneOf(issuers.try_clone(alloc)?),
        IssuerRule::PerTenant { before, after } => IssuerRule::PerTenant {
            before: before.try_clone(alloc)?,
            after: after.try_clone(alloc)?,
        },
    })
}

fn owned_texts(alloc: Global, texts: &[&str]) -> Result<Vec<String>, AllocError>
    ensures { IfOk result (λ copies. map string_bytes copies.items
        ≡ map (λ t. t.now) texts.now) }
{
    let mut copies = Vec::new(alloc);
    for text in texts {
        copies.push(String::from_str(alloc, *text)?)?;
    }
    Ok(copies)
}

fn copy_optional_text(alloc: Global, text: Option<&str>) -> Result<Option<String>, AllocError>
    ensures { IfOk result (λ copy. option_map string_bytes copy ≡ option_copied text.entry) }
{
    match text {
        Some(text) => Ok(Some(String::from_str(alloc, text)?)),
        None => Ok(None),
    }
}
