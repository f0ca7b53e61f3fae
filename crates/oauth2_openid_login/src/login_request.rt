//! The start of a login with OpenID Connect: the URL to send the user to, and what to keep until
//! the user is back.

ghost use Rattle.std.specs.Fmt.{DisplaysOnOk, WritesStyledOnOk, decimal};
ghost use Rattle.std.specs.Iterator.{Drains, IsFinite};
ghost use Rattle.std.specs.Prelude.{
  ◌≡◌,
  ◌++◌,
  ◌∷◌,
  ◌/◌,
  [],
  ℕ,
  List,
  IfOk,
  IfErr,
  IsSome,
  IsTrue,
  None,
  Some,
  codes,
  string_bytes,
};
ghost use Rattle.std.specs.Duration.{as_nanos};
ghost use Rattle.oauth2_urls.specs.Addressed.{Addressed};
ghost use Rattle.oauth2_form.specs.Query.{ExtendsQuery, query_form};
ghost use Rattle.oauth2_wire.specs.ByName.{avoid_own_names};
ghost use Rattle.oauth2_wire.specs.Texts.{param_bytes};
ghost use Rattle.oauth2_requests.specs.Authorization.{query_pairs};
ghost use Rattle.oauth2_redirect.specs.Login.{login_view_of};
ghost use Rattle.oauth2_redirect.specs.Start.{ShowsLogin};
ghost use Rattle.oauth2_openid_login.specs.Login.{openid_kept};
ghost use Rattle.oauth2_openid_login.specs.Start.{IsUrlFault, max_age_pair, url_fault};

use crate::login::OpenIdLogin;
use crate::login_url_error::{OpenIdLoginUrlError, OpenIdLoginUrlFault};
use oauth2_openid::Nonce;
use oauth2_redirect::{LoginRequest, LoginUrlFault};
use oauth2_types::Scope;
use oauth2_urls::RedirectUrl;
use oauth2_wire::ParamText;
use std::alloc::{AllocError, Global};
use std::fmt;
use std::marker::Model;
use std::time::Duration;
use url::Url;

/// A login that is being started. Contracts see the request for its URL, and what is kept.
#[derive(Drop)]
pub struct OpenIdLoginRequest<'a> {
    login: LoginRequest<'a>,
    nonce: Nonce,
    max_age: Option<u64>,
}

impl<'a> Model for OpenIdLoginRequest<'a> {
    ghost use Rattle.oauth2_openid_login.specs.Start.{OpenIdStarting};

    ghost Value = { OpenIdStarting };

    ghost view = { λ l. record {
      request = l.login.request;
      verifier = l.login.verifier;
      issuer = l.login.issuer;
      token_url = l.login.token_url;
      nonce = l.nonce;
      max_age = l.max_age;
    } };
}

impl<'a> OpenIdLoginRequest<'a> {
    // A login by this request, whose ID token must have this nonce.
    pub(crate) fn new(login: LoginRequest<'a>, nonce: Nonce) -> Self
        ensures { result ≡ record {
          request = login.entry.request;
          verifier = login.entry.verifier;
          issuer = login.entry.issuer;
          token_url = login.entry.token_url;
          nonce = nonce;
          max_age = None;
        } }
    {
        OpenIdLoginRequest {
            login,
            nonce,
            max_age: None,
        }
    }

    /// Adds a scope besides `openid`, for example `email`.
    pub fn add_scope(self, scope: Scope) -> Result<Self, AllocError>
        ensures { IfOk result (λ l. l ≡ record self.entry {
          request = record self.entry.request {
            scopes = self.entry.request.scopes ++ scope ∷ [];
          };
        }) }
    {
        Ok(OpenIdLoginRequest {
            login: self.login.add_scope(scope)?,
            nonce: self.nonce,
            max_age: self.max_age,
        })
    }

    /// Adds scopes, in order, from an iterator that ends.
    pub fn add_scopes<I: IntoIterator<Item = Scope>>(self, scopes: I) -> Result<Self, AllocError>
        requires { (it : I.IntoIter) → I.into_iter_gives scopes it
            → I.IntoIter.can_next it × IsFinite (I.IntoIter.remaining it) }
        ensures { IfOk result (λ l. (it : I.IntoIter) × (added : List (List ℕ))
            × I.into_iter_gives scopes it × Drains I.IntoIter.next_gives it added
            × (l ≡ record self.entry {
              request = record self.entry.request {
                scopes = self.entry.request.scopes ++ added;
              };
            })) }
    {
        Ok(OpenIdLoginRequest {
            login: self.login.add_scopes(scopes)?,
            nonce: self.nonce,
            max_age: self.max_age,
        })
    }

    /// Adds a parameter, for example `prompt` or `login_hint` (section 3.1.2.1). If the login
    /// itself sends one with that name, both are sent.
    pub fn add_extra_param(
        self,
        name: ParamText<'a>,
        value: ParamText<'a>,
    ) -> Result<Self, AllocError>
        ensures { let added = (param_bytes name.entry, param_bytes value.entry) ∷ [] in
            IfOk result (λ l. l ≡ record self.entry {
              request = record self.entry.request {
                extra_params = self.entry.request.extra_params ++ added;
              };
            }) }
    {
        Ok(OpenIdLoginRequest {
            login: self.login.add_extra_param(name, value)?,
            nonce: self.nonce,
            max_age: self.max_age,
        })
    }

    /// Asks the provider to let the user log in again, if the last login is longer ago than the
    /// whole seconds of `max_age` (section 3.1.2.1). The ID token must then have `auth_time`.
    pub fn set_max_age(self, alloc: Global, max_age: Duration) -> Result<Self, AllocError>
        requires { self.max_age ≡ None }
        ensures { let seconds = as_nanos max_age / 1_000_000_000 in
            IfOk result (λ l. l ≡ record self.entry {
              request = record self.entry.request {
                extra_params = self.entry.request.extra_params ++ max_age_pair seconds ∷ [];
              };
              max_age = Some seconds;
            }) }
    {
        let seconds = max_age.as_secs();
        let value = format!(in alloc; "{seconds}")?;
        Ok(OpenIdLoginRequest {
            login: self.login.add_extra_param("max_age".into(), value.into())?,
            nonce: self.nonce,
            max_age: Some(seconds),
        })
    }

    /// Sets the redirect URI, in place of the client's. The token request repeats it (RFC 6749,
    /// section 4.1.3).
    pub fn set_redirect_uri(self, redirect_uri: &'a RedirectUrl) -> Self
        ensures { result ≡ record self.entry {
          request = record self.entry.request { redirect_url = Some redirect_uri.now };
        } }
    {
        OpenIdLoginRequest {
            login: self.login.set_redirect_uri(redirect_uri),
            nonce: self.nonce,
            max_age: self.max_age,
        }
    }

    /// The URL to send the user to, and what to keep until the user is back. A redirect URI is
    /// required (section 3.1.2.1). An error holds this request, so that `url` can be called again.
    pub fn url(self, alloc: Global) -> Result<(Url, OpenIdLogin), OpenIdLoginUrlError<'a>>
        ensures url { IfOk result (λ (url, _).
            ExtendsQuery self.entry.request.auth_url.url url (query_pairs self.entry.request)) }
        ensures kept { IfOk result (λ (_, login). let request = self.entry.request in
            (uri : Addressed) × (request.redirect_url ≡ Some uri)
            × (login ≡ openid_kept (login_view_of request.state self.entry.verifier uri
            self.entry.issuer request.client_id self.entry.token_url)
            self.entry.nonce self.entry.max_age)) }

        // The parameters that a server finds in the URL.
        ensures shows { IsTrue (avoid_own_names (query_form self.entry.request.auth_url.url))
            → IsTrue (avoid_own_names self.entry.request.extra_params)
            → IfOk result (λ (url, login_view_of). ShowsLogin login_view_of.login (query_form url)) }
        ensures redirect_uri { IfOk result (λ _. IsSome self.entry.request.redirect_url) }
        ensures refusal { IfErr result (λ refused. (refused.request ≡ self.entry)
            × IsUrlFault self.entry.request refused.error) }
    {
        match self.login.url(alloc) {
            Ok((url, login)) => Ok((url, OpenIdLogin::new(login, self.nonce, self.max_age))),
            Err(refused) => Err(OpenIdLoginUrlError {
                error: fault_of(refused.error),
                request: OpenIdLoginRequest {
                    login: refused.request,
                    nonce: self.nonce,
                    max_age: self.max_age,
                },
            }),
        }
    }
}

// The fault of this login, for that of the login by a code.
fn fault_of(fault: LoginUrlFault) -> OpenIdLoginUrlFault
    ensures { result ≡ url_fault fault }
{
    match fault {
        LoginUrlFault::NoRedirectUri => OpenIdLoginUrlFault::NoRedirectUri,
        LoginUrlFault::TooLong => OpenIdLoginUrlFault::TooLong,
        LoginUrlFault::Memory => OpenIdLoginUrlFault::Memory,
    }
}

impl fmt::Debug for OpenIdLoginRequest<'_> {
    ghost debug_output = { λ _. Some (codes "OpenIdLoginRequest([redacted])") };

    fn fmt<W: fmt::Write>(&self, f: &mut fmt::Formatter<W>) -> fmt::Result
        ensures writes { DisplaysOnOk W.write_str_gives f.old result
            (Some (codes "OpenIdLoginRequest([redacted])")) f.new }
        // The same for all options of the formatter, for example `{:#?}`.
        ensures styled { WritesStyledOnOk W.write_str_gives f.old result
            (codes "OpenIdLoginRequest([redacted])") f.new }
    {
        f.write_str("OpenIdLoginRequest([redacted])")
    }
}
