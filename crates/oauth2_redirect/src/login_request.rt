//! The start of a login: the URL to send the user to, and what to keep until the user is back.

ghost use Rattle.std.specs.Iterator.{Drains, IsFinite};
ghost use Rattle.std.specs.Prelude.{
  ◌≡◌,
  ◌++◌,
  ◌∷◌,
  [],
  ℕ,
  List,
  IfOk,
  IfErr,
  IsTrue,
  Some,
  codes,
  option_copied,
  string_bytes,
};
ghost use Rattle.std.specs.Fmt.{DisplaysOnOk, WritesStyledOnOk};
ghost use Rattle.oauth2_types.specs.Pkce.{sha256_challenge};
ghost use Rattle.oauth2_urls.specs.Addressed.{Addressed};
ghost use Rattle.oauth2_wire.specs.ByName.{avoid_own_names};
ghost use Rattle.oauth2_wire.specs.Texts.{param_bytes};
ghost use Rattle.oauth2_requests.specs.Authorization.{query_pairs};
ghost use Rattle.oauth2_form.specs.Query.{ExtendsQuery, query_form};
ghost use Rattle.oauth2_redirect.specs.Redirect.{expectation_of};
ghost use Rattle.oauth2_redirect.specs.Start.{IsUrlRefusal, ShowsLogin, url_fault};
ghost use Rattle.oauth2_redirect.specs.Login.{login_view_of};

use crate::login::{Login, LoginServer};
use crate::login_url_error::{LoginUrlError, LoginUrlFault};
use oauth2_requests::AuthorizationRequest;
use oauth2_types::{CsrfToken, PkceCodeVerifier, Scope, TryClone};
use oauth2_urls::RedirectUrl;
use oauth2_wire::ParamText;
use std::alloc::{AllocError, Global};
use std::fmt;
use std::marker::Model;
use url::{ParseError, Url};

/// A login that is being started. Contracts see the request for its URL, and its verifier.
#[derive(Drop)]
pub struct LoginRequest<'a> {
    request: AuthorizationRequest<'a>,
    state: CsrfToken,
    verifier: PkceCodeVerifier,
    redirect_uri: Option<&'a RedirectUrl>,
    server: LoginServer,
}

impl<'a> Model for LoginRequest<'a> {
    ghost use Rattle.std.specs.Prelude.{◌≡◌, Some, option_copied, string_bytes};
    ghost use Rattle.oauth2_types.specs.Pkce.{sha256_challenge};
    ghost use Rattle.oauth2_redirect.specs.Redirect.{expectation_of};
    ghost use Rattle.oauth2_redirect.specs.Start.{Starting};

    ghost Value = { Starting };

    ghost view = { λ l. record {
      request = l.request;
      verifier = l.verifier;
      issuer = expectation_of l.server.issuer;
      token_url = string_bytes l.server.token_url;
    } };

    // The request sends the verifier's challenge, and the state, the redirect URI and the client's
    // identifier that are kept.
    ghost invariant = { λ l. (l.request.pkce_challenge ≡ Some (sha256_challenge l.verifier))
        × (l.request.state ≡ l.state)
        × (l.request.redirect_url ≡ option_copied l.redirect_uri)
        × (l.request.client_id ≡ l.server.client_id) };
}

impl<'a> LoginRequest<'a> {
    // A login at this server by this request, which sends the verifier's challenge, the state, the
    // redirect URI and the client's identifier.
    pub(crate) fn new(
        request: AuthorizationRequest<'a>,
        state: CsrfToken,
        verifier: PkceCodeVerifier,
        redirect_uri: Option<&'a RedirectUrl>,
        server: LoginServer,
    ) -> Self
        requires challenge { request.pkce_challenge ≡ Some (sha256_challenge verifier) }
        requires state { request.state ≡ state }
        requires redirect_uri { request.redirect_url ≡ option_copied redirect_uri }
        requires client_id { request.client_id ≡ server.client_id }
        ensures { result ≡ record {
          request = request.entry;
          verifier = verifier;
          issuer = expectation_of server.issuer;
          token_url = string_bytes server.token_url;
        } }
    {
        LoginRequest {
            request,
            state,
            verifier,
            redirect_uri,
            server,
        }
    }

    /// The redirect URI in the URL, if there is one.
    pub fn redirect_uri(&self) -> Option<&RedirectUrl>
        ensures { option_copied result ≡ self.now.request.redirect_url }
    {
        self.redirect_uri
    }

    /// Adds a scope.
    pub fn add_scope(self, scope: Scope) -> Result<Self, AllocError>
        ensures { IfOk result (λ l. l ≡ record self.entry {
          request = record self.entry.request {
            scopes = self.entry.request.scopes ++ scope ∷ [];
          };
        }) }
    {
        Ok(LoginRequest {
            request: self.request.add_scope(scope)?,
            state: self.state,
            verifier: self.verifier,
            redirect_uri: self.redirect_uri,
            server: self.server,
        })
    }

    /// Adds scopes, in order, from an iterator that ends.
    pub fn add_scopes<I: IntoIterator<Item = Scope>>(self, scopes: I) -> Result<Self, AllocError>
        requires { (it : I.IntoIter) → I.into_iter_gives scopes it
            → I.IntoIter.can_next it × IsFinite (I.IntoIter.remaining it) }
        ensures { IfOk result (λ l. (it : I.IntoIter) × (added : List (List ℕ))
            × I.into_iter_gives scopes it × Drains I.IntoIter.next_gives it added
            × (l ≡ record self.entry {
              request = record self.entry.request {
                scopes = self.entry.request.scopes ++ added;
              };
            })) }
    {
        Ok(LoginRequest {
            request: self.request.add_scopes(scopes)?,
            state: self.state,
            verifier: self.verifier,
            redirect_uri: self.redirect_uri,
            server: self.server,
        })
    }

    /// Adds a parameter. If the login itself sends one with that name, both are sent.
    pub fn add_extra_param(
        self,
        name: ParamText<'a>,
        value: ParamText<'a>,
    ) -> Result<Self, AllocError>
        ensures { let added = (param_bytes name.entry, param_bytes value.entry) ∷ [] in
            IfOk result (λ l. l ≡ record self.entry {
              request = record self.entry.request {
                extra_params = self.entry.request.extra_params ++ added;
              };
            }) }
    {
        Ok(LoginRequest {
            request: self.request.add_extra_param(name, value)?,
            state: self.state,
            verifier: self.verifier,
            redirect_uri: self.redirect_uri,
            server: self.server,
        })
    }

    /// Sets the redirect URI, in place of the client's. The token request repeats it (RFC 6749,
    /// section 4.1.3).
    pub fn set_redirect_uri(self, redirect_uri: &'a RedirectUrl) -> Self
        ensures { result ≡ record self.entry {
          request = record self.entry.request { redirect_url = Some redirect_uri.now };
        } }
    {
        LoginRequest {
            request: self.request.set_redirect_uri(redirect_uri.into()),
            state: self.state,
            verifier: self.verifier,
            redirect_uri: Some(redirect_uri),
            server: self.server,
        }
    }

    /// The URL to send the user to, and what to keep until the user is back. A redirect URI is
    /// required, since the redirect must come to it. An error holds this request, so that `url` can
    /// be called again.
    pub fn url(self, alloc: Global) -> Result<(Url, Login), LoginUrlError<'a>>
        ensures url { IfOk result (λ (url, _).
            ExtendsQuery self.entry.request.auth_url.url url (query_pairs self.entry.request)) }
        ensures kept { IfOk result (λ (_, login). let request = self.entry.request in
            (uri : Addressed) × (request.redirect_url ≡ Some uri)
            × (login ≡ login_view_of request.state self.entry.verifier uri self.entry.issuer
            request.client_id self.entry.token_url)) }

        // The parameters that a server finds in the URL.
        ensures shows { IsTrue (avoid_own_names (query_form self.entry.request.auth_url.url))
            → IsTrue (avoid_own_names self.entry.request.extra_params)
            → IfOk result (λ (url, login). ShowsLogin login (query_form url)) }
        ensures refusal { IfErr result (λ refused. (refused.request ≡ self.entry)
            × IsUrlRefusal self.entry.request refused.error) }
    {
        match self.url_and_redirect_uri(alloc) {
            Ok((url, redirect_uri)) => Ok((
                url,
                Login::new(self.state, self.verifier, redirect_uri, self.server),
            )),
            Err(error) => Err(LoginUrlError {
                error,
                request: self,
            }),
        }
    }

    // The URL, and a copy of the redirect URI.
    fn url_and_redirect_uri(&self, alloc: Global) -> Result<(Url, RedirectUrl), LoginUrlFault>
        ensures url { IfOk result (λ (url, _).
            ExtendsQuery self.now.request.auth_url.url url (query_pairs self.now.request)) }
        ensures redirect_uri { IfOk result (λ (_, uri). self.now.request.redirect_url ≡ Some uri) }
        ensures refusal { IfErr result (IsUrlRefusal self.now.request) }
    {
        let Some(redirect_uri) = self.redirect_uri else {
            return Err(LoginUrlFault::NoRedirectUri);
        };
        // Made first, so that a URL that is too long is reported even if the copy would fail.
        let url = match self.request.authorization_url(alloc) {
            Ok(url) => url,
            Err(error) => return Err(fault_of(error)),
        };
        match redirect_uri.try_clone(alloc) {
            Ok(redirect_uri) => Ok((url, redirect_uri)),
            Err(_) => Err(LoginUrlFault::Memory),
        }
    }
}

// The fault for an error of making the URL.
fn fault_of(error: ParseError) -> LoginUrlFault
    ensures { result ≡ url_fault error }
{
    match error {
        ParseError::Overflow => LoginUrlFault::TooLong,
        _ => LoginUrlFault::Memory,
    }
}

impl fmt::Debug for LoginRequest<'_> {
    ghost debug_output = { λ _. Some (codes "LoginRequest([redacted])") };

    fn fmt<W: fmt::Write>(&self, f: &mut fmt::Formatter<W>) -> fmt::Result
        ensures writes { DisplaysOnOk W.write_str_gives f.old result
            (Some (codes "LoginRequest([redacted])")) f.new }
        // The same for all options of the formatter, for example `{:#?}`.
        ensures styled { WritesStyledOnOk W.write_str_gives f.old result
            (codes "LoginRequest([redacted])") f.new }
    {
        f.write_str("LoginRequest([redacted])")
    }
}
