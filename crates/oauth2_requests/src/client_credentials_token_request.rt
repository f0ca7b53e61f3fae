//! The client's own token (RFC 6749, section 4.4.2).

ghost use Rattle.std.specs.Prelude.{◌≡◌, ◌++◌, ◌∷◌, [], Some, IfOk, Err, List, ℕ};
ghost use Rattle.std.specs.Iterator.{Drains, IsFinite};
ghost use Rattle.http_uri.specs.Uri.{SpellsNone};
ghost use Rattle.url.specs.Parts.{serialize};
ghost use Rattle.oauth2_form.specs.Params.{with_scope, with_scopes};
ghost use Rattle.oauth2_wire.specs.Once.{AsksOnce};
ghost use Rattle.oauth2_wire.specs.Reply.{answer_of};
ghost use Rattle.oauth2_wire.specs.Request.{IsRequestOf, view_of};
ghost use Rattle.oauth2_wire.specs.Texts.{param_bytes};
ghost use Rattle.oauth2_requests.specs.ClientCredentials.{client_credentials_configuration};

use crate::base_request::BaseRequest;
use oauth2_codes::ErrorResponse;
use oauth2_replies::TokenResponse;
use oauth2_types::Scope;
use oauth2_urls::TokenUrl;
use oauth2_wire::{HttpRequest, ParamText, RequestFault, RequestTokenError, SyncHttpClient};
use std::alloc::{AllocError, Global};
use std::marker::{Model, PhantomData};

/// A request to exchange the client's own credentials for a token.
#[derive(Drop)]
#[derive_where(Debug)]
pub struct ClientCredentialsTokenRequest<'a, TE, TR> {
    base: BaseRequest<'a>,
    token_url: &'a TokenUrl,
    phantom: PhantomData<(TE, TR)>,
}

impl<'a, TE, TR> Model for ClientCredentialsTokenRequest<'a, TE, TR> {
    ghost use Rattle.oauth2_requests.specs.ClientCredentials.{ClientCredentialsRequest};

    ghost Value = { ClientCredentialsRequest };

    ghost view = { λ r. record {
      base = r.base;
      token_url = r.token_url.now;
    } };
}

impl<'a, TE, TR> ClientCredentialsTokenRequest<'a, TE, TR> {
    /// A request to this endpoint. `oauth2::Client` builds it; call `new` yourself if you keep your
    /// endpoints without a `Client`.
    pub fn new(base: BaseRequest<'a>, token_url: &'a TokenUrl) -> Self
        ensures { result ≡ record { base = base.entry; token_url = token_url.now } }
    {
        ClientCredentialsTokenRequest {
            base,
            token_url,
            phantom: PhantomData,
        }
    }

    /// Adds a scope.
    pub fn add_scope(mut self, scope: Scope) -> Result<Self, AllocError>
        ensures { let joined = with_scope self.entry.base.scope scope in
            IfOk result (λ r. r ≡ record self.entry {
              base = record self.entry.base { scope = Some joined };
            }) }
    {
        self.base.add_scope(scope)?;
        Ok(self)
    }

    /// Adds scopes, in order. The iterator must end.
    pub fn add_scopes<I: IntoIterator<Item = Scope>>(
        mut self,
        scopes: I,
    ) -> Result<Self, AllocError>
        requires { (it : I.IntoIter) → I.into_iter_gives scopes it
            → I.IntoIter.can_next it × IsFinite (I.IntoIter.remaining it) }
        ensures { IfOk result (λ r. (it : I.IntoIter) × (added : List (List ℕ))
            × I.into_iter_gives scopes it × Drains I.IntoIter.next_gives it added
            × (r ≡ record self.entry {
              base =
                  record self.entry.base { scope = with_scopes self.entry.base.scope added };
            })) }
    {
        self.base.add_scopes(scopes)?;
        Ok(self)
    }

    /// Adds an extra parameter. If the request itself sends a parameter with that name, both are
    /// sent.
    pub fn add_extra_param(
        mut self,
        name: ParamText<'a>,
        value: ParamText<'a>,
    ) -> Result<Self, AllocError>
        ensures { let added = (param_bytes name.entry, param_bytes value.entry) ∷ [] in
            IfOk result (λ r. r ≡ record self.entry {
              base =
                  record self.entry.base { extra_params = self.entry.base.extra_params ++ added };
            }) }
    {
        self.base.add_extra_param(name, value)?;
        Ok(self)
    }

    /// The POST that `request` sends. The error is `NotHttp` if the endpoint URL is not an HTTP
    /// target.
    pub fn prepare_request(&self, alloc: Global) -> Result<HttpRequest, RequestFault>
        ensures ok { IfOk result (λ r. IsRequestOf (client_credentials_configuration self.now)
            (serialize self.now.token_url.url) (view_of r)) }
        ensures not_http { result ≡ Err RequestFault.NotHttp
            → SpellsNone (serialize self.now.token_url.url) }
    {
        self.base.prepare(
            alloc,
            self.token_url.url(),
            None,
            &[("grant_type", "client_credentials")],
        )
    }
}

impl<'a, TE: ErrorResponse, TR: TokenResponse> ClientCredentialsTokenRequest<'a, TE, TR> {
    /// Sends the request once, and reads its reply.
    pub fn request<C: SyncHttpClient>(
        self,
        alloc: Global,
        http_client: &mut C,
    ) -> Result<TR, RequestTokenError<C::Error, TE>>
        requires { C.is_ready http_client.old }
        ensures once { AsksOnce TR.meaning TE.meaning C.step
            (answer_of self.entry.base.reply_rule TR.reading TE.reading)
            (IsRequestOf (client_credentials_configuration self.entry))
            (serialize self.entry.token_url.url) http_client.old result http_client.new }
        ensures ready { C.is_ready http_client.new }
    {
        let prepared = self.prepare_request(alloc);
        self.base.send_once(alloc, prepared, http_client)
    }
}
