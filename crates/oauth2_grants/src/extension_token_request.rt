//! A request to the token endpoint by a grant type that is a URI (RFC 6749, section 4.5).

ghost use Rattle.std.specs.Prelude.{◌≡◌, ◌↔◌, ◌∷◌, [], Some, Ok, IfOk, Err, IfErr, OnOk, IsOkAnd, IsErrAnd, IsTrue, false};
ghost use Rattle.std.specs.Prelude.{List, ℕ, codes, if◌then◌else◌};
ghost use Rattle.std.specs.Iterator.{Drains, IsFinite};
ghost use Rattle.http_uri.specs.Uri.{SpellsNone};
ghost use Rattle.url.specs.Parts.{serialize};
ghost use Rattle.oauth2_form.specs.Params.{with_scope, with_scopes};
ghost use Rattle.oauth2_wire.specs.Once.{AsksOnce};
ghost use Rattle.oauth2_wire.specs.Reply.{answer_of};
ghost use Rattle.oauth2_wire.specs.Request.{IsRequestOf, view_of};
ghost use Rattle.oauth2_wire.specs.Texts.{param_bytes};
ghost use Rattle.oauth2_resource_indicators.specs.AbsoluteUri.{is_absolute_uri};
ghost use Rattle.oauth2_grants.specs.Extension.{
  extension_configuration,
  is_taken,
  new_extension_request,
  with_params,
};
ghost use Rattle.oauth2_grants.specs.private.Params.{of_params};
ghost use Rattle.oauth2_grants.specs.declared.grant_fault.GrantFault.TheVariants.{
  GrantTypeIsNoUri,
  Memory,
  NameIsTaken,
  ResourceIsNoUri,
};

use crate::grant_fault::GrantFault;
use crate::token_client::TokenClient;
use oauth2_codes::ErrorResponse;
use oauth2_form::ParamBuffer;
use oauth2_replies::TokenResponse;
use oauth2_resource_indicators::is_absolute_uri;
use oauth2_types::Scope;
use oauth2_wire::{
    HttpRequest, ParamText, RequestFault, RequestTokenError, SyncHttpClient,
    endpoint_request_encoded, send_once,
};
use std::alloc::{AllocError, Global};
use std::marker::{Model, PhantomData};

/// A request for a token by a grant type that is a URI. It holds secrets and has no debug text.
pub struct ExtensionTokenRequest<'a, TE, TR> {
    client: TokenClient<'a>,
    grant_type: &'a str,
    buffer: ParamBuffer,
    phantom: PhantomData<(TE, TR)>,
}

impl<TE, TR> Drop for ExtensionTokenRequest<'_, TE, TR> {
    fn drop(self) {
        let ExtensionTokenRequest {
            client: _,
            grant_type: _,
            buffer: _,
            phantom: _,
        } = self;
    }
}

impl<'a, TE, TR> Model for ExtensionTokenRequest<'a, TE, TR> {
    ghost use Rattle.oauth2_grants.specs.Extension.{ExtensionRequest};

    ghost Value = { ExtensionRequest };

    ghost view = { λ r. record {
      base = record {
        auth_type = r.client.auth_type;
        client_id = r.client.client_id;
        client_secret = r.client.client_secret;
        scope = r.buffer.scope;
        extra_params = r.buffer.extra_params;
        reply_rule = r.client.reply_rule;
      };
      token_url = r.client.token_url;
      grant_type = r.grant_type.now;
    } };
}

impl<'a, TE, TR> ExtensionTokenRequest<'a, TE, TR> {
    /// A request of this client by this grant type. `TE` and `TR` are what the reply is read as.
    pub fn new(
        alloc: Global,
        client: TokenClient<'a>,
        grant_type: &'a str,
    ) -> Result<Self, GrantFault>
        ensures uri { IsTrue (is_absolute_uri grant_type.now)
            → IsOkAnd result (λ r. r ≡ new_extension_request client.entry grant_type.now) }
        ensures no_uri { is_absolute_uri grant_type.now ≡ false
            → IsErrAnd result (λ e. e ≡ GrantTypeIsNoUri) }
    {
        if !is_absolute_uri(grant_type) {
            return Err(GrantFault::GrantTypeIsNoUri);
        }
        Ok(ExtensionTokenRequest::of_params(client, grant_type, ParamBuffer::new(alloc)))
    }

    // A request with these parameters, by a grant type that is known to be a URI.
    pub(crate) fn of_params(
        client: TokenClient<'a>,
        grant_type: &'a str,
        params: ParamBuffer,
    ) -> Self
        ensures { result ≡ of_params client.entry grant_type.now params }
    {
        ExtensionTokenRequest {
            client,
            grant_type,
            buffer: params,
            phantom: PhantomData,
        }
    }

    /// Adds a scope.
    pub fn add_scope(mut self, scope: Scope) -> Result<Self, AllocError>
        ensures { let joined = with_scope self.entry.base.scope scope in
            IfOk result (λ r. r ≡ record self.entry {
              base = record self.entry.base { scope = Some joined };
            }) }
    {
        self.buffer.add_scope(scope.as_str())?;
        Ok(self)
    }

    /// Adds scopes, in order, from an iterator that ends.
    pub fn add_scopes<I: IntoIterator<Item = Scope>>(
        mut self,
        scopes: I,
    ) -> Result<Self, AllocError>
        requires { (it : I.IntoIter) → I.into_iter_gives scopes it
            → I.IntoIter.can_next it × IsFinite (I.IntoIter.remaining it) }
        ensures { IfOk result (λ r. (it : I.IntoIter) × (added : List (List ℕ))
            × I.into_iter_gives scopes it × Drains I.IntoIter.next_gives it added
            × (r ≡ record self.entry {
              base =
                  record self.entry.base { scope = with_scopes self.entry.base.scope added };
            })) }
    {
        add_scopes(&mut self.buffer, scopes)?;
        Ok(self)
    }

    /// Adds a parameter. A name that the request sends itself is refused; any other may be added
    /// more than once.
    pub fn add_param(
        mut self,
        name: ParamText<'_>,
        value: ParamText<'_>,
    ) -> Result<Self, GrantFault>
        ensures ok { let added = (param_bytes name.entry, param_bytes value.entry) ∷ [] in
            IfOk result (λ r. (is_taken (param_bytes name.entry) ≡ false)
            × (r ≡ with_params self.entry added)) }
        ensures err { IfErr result (λ e. e
            ≡ (if is_taken (param_bytes name.entry) then NameIsTaken else Memory)) }
    {
        if is_taken(name.as_str()) {
            return Err(GrantFault::NameIsTaken);
        }
        self.buffer.add_extra(name.as_str(), value.as_str())?;
        Ok(self)
    }

    /// Adds a resource that the token is meant for: an absolute URI without a fragment (RFC 8707,
    /// section 2.2). A request may have any number of them.
    pub fn add_resource(mut self, resource: ParamText<'_>) -> Result<Self, GrantFault>
        ensures ok { let added = (codes "resource", param_bytes resource.entry) ∷ [] in
            IfOk result (λ r. IsTrue (is_absolute_uri (param_bytes resource.entry))
            × (r ≡ with_params self.entry added)) }
        ensures err { IfErr result (λ e. e
            ≡ (if is_absolute_uri (param_bytes resource.entry) then Memory else ResourceIsNoUri)) }
    {
        if !is_absolute_uri(resource.as_str()) {
            return Err(GrantFault::ResourceIsNoUri);
        }
        self.buffer.add_extra("resource", resource.as_str())?;
        Ok(self)
    }

    /// The POST that `request` sends. `NotHttp` if the endpoint's URL is not an HTTP target.
    pub fn prepare_request(&self, alloc: Global) -> Result<HttpRequest, RequestFault>
        ensures ok { IfOk result (λ r. IsRequestOf (extension_configuration self.now)
            (serialize self.now.token_url.url) (view_of r)) }
        ensures not_http { result ≡ Err RequestFault.NotHttp
            → SpellsNone (serialize self.now.token_url.url) }
    {
        let client = &self.client;
        endpoint_request_encoded(
            alloc,
            client.auth_type,
            client.client_id,
            client.client_secret,
            &self.buffer,
            None,
            client.token_url.url(),
            &[("grant_type", self.grant_type)],
        )
    }
}

// Adds the scopes, in order.
fn add_scopes<I: IntoIterator<Item = Scope>>(
    buffer: &mut ParamBuffer,
    scopes: I,
) -> Result<(), AllocError>
    requires { (it : I.IntoIter) → I.into_iter_gives scopes it
        → I.IntoIter.can_next it × IsFinite (I.IntoIter.remaining it) }
    ensures { OnOk result ((it : I.IntoIter) × (added : List (List ℕ))
        × I.into_iter_gives scopes it × Drains I.IntoIter.next_gives it added
        × (buffer.new ≡ record buffer.old { scope = with_scopes buffer.old.scope added })) }
{
    for scope in scopes {
        buffer.add_scope(scope.as_str())?;
    }
    Ok(())
}

// Whether the request sends a parameter of this name itself.
fn is_taken(name: &str) -> bool
    ensures { result ≡ is_taken name.now }
{
    name == "grant_type" || name == "scope" || name == "client_id" || name == "client_secret"
}

impl<'a, TE: ErrorResponse, TR: TokenResponse> ExtensionTokenRequest<'a, TE, TR> {
    /// Sends the request, once, and reads its reply.
    pub fn request<C: SyncHttpClient>(
        self,
        alloc: Global,
        http_client: &mut C,
    ) -> Result<TR, RequestTokenError<C::Error, TE>>
        requires { C.is_ready http_client.old }
        ensures once { AsksOnce TR.meaning TE.meaning C.step
            (answer_of self.entry.base.reply_rule TR.reading TE.reading)
            (IsRequestOf (extension_configuration self.entry))
            (serialize self.entry.token_url.url) http_client.old result http_client.new }
        ensures ready { C.is_ready http_client.new }
    {
        let prepared = self.prepare_request(alloc);
        send_once(alloc, self.client.reply_rule, prepared, http_client)
    }
}
