//! The request that pushes an authorization request (RFC 9126, section 2.1).

ghost use Rattle.std.specs.Prelude.{◌≡◌, ◌⊎◌, Err, IfErr, IfOk, None, Some};
ghost use Rattle.http_uri.specs.Uri.{SpellsNone};
ghost use Rattle.url.specs.Parts.{serialize};
ghost use Rattle.oauth2_wire.specs.Once.{AsksOnce};
ghost use Rattle.oauth2_wire.specs.Request.{IsRequestOf, view_of};
ghost use Rattle.oauth2_pushed_requests.specs.Parameters.{added_pairs, push_fault};
ghost use Rattle.oauth2_pushed_requests.specs.Pushed.{
  IsPushOf,
  pushed_answer_of,
  pushed_configuration,
};
ghost use Rattle.oauth2_pushed_requests.specs.declared.push_fault.PushFault.TheVariants.{Memory};

use crate::created_reply::send_push;
use crate::push_fault::PushFault;
use crate::push_form::push_form;
use crate::pushed_authorization_response::PushedAuthorizationResponse;
use crate::pushing_client::PushingClient;
use crate::query_pairs::pushed_pairs;
use oauth2_codes::ErrorResponse;
use oauth2_urls::AuthUrl;
use oauth2_wire::{HttpRequest, RequestFault, RequestTokenError, SyncHttpClient};
use std::alloc::Global;
use std::marker::{Model, PhantomData};
use url::Url;

/// A request that pushes the parameters of an authorization URL, such as that of an
/// `AuthorizationRequest`, a `Login` or an `OpenIdLogin`. It holds secrets, among them the state,
/// and has no debug text.
pub struct PushedAuthorizationRequest<'a, TE> {
    client: PushingClient<'a>,
    pairs: Vec<(String, String)>,
    phantom: PhantomData<TE>,
}

impl<TE> Drop for PushedAuthorizationRequest<'_, TE> {
    fn drop(self) {
        let PushedAuthorizationRequest {
            client: _,
            pairs: _,
            phantom: _,
        } = self;
    }
}

impl<'a, TE> Model for PushedAuthorizationRequest<'a, TE> {
    ghost use Rattle.std.specs.Prelude.{◌≡◌, None, map};
    ghost use Rattle.oauth2_pushed_requests.specs.Parameters.{names_fault};
    ghost use Rattle.oauth2_pushed_requests.specs.Pushed.{PushedRequest};
    ghost use Rattle.oauth2_pushed_requests.specs.private.Read.{pair_texts};

    ghost Value = { PushedRequest };

    ghost view = { λ r. record { client = r.client; pairs = map pair_texts r.pairs.items } };

    ghost invariant = { λ r. names_fault r.client.client_id (map pair_texts r.pairs.items) ≡ None };
}

impl<'a, TE> PushedAuthorizationRequest<'a, TE> {
    /// A request that pushes the parameters of `url`, an authorization URL that was made from
    /// `auth_url`. What `auth_url` has as its own query is not pushed; it must not have `client_id`
    /// or `request_uri`, nor must that of the client's endpoint. `TE` is what an error response is
    /// read as.
    pub fn new(
        alloc: Global,
        client: PushingClient<'a>,
        auth_url: &AuthUrl,
        url: &Url,
    ) -> Result<Self, PushFault>
        ensures client { IfOk result (λ r. r.client ≡ client.entry) }
        ensures pairs { IfOk result (λ r. added_pairs auth_url.now.url url.now ≡ Some r.pairs) }
        ensures ok { let added = added_pairs auth_url.now.url url.now in
            let fault = push_fault client.entry.client_id client.entry.endpoint auth_url.now.url added in
            IfOk result (λ _. fault ≡ None) }
        ensures err { let added = added_pairs auth_url.now.url url.now in
            let fault = push_fault client.entry.client_id client.entry.endpoint auth_url.now.url added in
            IfErr result (λ e. (e ≡ Memory) ⊎ (fault ≡ Some e)) }
    {
        let id = client.client_id.as_str();
        match pushed_pairs(alloc, id, client.endpoint, auth_url.url(), url) {
            Ok(pairs) => Ok(PushedAuthorizationRequest {
                client,
                pairs,
                phantom: PhantomData,
            }),
            Err(fault) => Err(fault),
        }
    }

    /// The POST that `request` sends. `NotHttp` if the endpoint's URL is not an HTTP target.
    pub fn prepare_request(&self, alloc: Global) -> Result<HttpRequest, RequestFault>
        ensures ok { IfOk result (λ r. IsRequestOf (pushed_configuration self.now)
            (serialize self.now.client.endpoint) (view_of r)) }
        ensures push { IfOk result (λ r. IsPushOf self.now (view_of r)) }
        ensures not_http { result ≡ Err RequestFault.NotHttp
            → SpellsNone (serialize self.now.client.endpoint) }
    {
        push_form(alloc, &self.client, self.pairs.as_slice())
    }
}

impl<'a, TE: ErrorResponse> PushedAuthorizationRequest<'a, TE> {
    /// Sends the request, once, and reads its reply. A reply of status 200 is no success, and is a
    /// `Parse` if its body is no error response. The request is kept, so it can be sent again.
    pub fn request<C: SyncHttpClient>(
        &self,
        alloc: Global,
        http_client: &mut C,
    ) -> Result<PushedAuthorizationResponse, RequestTokenError<C::Error, TE>>
        requires { C.is_ready http_client.old }
        ensures once { AsksOnce (λ r. r) TE.meaning C.step
            (pushed_answer_of self.now.client.reply_rule TE.reading)
            (IsRequestOf (pushed_configuration self.now))
            (serialize self.now.client.endpoint) http_client.old result http_client.new }
        ensures ready { C.is_ready http_client.new }
    {
        let prepared = self.prepare_request(alloc);
        send_push(alloc, self.client.reply_rule, prepared, http_client)
    }
}
