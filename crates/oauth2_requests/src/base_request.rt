//! What every request to an endpoint holds.

ghost use Rattle.std.specs.Prelude.{◌≡◌, ◌++◌, ◌∷◌, [], Some, None, Err, IfOk, OnOk, OnErr};
ghost use Rattle.std.specs.Prelude.{List, ℕ, map, option_copied};
ghost use Rattle.std.specs.Iterator.{Drains, IsFinite};
ghost use Rattle.form_urlencoded.specs.Form.{pair_text};
ghost use Rattle.http_uri.specs.Uri.{SpellsNone};
ghost use Rattle.url.specs.Parts.{serialize};
ghost use Rattle.oauth2_wire.specs.Once.{SendsOnce};
ghost use Rattle.oauth2_form.specs.Params.{with_scope, with_scopes};
ghost use Rattle.oauth2_wire.specs.Reply.{answer_of};
ghost use Rattle.oauth2_wire.specs.Request.{IsRequestOf, view_of};
ghost use Rattle.oauth2_wire.specs.Texts.{param_bytes};
ghost use Rattle.oauth2_requests.specs.Base.{configuration_of};

use oauth2_form::ParamBuffer;
use oauth2_json::FromJson;
use oauth2_types::{ClientId, ClientSecret, Scope};
use oauth2_urls::RedirectUrl;
use oauth2_wire::{
    AuthType, HttpRequest, ParamText, ReplyRule, RequestFault, RequestTokenError, SyncHttpClient,
    endpoint_request_encoded, send_once,
};
use std::alloc::{AllocError, Global};
use std::marker::Model;
use url::Url;

/// What every request to an endpoint holds: the client, the added scopes and extra parameters, and
/// the rule for the Content-Type of its reply. Contracts see it as a `Base`.
#[derive(Debug)]
pub struct BaseRequest<'a> {
    auth_type: &'a AuthType,
    client_id: &'a ClientId,
    client_secret: Option<&'a ClientSecret>,
    buffer: ParamBuffer,
    reply_rule: ReplyRule,
}

impl Drop for BaseRequest<'_> {
    fn drop(self) {
        let BaseRequest {
            auth_type: _,
            client_id: _,
            client_secret: _,
            buffer: _,
            reply_rule: _,
        } = self;
    }
}

impl<'a> Model for BaseRequest<'a> {
    ghost use Rattle.std.specs.Prelude.{option_copied};
    ghost use Rattle.oauth2_requests.specs.Base.{Base};

    ghost Value = { Base };

    ghost view = { λ r. record {
      auth_type = r.auth_type.now;
      client_id = r.client_id.now;
      client_secret = option_copied r.client_secret;
      scope = r.buffer.scope;
      extra_params = r.buffer.extra_params;
      reply_rule = r.reply_rule;
    } };
}

impl<'a> BaseRequest<'a> {
    /// What every request of this client holds, with no scope and no extra parameter yet.
    /// `oauth2::Client` builds it; call `new` yourself if you keep your endpoints without a
    /// `Client`.
    pub fn new(
        alloc: Global,
        auth_type: &'a AuthType,
        client_id: &'a ClientId,
        client_secret: Option<&'a ClientSecret>,
        reply_rule: ReplyRule,
    ) -> Self
        ensures { result ≡ record {
          auth_type = auth_type.now;
          client_id = client_id.now;
          client_secret = option_copied client_secret.entry;
          scope = None;
          extra_params = [];
          reply_rule = reply_rule;
        } }
    {
        BaseRequest {
            auth_type,
            client_id,
            client_secret,
            buffer: ParamBuffer::new(alloc),
            reply_rule,
        }
    }

    /// The rule for the Content-Type of the reply.
    pub fn reply_rule(&self) -> ReplyRule
        ensures { result ≡ self.now.reply_rule }
    {
        self.reply_rule
    }

    pub(crate) fn add_scope(&mut self, scope: Scope) -> Result<(), AllocError>
        ensures { OnOk result (self.new ≡ record self.old {
          scope = Some (with_scope self.old.scope scope);
        }) }
    {
        self.buffer.add_scope(scope.as_str())?;
        Ok(())
    }

    pub(crate) fn add_scopes<I: IntoIterator<Item = Scope>>(
        &mut self,
        scopes: I,
    ) -> Result<(), AllocError>
        requires { (it : I.IntoIter) → I.into_iter_gives scopes it
            → I.IntoIter.can_next it × IsFinite (I.IntoIter.remaining it) }
        ensures { OnOk result ((it : I.IntoIter) × (added : List (List ℕ))
            × I.into_iter_gives scopes it × Drains I.IntoIter.next_gives it added
            × (self.new ≡ record self.old { scope = with_scopes self.old.scope added })) }
    {
        for scope in scopes {
            self.add_scope(scope)?;
        }
        Ok(())
    }

    /// Adds an extra parameter. If the request itself sends a parameter with that name, both are
    /// sent. If memory runs out, the request is unchanged.
    pub fn add_extra_param(
        &mut self,
        name: ParamText<'_>,
        value: ParamText<'_>,
    ) -> Result<(), AllocError>
        ensures ok { let added = (param_bytes name.entry, param_bytes value.entry) ∷ [] in
            OnOk result (self.new ≡ record self.old {
              extra_params = self.old.extra_params ++ added;
            }) }
        ensures err { OnErr result (self.new ≡ self.old) }
    {
        self.buffer.add_extra(name.as_str(), value.as_str())?;
        Ok(())
    }

    /// Builds the POST to an endpoint, with the own pairs of the request and its redirect URL. The
    /// error is `NotHttp` if the endpoint URL is not an HTTP target.
    pub fn prepare(
        &self,
        alloc: Global,
        url: &Url,
        redirect_url: Option<&RedirectUrl>,
        own_pairs: &[(&str, &str)],
    ) -> Result<HttpRequest, RequestFault>
        ensures ok { let redirect = option_copied redirect_url.entry in
            IfOk result (λ r. IsRequestOf
            (configuration_of self.now (map pair_text own_pairs.now) redirect)
            (serialize url.now) (view_of r)) }
        ensures not_http { result ≡ Err RequestFault.NotHttp → SpellsNone (serialize url.now) }
    {
        endpoint_request_encoded(
            alloc,
            self.auth_type,
            self.client_id,
            self.client_secret,
            &self.buffer,
            redirect_url,
            url,
            own_pairs,
        )
    }

    // Sends a prepared request once, and reads its reply by the rule of this request.
    pub(crate) fn send_once<C: SyncHttpClient, TE: FromJson, DO: FromJson>(
        &self,
        alloc: Global,
        prepared: Result<HttpRequest, RequestFault>,
        http_client: &mut C,
    ) -> Result<DO, RequestTokenError<C::Error, TE>>
        requires { C.is_ready http_client.old }
        ensures once { SendsOnce DO.meaning TE.meaning C.step
            (answer_of self.now.reply_rule DO.reading TE.reading)
            http_client.old prepared result http_client.new }
        ensures ready { C.is_ready http_client.new }
    {
        send_once(alloc, self.reply_rule, prepared, http_client)
    }
}
