//! A login client that pushes the parameters of its logins.

ghost use Rattle.std.specs.Prelude.{◌≡◌, ◌⊎◌, None, Some, IfErr, IfOk, option_copied};
ghost use Rattle.oauth2_urls.specs.Addressed.{Addressed};
ghost use Rattle.oauth2_pushed_requests.specs.Parameters.{added_pairs, push_fault};
ghost use Rattle.oauth2_pushed_requests.specs.declared.push_fault.PushFault.TheVariants.{Memory};
ghost use Rattle.oauth2_pushed_login.specs.PushedUrl.{EndsPush, IsUrlOf, pushing_client};

use crate::push_login_error::PushLoginError;
use oauth2_codes::ErrorResponse;
use oauth2_metadata::DiscoveredLoginClient;
use oauth2_pushed_requests::{
    PushFault, PushedAuthorizationRequest, PushedAuthorizationResponse, PushingClient,
};
use oauth2_types::ClientSecret;
use oauth2_wire::{RequestTokenError, SyncHttpClient};
use std::alloc::Global;
use std::marker::Model;
use url::{ParseError, Url};

/// A client for logins, and the endpoint to which it pushes their parameters. Contracts see it as a
/// `PushingLogin`.
pub struct PushingLoginClient<TE, TR, TIR, RT, TRE> {
    client: DiscoveredLoginClient<TE, TR, TIR, RT, TRE>,
    endpoint: Url,
}

impl<TE, TR, TIR, RT, TRE> Drop for PushingLoginClient<TE, TR, TIR, RT, TRE> {
    fn drop(self) {
        let PushingLoginClient {
            client: _,
            endpoint: _,
        } = self;
    }
}

impl<TE, TR, TIR, RT, TRE> Model for PushingLoginClient<TE, TR, TIR, RT, TRE> {
    ghost use Rattle.oauth2_pushed_login.specs.PushedUrl.{PushingLogin};

    ghost Value = { PushingLogin };

    ghost view = { λ c. record { client = c.client; endpoint = c.endpoint } };
}

impl<TE, TR, TIR, RT, TRE> PushingLoginClient<TE, TR, TIR, RT, TRE> {
    // A client that pushes to this endpoint.
    pub(crate) fn new(
        client: DiscoveredLoginClient<TE, TR, TIR, RT, TRE>,
        endpoint: Url,
    ) -> PushingLoginClient<TE, TR, TIR, RT, TRE>
        ensures { result ≡ record { client = client; endpoint = endpoint } }
    {
        PushingLoginClient { client, endpoint }
    }

    /// The client, by which a login is started and finished.
    pub fn client(&self) -> &DiscoveredLoginClient<TE, TR, TIR, RT, TRE>
        ensures { result.now ≡ self.now.client }
    {
        &self.client
    }

    /// The endpoint to which it pushes.
    pub fn endpoint(&self) -> &Url
        ensures { result.now ≡ self.now.endpoint }
    {
        &self.endpoint
    }

    // The push of the parameters of `url`.
    fn request<'a>(
        &'a self,
        alloc: Global,
        client_secret: Option<&'a ClientSecret>,
        url: &Url,
    ) -> Result<PushedAuthorizationRequest<'a, TE>, PushFault>
        ensures client { IfOk result (λ r.
            r.client ≡ pushing_client self.now (option_copied client_secret.entry)) }
        ensures ok { IfOk result (λ r. (auth_url : Addressed) × (self.now.client.auth_url ≡ Some auth_url)
            × (added_pairs auth_url.url url.now ≡ Some r.pairs)
            × (push_fault self.now.client.client_id self.now.endpoint auth_url.url (Some r.pairs)
            ≡ None)) }
        ensures err { IfErr result (λ e.
            (auth_url : Addressed) × (self.now.client.auth_url ≡ Some auth_url)
            × ((e ≡ Memory) ⊎ (push_fault self.now.client.client_id self.now.endpoint auth_url.url
            (added_pairs auth_url.url url.now) ≡ Some e))) }
    {
        let client = PushingClient::new(
            self.client.auth_type(),
            self.client.client_id(),
            client_secret,
            self.client.reply_rule(),
            self.endpoint(),
        );
        PushedAuthorizationRequest::new(alloc, client, self.client.auth_uri(), url)
    }

    // The short URL of a request that was pushed, or why there is none.
    fn short_url<RE>(
        &self,
        alloc: Global,
        outcome: Result<PushedAuthorizationResponse, RequestTokenError<RE, TE>>,
    ) -> Result<Url, PushLoginError<RE, TE>>
        ensures { (auth_url : Addressed) × (self.now.client.auth_url ≡ Some auth_url)
            × IsUrlOf self.now.client.client_id auth_url.url outcome result }
    {
        let auth_url = self.client.auth_uri();
        match outcome {
            Ok(pushed) => match pushed.authorization_url(alloc, auth_url, self.client.client_id()) {
                Ok(url) => Ok(url),
                Err(error) => Err(PushLoginError::Url(error)),
            },
            Err(error) => Err(PushLoginError::Request(error)),
        }
    }
}

impl<TE: ErrorResponse, TR, TIR, RT, TRE> PushingLoginClient<TE, TR, TIR, RT, TRE> {
    /// Pushes the parameters of `url`, which is the authorization URL of a login that this client
    /// started, and returns the short URL to send the user to instead. The client's secret, if it
    /// has one, is given again. The login is finished as ever.
    pub fn push<C: SyncHttpClient>(
        &self,
        alloc: Global,
        client_secret: Option<&ClientSecret>,
        url: &Url,
        http_client: &mut C,
    ) -> Result<Url, PushLoginError<C::Error, TE>>
        requires { C.is_ready http_client.old }
        ensures end { EndsPush TE.meaning TE.reading C.step self.now
            (option_copied client_secret.entry) url.now http_client.old result http_client.new }
        ensures ready { C.is_ready http_client.new }
    {
        match self.request(alloc, client_secret, url) {
            Ok(request) => {
                let outcome = request.request(alloc, http_client);
                self.short_url(alloc, outcome)
            }
            Err(fault) => Err(PushLoginError::Push(fault)),
        }
    }
}
