//! The configuration of a client.

ghost use Rattle.std.specs.Prelude.{◌≡◌, Some, None, IfOk, IfSome, IfNone, IsOkAnd, IsErrAnd};
ghost use Rattle.std.specs.Prelude.{codes, option_copied};
ghost use Rattle.oauth2_wire.specs.ConfigurationError.{IsMissingUrl};
ghost use Rattle.oauth2_wire.specs.declared.content_type.ReplyRule.TheVariants.{Prefix};
ghost use Rattle.oauth2_wire.specs.declared.request.AuthType.TheVariants.{BasicAuth};

use crate::client_text::ClientText;
use crate::endpoint::{EndpointMaybeSet, EndpointNotSet, EndpointSet, EndpointState};
use oauth2_codes::{BasicErrorResponse, BasicRevocationErrorResponse};
use oauth2_introspection::BasicTokenIntrospectionResponse;
use oauth2_replies::{BasicTokenResponse, StandardRevocableToken};
use oauth2_types::display::write_display;
use oauth2_types::{ClientId, ClientSecret, TryClone};
use oauth2_urls::{
    AuthUrl, DeviceAuthorizationUrl, IntrospectionUrl, RedirectUrl, RevocationUrl, TokenUrl,
};
use oauth2_wire::{AuthType, ConfigurationError, ReplyRule};
use std::alloc::{AllocError, Global};
use std::fmt;
use std::fmt::Debug;
use std::marker::{Model, PhantomData};

/// The configuration of a client. Its type says which endpoints have a URL.
///
/// The first five type parameters are the error response, the token response, the introspection
/// response, the revocable token and the error response of a revocation; a client holds no value of
/// these types. The other five are the states of the endpoints, which `impl` blocks call `A`
/// (authorization), `D` (device authorization), `I` (introspection), `R` (revocation) and `T`
/// (token). Contracts see a client of any type as its `Settings`.
pub struct Client<
    TE,
    TR,
    TIR,
    RT,
    TRE,
    HasAuthUrl = EndpointNotSet,
    HasDeviceAuthUrl = EndpointNotSet,
    HasIntrospectionUrl = EndpointNotSet,
    HasRevocationUrl = EndpointNotSet,
    HasTokenUrl = EndpointNotSet,
>
where
    HasAuthUrl: EndpointState,
    HasDeviceAuthUrl: EndpointState,
    HasIntrospectionUrl: EndpointState,
    HasRevocationUrl: EndpointState,
    HasTokenUrl: EndpointState,
{
    parts: Parts,
    endpoints: Endpoints,
    phantom: PhantomData<
        (
            TE,
            TR,
            TIR,
            RT,
            TRE,
            HasAuthUrl,
            HasDeviceAuthUrl,
            HasIntrospectionUrl,
            HasRevocationUrl,
            HasTokenUrl,
        ),
    >,
}

impl<
    TE,
    TR,
    TIR,
    RT,
    TRE,
    HasAuthUrl,
    HasDeviceAuthUrl,
    HasIntrospectionUrl,
    HasRevocationUrl,
    HasTokenUrl,
> Drop
    for Client<
        TE,
        TR,
        TIR,
        RT,
        TRE,
        HasAuthUrl,
        HasDeviceAuthUrl,
        HasIntrospectionUrl,
        HasRevocationUrl,
        HasTokenUrl,
    >
where
    HasAuthUrl: EndpointState,
    HasDeviceAuthUrl: EndpointState,
    HasIntrospectionUrl: EndpointState,
    HasRevocationUrl: EndpointState,
    HasTokenUrl: EndpointState,
{
    fn drop(self) {
        let Client {
            parts: _,
            endpoints: _,
            phantom: _,
        } = self;
    }
}

// The settings of a client other than its endpoints.
#[derive(Drop)]
pub(crate) struct Parts {
    pub(crate) client_id: ClientId,
    pub(crate) client_secret: Option<ClientSecret>,
    pub(crate) auth_type: AuthType,
    pub(crate) reply_rule: ReplyRule,
    pub(crate) redirect_url: Option<RedirectUrl>,
}

// The endpoints of a client.
#[derive(Drop)]
pub(crate) struct Endpoints {
    pub(crate) auth_url: Option<AuthUrl>,
    pub(crate) device_authorization_url: Option<DeviceAuthorizationUrl>,
    pub(crate) introspection_url: Option<IntrospectionUrl>,
    pub(crate) revocation_url: Option<RevocationUrl>,
    pub(crate) token_url: Option<TokenUrl>,
}

impl Parts {
    #[tactic(auto, using(std::proofs::lemmas::Iterator::Adapters::option_map_id))]
    fn try_clone(&self, alloc: Global) -> Result<Parts, AllocError>
        ensures { IfOk result (λ copy. copy ≡ self.now) }
    {
        Ok(Parts {
            client_id: self.client_id.try_clone(alloc)?,
            client_secret: self.client_secret.try_clone(alloc)?,
            auth_type: self.auth_type,
            reply_rule: self.reply_rule,
            redirect_url: self.redirect_url.try_clone(alloc)?,
        })
    }
}

impl Endpoints {
    #[tactic(auto, using(std::proofs::lemmas::Iterator::Adapters::option_map_id))]
    fn try_clone(&self, alloc: Global) -> Result<Endpoints, AllocError>
        ensures { IfOk result (λ copy. copy ≡ self.now) }
    {
        let (auth_url, token_url) = self.copied_of_code(alloc)?;
        let (introspection_url, revocation_url) = self.copied_of_tokens(alloc)?;
        Ok(Endpoints {
            auth_url,
            device_authorization_url: self.device_authorization_url.try_clone(alloc)?,
            introspection_url,
            revocation_url,
            token_url,
        })
    }

    // Copies the two endpoints of the authorization code grant.
    #[tactic(auto, using(std::proofs::lemmas::Iterator::Adapters::option_map_id))]
    fn copied_of_code(
        &self,
        alloc: Global,
    ) -> Result<(Option<AuthUrl>, Option<TokenUrl>), AllocError>
        ensures auth { IfOk result (λ urls. urls.0 ≡ self.now.auth_url) }
        ensures token { IfOk result (λ urls. urls.1 ≡ self.now.token_url) }
    {
        Ok((
            self.auth_url.try_clone(alloc)?,
            self.token_url.try_clone(alloc)?,
        ))
    }

    // Copies the introspection endpoint and the revocation endpoint.
    #[tactic(auto, using(std::proofs::lemmas::Iterator::Adapters::option_map_id))]
    fn copied_of_tokens(
        &self,
        alloc: Global,
    ) -> Result<(Option<IntrospectionUrl>, Option<RevocationUrl>), AllocError>
        ensures introspection { IfOk result (λ urls. urls.0 ≡ self.now.introspection_url) }
        ensures revocation { IfOk result (λ urls. urls.1 ≡ self.now.revocation_url) }
    {
        Ok((
            self.introspection_url.try_clone(alloc)?,
            self.revocation_url.try_clone(alloc)?,
        ))
    }
}

// An impl of `Model` has to name the parameters as the struct does.
impl<
    TE,
    TR,
    TIR,
    RT,
    TRE,
    HasAuthUrl,
    HasDeviceAuthUrl,
    HasIntrospectionUrl,
    HasRevocationUrl,
    HasTokenUrl,
> Model
    for Client<
        TE,
        TR,
        TIR,
        RT,
        TRE,
        HasAuthUrl,
        HasDeviceAuthUrl,
        HasIntrospectionUrl,
        HasRevocationUrl,
        HasTokenUrl,
    >
where
    HasAuthUrl: EndpointState,
    HasDeviceAuthUrl: EndpointState,
    HasIntrospectionUrl: EndpointState,
    HasRevocationUrl: EndpointState,
    HasTokenUrl: EndpointState,
{
    ghost use Rattle.std.specs.Prelude.{IsTrue, is_some};
    ghost use Rattle.oauth2.specs.Settings.{Settings};

    ghost Value = { Settings };

    ghost view = { λ c. record {
      client_id = c.parts.client_id;
      client_secret = c.parts.client_secret;
      auth_type = c.parts.auth_type;
      reply_rule = c.parts.reply_rule;
      redirect_url = c.parts.redirect_url;
      auth_url = c.endpoints.auth_url;
      device_authorization_url = c.endpoints.device_authorization_url;
      introspection_url = c.endpoints.introspection_url;
      revocation_url = c.endpoints.revocation_url;
      token_url = c.endpoints.token_url;
    } };

    ghost invariant = { λ c.
        IsTrue (HasAuthUrl.allows (is_some c.endpoints.auth_url))
        × IsTrue (HasDeviceAuthUrl.allows (is_some c.endpoints.device_authorization_url))
        × IsTrue (HasIntrospectionUrl.allows (is_some c.endpoints.introspection_url))
        × IsTrue (HasRevocationUrl.allows (is_some c.endpoints.revocation_url))
        × IsTrue (HasTokenUrl.allows (is_some c.endpoints.token_url)) };
}

impl<TE, TR, TIR, RT, TRE> Client<TE, TR, TIR, RT, TRE> {
    /// A client with no secret, no redirect URL and no endpoint. It sends its credentials by HTTP
    /// Basic, and takes a success without a Content-Type, or with one that begins with
    /// `application/json` (`Prefix`).
    pub fn new(client_id: ClientId) -> Self
        ensures { result ≡ record {
          client_id = client_id;
          client_secret = None;
          auth_type = BasicAuth;
          reply_rule = Prefix;
          redirect_url = None;
          auth_url = None;
          device_authorization_url = None;
          introspection_url = None;
          revocation_url = None;
          token_url = None;
        } }
    {
        Client {
            parts: Parts {
                client_id,
                client_secret: None,
                auth_type: AuthType::BasicAuth,
                reply_rule: ReplyRule::Prefix,
                redirect_url: None,
            },
            endpoints: Endpoints {
                auth_url: None,
                device_authorization_url: None,
                introspection_url: None,
                revocation_url: None,
                token_url: None,
            },
            phantom: PhantomData,
        }
    }
}

impl<TE, TR, TIR, RT, TRE, A, D, I, R, T> Client<TE, TR, TIR, RT, TRE, A, D, I, R, T>
where
    A: EndpointState,
    D: EndpointState,
    I: EndpointState,
    R: EndpointState,
    T: EndpointState,
{
    /// Sets how the client sends its identifier and its secret.
    pub fn set_auth_type(mut self, auth_type: AuthType) -> Self
        ensures { result ≡ record self { auth_type = auth_type } }
    {
        self.parts.auth_type = auth_type;
        self
    }

    /// Sets the rule for the Content-Type of the replies. The reply to a revocation is read without
    /// it.
    pub fn set_reply_rule(mut self, reply_rule: ReplyRule) -> Self
        ensures { result ≡ record self { reply_rule = reply_rule } }
    {
        self.parts.reply_rule = reply_rule;
        self
    }

    /// Sets the client secret.
    pub fn set_client_secret(mut self, client_secret: ClientSecret) -> Self
        ensures { result ≡ record self { client_secret = Some client_secret } }
    {
        self.parts.client_secret = Some(client_secret);
        self
    }

    /// Sets the redirect URL. Requests send it unless they set their own.
    pub fn set_redirect_uri(mut self, redirect_url: RedirectUrl) -> Self
        ensures { result ≡ record self { redirect_url = Some redirect_url } }
    {
        self.parts.redirect_url = Some(redirect_url);
        self
    }

    /// The client identifier.
    pub fn client_id(&self) -> &ClientId
        ensures { result.now ≡ self.now.client_id }
    {
        &self.parts.client_id
    }

    // The client secret.
    pub(crate) fn client_secret(&self) -> Option<&ClientSecret>
        ensures { option_copied result ≡ self.now.client_secret }
    {
        self.parts.client_secret.as_ref()
    }

    /// How the client sends its identifier and its secret.
    pub fn auth_type(&self) -> &AuthType
        ensures { result.now ≡ self.now.auth_type }
    {
        &self.parts.auth_type
    }

    /// The rule for the Content-Type of the replies.
    pub fn reply_rule(&self) -> ReplyRule
        ensures { result ≡ self.now.reply_rule }
    {
        self.parts.reply_rule
    }

    /// The redirect URL.
    pub fn redirect_uri(&self) -> Option<&RedirectUrl>
        ensures { option_copied result ≡ self.now.redirect_url }
    {
        self.parts.redirect_url.as_ref()
    }

    /// Sets the URL of the authorization endpoint (RFC 6749, section 3.1).
    pub fn set_auth_uri(
        self,
        auth_url: AuthUrl,
    ) -> Client<TE, TR, TIR, RT, TRE, EndpointSet, D, I, R, T>
        ensures { result ≡ record self { auth_url = Some auth_url } }
    {
        let Client {
            parts,
            endpoints,
            phantom: _,
        } = self;
        Client {
            parts,
            endpoints: Endpoints {
                auth_url: Some(auth_url),
                ..endpoints
            },
            phantom: PhantomData,
        }
    }

    /// Sets the URL of the authorization endpoint (RFC 6749, section 3.1), or clears it.
    pub fn set_auth_uri_option(
        self,
        auth_url: Option<AuthUrl>,
    ) -> Client<TE, TR, TIR, RT, TRE, EndpointMaybeSet, D, I, R, T>
        ensures { result ≡ record self { auth_url = auth_url } }
    {
        let Client {
            parts,
            endpoints,
            phantom: _,
        } = self;
        Client {
            parts,
            endpoints: Endpoints {
                auth_url,
                ..endpoints
            },
            phantom: PhantomData,
        }
    }

    /// Sets the URL of the device authorization endpoint (RFC 8628, section 3.1).
    pub fn set_device_authorization_url(
        self,
        device_authorization_url: DeviceAuthorizationUrl,
    ) -> Client<TE, TR, TIR, RT, TRE, A, EndpointSet, I, R, T>
        ensures { result ≡ record self {
          device_authorization_url = Some device_authorization_url;
        } }
    {
        let Client {
            parts,
            endpoints,
            phantom: _,
        } = self;
        Client {
            parts,
            endpoints: Endpoints {
                device_authorization_url: Some(device_authorization_url),
                ..endpoints
            },
            phantom: PhantomData,
        }
    }

    /// Sets the URL of the device authorization endpoint (RFC 8628, section 3.1), or clears it.
    pub fn set_device_authorization_url_option(
        self,
        device_authorization_url: Option<DeviceAuthorizationUrl>,
    ) -> Client<TE, TR, TIR, RT, TRE, A, EndpointMaybeSet, I, R, T>
        ensures { result ≡ record self { device_authorization_url = device_authorization_url } }
    {
        let Client {
            parts,
            endpoints,
            phantom: _,
        } = self;
        Client {
            parts,
            endpoints: Endpoints {
                device_authorization_url,
                ..endpoints
            },
            phantom: PhantomData,
        }
    }

    /// Sets the URL of the introspection endpoint (RFC 7662, section 2).
    pub fn set_introspection_url(
        self,
        introspection_url: IntrospectionUrl,
    ) -> Client<TE, TR, TIR, RT, TRE, A, D, EndpointSet, R, T>
        ensures { result ≡ record self { introspection_url = Some introspection_url } }
    {
        let Client {
            parts,
            endpoints,
            phantom: _,
        } = self;
        Client {
            parts,
            endpoints: Endpoints {
                introspection_url: Some(introspection_url),
                ..endpoints
            },
            phantom: PhantomData,
        }
    }

    /// Sets the URL of the introspection endpoint (RFC 7662, section 2), or clears it.
    pub fn set_introspection_url_option(
        self,
        introspection_url: Option<IntrospectionUrl>,
    ) -> Client<TE, TR, TIR, RT, TRE, A, D, EndpointMaybeSet, R, T>
        ensures { result ≡ record self { introspection_url = introspection_url } }
    {
        let Client {
            parts,
            endpoints,
            phantom: _,
        } = self;
        Client {
            parts,
            endpoints: Endpoints {
                introspection_url,
                ..endpoints
            },
            phantom: PhantomData,
        }
    }

    /// Sets the URL of the revocation endpoint (RFC 7009, section 2).
    pub fn set_revocation_url(
        self,
        revocation_url: RevocationUrl,
    ) -> Client<TE, TR, TIR, RT, TRE, A, D, I, EndpointSet, T>
        ensures { result ≡ record self { revocation_url = Some revocation_url } }
    {
        let Client {
            parts,
            endpoints,
            phantom: _,
        } = self;
        Client {
            parts,
            endpoints: Endpoints {
                revocation_url: Some(revocation_url),
                ..endpoints
            },
            phantom: PhantomData,
        }
    }

    /// Sets the URL of the revocation endpoint (RFC 7009, section 2), or clears it.
    pub fn set_revocation_url_option(
        self,
        revocation_url: Option<RevocationUrl>,
    ) -> Client<TE, TR, TIR, RT, TRE, A, D, I, EndpointMaybeSet, T>
        ensures { result ≡ record self { revocation_url = revocation_url } }
    {
        let Client {
            parts,
            endpoints,
            phantom: _,
        } = self;
        Client {
            parts,
            endpoints: Endpoints {
                revocation_url,
                ..endpoints
            },
            phantom: PhantomData,
        }
    }

    /// Sets the URL of the token endpoint (RFC 6749, section 3.2).
    pub fn set_token_uri(
        self,
        token_url: TokenUrl,
    ) -> Client<TE, TR, TIR, RT, TRE, A, D, I, R, EndpointSet>
        ensures { result ≡ record self { token_url = Some token_url } }
    {
        let Client {
            parts,
            endpoints,
            phantom: _,
        } = self;
        Client {
            parts,
            endpoints: Endpoints {
                token_url: Some(token_url),
                ..endpoints
            },
            phantom: PhantomData,
        }
    }

    /// Sets the URL of the token endpoint (RFC 6749, section 3.2), or clears it.
    pub fn set_token_uri_option(
        self,
        token_url: Option<TokenUrl>,
    ) -> Client<TE, TR, TIR, RT, TRE, A, D, I, R, EndpointMaybeSet>
        ensures { result ≡ record self { token_url = token_url } }
    {
        let Client {
            parts,
            endpoints,
            phantom: _,
        } = self;
        Client {
            parts,
            endpoints: Endpoints {
                token_url,
                ..endpoints
            },
            phantom: PhantomData,
        }
    }
}

impl<TE, TR, TIR, RT, TRE, D, I, R, T> Client<TE, TR, TIR, RT, TRE, EndpointSet, D, I, R, T>
where
    D: EndpointState,
    I: EndpointState,
    R: EndpointState,
    T: EndpointState,
{
    /// The URL of the authorization endpoint (RFC 6749, section 3.1).
    pub fn auth_uri(&self) -> &AuthUrl
        ensures { self.now.auth_url ≡ Some result.now }
    {
        self.endpoints.auth_url.as_ref().unwrap()
    }
}

impl<TE, TR, TIR, RT, TRE, D, I, R, T> Client<TE, TR, TIR, RT, TRE, EndpointMaybeSet, D, I, R, T>
where
    D: EndpointState,
    I: EndpointState,
    R: EndpointState,
    T: EndpointState,
{
    /// The URL of the authorization endpoint (RFC 6749, section 3.1), if it has one.
    pub fn auth_uri(&self) -> Option<&AuthUrl>
        ensures { option_copied result ≡ self.now.auth_url }
    {
        self.endpoints.auth_url.as_ref()
    }

    /// This client, with a type that says that it has the URL of the authorization endpoint. The
    /// error is `MissingUrl` if it has none; the client is dropped then. Call `auth_uri` first to
    /// find out.
    pub fn require_auth_uri(
        self,
    ) -> Result<Client<TE, TR, TIR, RT, TRE, EndpointSet, D, I, R, T>, ConfigurationError>
        ensures there { IfSome self.auth_url (λ _. IsOkAnd result (λ client. client ≡ self)) }
        ensures missing { IfNone self.auth_url
            (IsErrAnd result (IsMissingUrl (codes "authorization"))) }
    {
        if self.endpoints.auth_url.is_none() {
            return Err(ConfigurationError::MissingUrl("authorization"));
        }
        let Client {
            parts,
            endpoints,
            phantom: _,
        } = self;
        Ok(Client {
            parts,
            endpoints,
            phantom: PhantomData,
        })
    }
}

impl<TE, TR, TIR, RT, TRE, A, I, R, T> Client<TE, TR, TIR, RT, TRE, A, EndpointSet, I, R, T>
where
    A: EndpointState,
    I: EndpointState,
    R: EndpointState,
    T: EndpointState,
{
    /// The URL of the device authorization endpoint (RFC 8628, section 3.1).
    pub fn device_authorization_url(&self) -> &DeviceAuthorizationUrl
        ensures { self.now.device_authorization_url ≡ Some result.now }
    {
        self.endpoints.device_authorization_url.as_ref().unwrap()
    }
}

impl<TE, TR, TIR, RT, TRE, A, I, R, T> Client<TE, TR, TIR, RT, TRE, A, EndpointMaybeSet, I, R, T>
where
    A: EndpointState,
    I: EndpointState,
    R: EndpointState,
    T: EndpointState,
{
    /// The URL of the device authorization endpoint (RFC 8628, section 3.1), if it has one.
    pub fn device_authorization_url(&self) -> Option<&DeviceAuthorizationUrl>
        ensures { option_copied result ≡ self.now.device_authorization_url }
    {
        self.endpoints.device_authorization_url.as_ref()
    }

    /// This client, with a type that says that it has the URL of the device authorization endpoint.
    /// The error is `MissingUrl` if it has none; the client is dropped then. Call
    /// `device_authorization_url` first to find out.
    pub fn require_device_authorization_url(
        self,
    ) -> Result<Client<TE, TR, TIR, RT, TRE, A, EndpointSet, I, R, T>, ConfigurationError>
        ensures there { IfSome self.device_authorization_url (λ _. IsOkAnd result (λ client. client ≡ self)) }
        ensures missing { IfNone self.device_authorization_url
            (IsErrAnd result (IsMissingUrl (codes "device authorization"))) }
    {
        if self.endpoints.device_authorization_url.is_none() {
            return Err(ConfigurationError::MissingUrl("device authorization"));
        }
        let Client {
            parts,
            endpoints,
            phantom: _,
        } = self;
        Ok(Client {
            parts,
            endpoints,
            phantom: PhantomData,
        })
    }
}

impl<TE, TR, TIR, RT, TRE, A, D, R, T> Client<TE, TR, TIR, RT, TRE, A, D, EndpointSet, R, T>
where
    A: EndpointState,
    D: EndpointState,
    R: EndpointState,
    T: EndpointState,
{
    /// The URL of the introspection endpoint (RFC 7662, section 2).
    pub fn introspection_url(&self) -> &IntrospectionUrl
        ensures { self.now.introspection_url ≡ Some result.now }
    {
        self.endpoints.introspection_url.as_ref().unwrap()
    }
}

impl<TE, TR, TIR, RT, TRE, A, D, R, T> Client<TE, TR, TIR, RT, TRE, A, D, EndpointMaybeSet, R, T>
where
    A: EndpointState,
    D: EndpointState,
    R: EndpointState,
    T: EndpointState,
{
    /// The URL of the introspection endpoint (RFC 7662, section 2), if it has one.
    pub fn introspection_url(&self) -> Option<&IntrospectionUrl>
        ensures { option_copied result ≡ self.now.introspection_url }
    {
        self.endpoints.introspection_url.as_ref()
    }

    /// This client, with a type that says that it has the URL of the introspection endpoint. The
    /// error is `MissingUrl` if it has none; the client is dropped then. Call `introspection_url`
    /// first to find out.
    pub fn require_introspection_url(
        self,
    ) -> Result<Client<TE, TR, TIR, RT, TRE, A, D, EndpointSet, R, T>, ConfigurationError>
        ensures there { IfSome self.introspection_url (λ _. IsOkAnd result (λ client. client ≡ self)) }
        ensures missing { IfNone self.introspection_url
            (IsErrAnd result (IsMissingUrl (codes "introspection"))) }
    {
        if self.endpoints.introspection_url.is_none() {
            return Err(ConfigurationError::MissingUrl("introspection"));
        }
        let Client {
            parts,
            endpoints,
            phantom: _,
        } = self;
        Ok(Client {
            parts,
            endpoints,
            phantom: PhantomData,
        })
    }
}

impl<TE, TR, TIR, RT, TRE, A, D, I, T> Client<TE, TR, TIR, RT, TRE, A, D, I, EndpointSet, T>
where
    A: EndpointState,
    D: EndpointState,
    I: EndpointState,
    T: EndpointState,
{
    /// The URL of the revocation endpoint (RFC 7009, section 2).
    pub fn revocation_url(&self) -> &RevocationUrl
        ensures { self.now.revocation_url ≡ Some result.now }
    {
        self.endpoints.revocation_url.as_ref().unwrap()
    }
}

impl<TE, TR, TIR, RT, TRE, A, D, I, T> Client<TE, TR, TIR, RT, TRE, A, D, I, EndpointMaybeSet, T>
where
    A: EndpointState,
    D: EndpointState,
    I: EndpointState,
    T: EndpointState,
{
    /// The URL of the revocation endpoint (RFC 7009, section 2), if it has one.
    pub fn revocation_url(&self) -> Option<&RevocationUrl>
        ensures { option_copied result ≡ self.now.revocation_url }
    {
        self.endpoints.revocation_url.as_ref()
    }

    /// This client, with a type that says that it has the URL of the revocation endpoint. The error
    /// is `MissingUrl` if it has none; the client is dropped then. Call `revocation_url` first to
    /// find out.
    pub fn require_revocation_url(
        self,
    ) -> Result<Client<TE, TR, TIR, RT, TRE, A, D, I, EndpointSet, T>, ConfigurationError>
        ensures there { IfSome self.revocation_url (λ _. IsOkAnd result (λ client. client ≡ self)) }
        ensures missing { IfNone self.revocation_url
            (IsErrAnd result (IsMissingUrl (codes "revocation"))) }
    {
        if self.endpoints.revocation_url.is_none() {
            return Err(ConfigurationError::MissingUrl("revocation"));
        }
        let Client {
            parts,
            endpoints,
            phantom: _,
        } = self;
        Ok(Client {
            parts,
            endpoints,
            phantom: PhantomData,
        })
    }
}

impl<TE, TR, TIR, RT, TRE, A, D, I, R> Client<TE, TR, TIR, RT, TRE, A, D, I, R, EndpointSet>
where
    A: EndpointState,
    D: EndpointState,
    I: EndpointState,
    R: EndpointState,
{
    /// The URL of the token endpoint (RFC 6749, section 3.2).
    pub fn token_uri(&self) -> &TokenUrl
        ensures { self.now.token_url ≡ Some result.now }
    {
        self.endpoints.token_url.as_ref().unwrap()
    }
}

impl<TE, TR, TIR, RT, TRE, A, D, I, R> Client<TE, TR, TIR, RT, TRE, A, D, I, R, EndpointMaybeSet>
where
    A: EndpointState,
    D: EndpointState,
    I: EndpointState,
    R: EndpointState,
{
    /// The URL of the token endpoint (RFC 6749, section 3.2), if it has one.
    pub fn token_uri(&self) -> Option<&TokenUrl>
        ensures { option_copied result ≡ self.now.token_url }
    {
        self.endpoints.token_url.as_ref()
    }

    /// This client, with a type that says that it has the URL of the token endpoint. The error is
    /// `MissingUrl` if it has none; the client is dropped then. Call `token_uri` first to find out.
    pub fn require_token_uri(
        self,
    ) -> Result<Client<TE, TR, TIR, RT, TRE, A, D, I, R, EndpointSet>, ConfigurationError>
        ensures there { IfSome self.token_url (λ _. IsOkAnd result (λ client. client ≡ self)) }
        ensures missing { IfNone self.token_url
            (IsErrAnd result (IsMissingUrl (codes "token"))) }
    {
        if self.endpoints.token_url.is_none() {
            return Err(ConfigurationError::MissingUrl("token"));
        }
        let Client {
            parts,
            endpoints,
            phantom: _,
        } = self;
        Ok(Client {
            parts,
            endpoints,
            phantom: PhantomData,
        })
    }
}

impl<TE, TR, TIR, RT, TRE, A, D, I, R, T> TryClone for Client<TE, TR, TIR, RT, TRE, A, D, I, R, T>
where
    A: EndpointState,
    D: EndpointState,
    I: EndpointState,
    R: EndpointState,
    T: EndpointState,
{
    ghost use Rattle.oauth2.specs.Settings.{Settings};

    ghost Seen = { Settings };

    ghost seen = { λ client. client };

    fn try_clone(&self, alloc: Global) -> Result<Self, AllocError> {
        Ok(Client {
            parts: self.parts.try_clone(alloc)?,
            endpoints: self.endpoints.try_clone(alloc)?,
            phantom: PhantomData,
        })
    }
}

impl<TE, TR, TIR, RT, TRE, A, D, I, R, T> Debug for Client<TE, TR, TIR, RT, TRE, A, D, I, R, T>
where
    A: EndpointState,
    D: EndpointState,
    I: EndpointState,
    R: EndpointState,
    T: EndpointState,
{
    ghost use Rattle.std.specs.Prelude.{false};
    ghost use Rattle.std.specs.Fmt.{DisplaysOnOk, DisplaysStyledOnOk};
    ghost use Rattle.std.specs.Fmt.{formatter_spec, spec_alternate};
    ghost use Rattle.oauth2.specs.ClientText.{client_debug_text};

    ghost debug_output = { client_debug_text false };

    #[tactic(auto, using(crate::proofs::ClientTextLaws::displays_of_styled))]
    fn fmt<W: fmt::Write>(&self, f: &mut fmt::Formatter<W>) -> fmt::Result
        ensures writes { DisplaysOnOk W.write_str_gives f.old result
            (client_debug_text false self.now) f.new }
        // With any options of the formatter, such as those of `{:#?}`.
        ensures styled { DisplaysStyledOnOk W.write_str_gives f.old result
            (client_debug_text (spec_alternate (formatter_spec f.old)) self.now) f.new }
    {
        let in_lines = f.alternate();
        write_display(
            f,
            ClientText {
                in_lines,
                parts: &self.parts,
                endpoints: &self.endpoints,
            },
        )
    }
}

/// A client of a server that uses no extensions.
pub type BasicClient<
    HasAuthUrl = EndpointNotSet,
    HasDeviceAuthUrl = EndpointNotSet,
    HasIntrospectionUrl = EndpointNotSet,
    HasRevocationUrl = EndpointNotSet,
    HasTokenUrl = EndpointNotSet,
> = Client<
    BasicErrorResponse,
    BasicTokenResponse,
    BasicTokenIntrospectionResponse,
    StandardRevocableToken,
    BasicRevocationErrorResponse,
    HasAuthUrl,
    HasDeviceAuthUrl,
    HasIntrospectionUrl,
    HasRevocationUrl,
    HasTokenUrl,
>;
