//! The members of metadata, in groups that are read and written together.

ghost use Rattle.std.specs.Prelude.{◌≡◌, option_copied};
ghost use Rattle.oauth2_metadata.specs.EndpointFault.{cause_of, endpoint_fault, fault_at};
ghost use Rattle.oauth2_metadata.specs.EndpointFault.{fault_of, forbids_fragment, url_at};
ghost use Rattle.oauth2_metadata.specs.private.Kept.{AreAddresses};

use crate::endpoint_fault::{Endpoint, EndpointCause, EndpointFault};
use crate::issuer::is_secure;
use oauth2_urls::{AuthUrl, DeviceAuthorizationUrl, IntrospectionUrl, RevocationUrl, TokenUrl};
use std::marker::Model;
use url::Url;

// The endpoints that this client calls.
#[derive(Debug)]
pub(crate) struct MetadataEndpoints {
    pub(crate) authorization_endpoint: Option<AuthUrl>,
    pub(crate) token_endpoint: Option<TokenUrl>,
    pub(crate) device_authorization_endpoint: Option<DeviceAuthorizationUrl>,
    pub(crate) introspection_endpoint: Option<IntrospectionUrl>,
    pub(crate) revocation_endpoint: Option<RevocationUrl>,
}

impl Drop for MetadataEndpoints {
    fn drop(self) {
        let MetadataEndpoints {
            authorization_endpoint: _,
            token_endpoint: _,
            device_authorization_endpoint: _,
            introspection_endpoint: _,
            revocation_endpoint: _,
        } = self;
    }
}

impl Model for MetadataEndpoints {
    ghost use Rattle.std.specs.Option.{ForSome};
    ghost use Rattle.oauth2_replies.specs.private.Address.{IsAddress};
    ghost use Rattle.oauth2_metadata.specs.Metadata.{EndpointMembers};

    ghost Value = { EndpointMembers };

    ghost view = { λ m. record {
      authorization_endpoint = m.authorization_endpoint;
      token_endpoint = m.token_endpoint;
      device_authorization_endpoint = m.device_authorization_endpoint;
      introspection_endpoint = m.introspection_endpoint;
      revocation_endpoint = m.revocation_endpoint;
    } };

    ghost invariant = { λ m. ForSome m.authorization_endpoint IsAddress
        × ForSome m.token_endpoint IsAddress
        × ForSome m.device_authorization_endpoint IsAddress
        × ForSome m.introspection_endpoint IsAddress
        × ForSome m.revocation_endpoint IsAddress };
}

impl MetadataEndpoints {
    // The endpoints, and that contracts may take each URL to be its text, parsed.
    pub(crate) fn parsed(&self) -> &MetadataEndpoints
        ensures same { result.now ≡ self.now }
        ensures addresses { AreAddresses self.now }
    {
        let _ = &self.authorization_endpoint;
        self
    }

    // The first endpoint that a client may not call, and why.
    pub(crate) fn fault(&self) -> Option<EndpointFault>
        ensures { result ≡ endpoint_fault self.now }
    {
        self.fault_at(Endpoint::Authorization)
            .or(self.fault_at(Endpoint::Token))
            .or(self.fault_at(Endpoint::DeviceAuthorization))
            .or(self.fault_at(Endpoint::Introspection))
            .or(self.fault_at(Endpoint::Revocation))
    }

    fn fault_at(&self, endpoint: Endpoint) -> Option<EndpointFault>
        ensures { result ≡ fault_at endpoint self.now }
    {
        fault_of(endpoint, self.url_at(endpoint))
    }

    // The URL of an endpoint, if it is there.
    fn url_at(&self, endpoint: Endpoint) -> Option<&Url>
        ensures { option_copied result ≡ url_at endpoint self.now }
    {
        match endpoint {
            Endpoint::Authorization => match &self.authorization_endpoint {
                Some(url) => Some(url.url()),
                None => None,
            },
            Endpoint::Token => match &self.token_endpoint {
                Some(url) => Some(url.url()),
                None => None,
            },
            Endpoint::DeviceAuthorization => match &self.device_authorization_endpoint {
                Some(url) => Some(url.url()),
                None => None,
            },
            Endpoint::Introspection => match &self.introspection_endpoint {
                Some(url) => Some(url.url()),
                None => None,
            },
            Endpoint::Revocation => match &self.revocation_endpoint {
                Some(url) => Some(url.url()),
                None => None,
            },
        }
    }
}

// Why a client may not call an endpoint, if it is there.
fn fault_of(endpoint: Endpoint, url: Option<&Url>) -> Option<EndpointFault>
    ensures { result ≡ fault_of endpoint (option_copied url.entry) }
{
    let cause = cause_of(endpoint, url?)?;
    Some(EndpointFault { endpoint, cause })
}

// Why a client may not call this URL of an endpoint.
fn cause_of(endpoint: Endpoint, url: &Url) -> Option<EndpointCause>
    ensures { result ≡ cause_of endpoint url.now }
{
    if !is_secure(url) {
        Some(EndpointCause::NotHttps)
    } else if forbids_fragment(endpoint) && url.fragment().is_some() {
        Some(EndpointCause::HasFragment)
    } else {
        None
    }
}

// Whether the standard of an endpoint forbids a fragment.
fn forbids_fragment(endpoint: Endpoint) -> bool
    ensures { result ≡ forbids_fragment endpoint }
{
    match endpoint {
        Endpoint::Authorization | Endpoint::Token | Endpoint::Revocation => true,
        Endpoint::DeviceAuthorization | Endpoint::Introspection => false,
    }
}

// The scopes, response types and modes, grant types and PKCE methods that the server supports.
#[derive(Debug)]
pub(crate) struct Supported {
    pub(crate) scopes_supported: Option<Vec<String>>,
    pub(crate) response_types_supported: Option<Vec<String>>,
    pub(crate) response_modes_supported: Option<Vec<String>>,
    pub(crate) grant_types_supported: Option<Vec<String>>,
    pub(crate) code_challenge_methods_supported: Option<Vec<String>>,
}

impl Drop for Supported {
    fn drop(self) {
        let Supported {
            scopes_supported: _,
            response_types_supported: _,
            response_modes_supported: _,
            grant_types_supported: _,
            code_challenge_methods_supported: _,
        } = self;
    }
}

impl Model for Supported {
    ghost use Rattle.std.specs.Prelude.{map, option_map, string_bytes};
    ghost use Rattle.oauth2_metadata.specs.Metadata.{SupportedMembers};

    ghost Value = { SupportedMembers };

    ghost view = { λ m. record {
      scopes_supported = option_map (λ list. map string_bytes list.items) m.scopes_supported;
      response_types_supported =
          option_map (λ list. map string_bytes list.items)
          m.response_types_supported;
      response_modes_supported =
          option_map (λ list. map string_bytes list.items)
          m.response_modes_supported;
      grant_types_supported =
          option_map (λ list. map string_bytes list.items)
          m.grant_types_supported;
      code_challenge_methods_supported =
          option_map (λ list. map string_bytes list.items)
          m.code_challenge_methods_supported;
    } };
}

// The client authentication methods that each endpoint supports.
#[derive(Debug)]
pub(crate) struct AuthMethods {
    pub(crate) token_endpoint_auth_methods_supported: Option<Vec<String>>,
    pub(crate) introspection_endpoint_auth_methods_supported: Option<Vec<String>>,
    pub(crate) revocation_endpoint_auth_methods_supported: Option<Vec<String>>,
}

impl Drop for AuthMethods {
    fn drop(self) {
        let AuthMethods {
            token_endpoint_auth_methods_supported: _,
            introspection_endpoint_auth_methods_supported: _,
            revocation_endpoint_auth_methods_supported: _,
        } = self;
    }
}

impl Model for AuthMethods {
    ghost use Rattle.std.specs.Prelude.{map, option_map, string_bytes};
    ghost use Rattle.oauth2_metadata.specs.Metadata.{AuthMethodMembers};

    ghost Value = { AuthMethodMembers };

    ghost view = { λ m. record {
      token_endpoint_auth_methods_supported =
          option_map (λ list. map string_bytes list.items)
          m.token_endpoint_auth_methods_supported;
      introspection_endpoint_auth_methods_supported =
          option_map (λ list. map string_bytes list.items)
          m.introspection_endpoint_auth_methods_supported;
      revocation_endpoint_auth_methods_supported =
          option_map (λ list. map string_bytes list.items)
          m.revocation_endpoint_auth_methods_supported;
    } };
}

// The algorithms for the JWT of a client's authentication that each endpoint supports.
#[derive(Debug)]
pub(crate) struct SigningAlgorithms {
    pub(crate) token_endpoint_auth_signing_alg_values_supported: Option<Vec<String>>,
    pub(crate) introspection_endpoint_auth_signing_alg_values_supported: Option<Vec<String>>,
    pub(crate) revocation_endpoint_auth_signing_alg_values_supported: Option<Vec<String>>,
}

impl Drop for SigningAlgorithms {
    fn drop(self) {
        let SigningAlgorithms {
            token_endpoint_auth_signing_alg_values_supported: _,
            introspection_endpoint_auth_signing_alg_values_supported: _,
            revocation_endpoint_auth_signing_alg_values_supported: _,
        } = self;
    }
}

impl Model for SigningAlgorithms {
    ghost use Rattle.std.specs.Prelude.{map, option_map, string_bytes};
    ghost use Rattle.oauth2_metadata.specs.Metadata.{SigningAlgorithmMembers};

    ghost Value = { SigningAlgorithmMembers };

    ghost view = { λ m. record {
      token_endpoint_auth_signing_alg_values_supported =
          option_map (λ list. map string_bytes list.items)
          m.token_endpoint_auth_signing_alg_values_supported;
      introspection_endpoint_auth_signing_alg_values_supported =
          option_map (λ list. map string_bytes list.items)
          m.introspection_endpoint_auth_signing_alg_values_supported;
      revocation_endpoint_auth_signing_alg_values_supported =
          option_map (λ list. map string_bytes list.items)
          m.revocation_endpoint_auth_signing_alg_values_supported;
    } };
}

// The URLs of pages for developers and users, and the languages of the user interface.
#[derive(Debug)]
pub(crate) struct Pages {
    pub(crate) service_documentation: Option<String>,
    pub(crate) op_policy_uri: Option<String>,
    pub(crate) op_tos_uri: Option<String>,
    pub(crate) ui_locales_supported: Option<Vec<String>>,
}

impl Drop for Pages {
    fn drop(self) {
        let Pages {
            service_documentation: _,
            ui_locales_supported: _,
            op_policy_uri: _,
            op_tos_uri: _,
        } = self;
    }
}

impl Model for Pages {
    ghost use Rattle.std.specs.Prelude.{map, option_map, string_bytes};
    ghost use Rattle.oauth2_metadata.specs.Metadata.{PageMembers};

    ghost Value = { PageMembers };

    ghost view = { λ m. record {
      service_documentation = option_map string_bytes m.service_documentation;
      op_policy_uri = option_map string_bytes m.op_policy_uri;
      op_tos_uri = option_map string_bytes m.op_tos_uri;
      ui_locales_supported =
          option_map (λ list. map string_bytes list.items)
          m.ui_locales_supported;
    } };
}

// The URLs of the client registration and of the server's keys, the metadata as a signed JWT, and
// whether the server's redirects have `iss`.
#[derive(Debug)]
pub(crate) struct Services {
    pub(crate) registration_endpoint: Option<String>,
    pub(crate) jwks_uri: Option<String>,
    pub(crate) signed_metadata: Option<String>,
    pub(crate) authorization_response_iss_parameter_supported: Option<bool>,
}

impl Drop for Services {
    fn drop(self) {
        let Services {
            registration_endpoint: _,
            jwks_uri: _,
            signed_metadata: _,
            authorization_response_iss_parameter_supported: _,
        } = self;
    }
}

impl Model for Services {
    ghost use Rattle.std.specs.Prelude.{option_map, string_bytes};
    ghost use Rattle.oauth2_metadata.specs.Metadata.{ServiceMembers};

    ghost Value = { ServiceMembers };

    ghost view = { λ m. record {
      registration_endpoint = option_map string_bytes m.registration_endpoint;
      jwks_uri = option_map string_bytes m.jwks_uri;
      signed_metadata = option_map string_bytes m.signed_metadata;
      authorization_response_iss_parameter_supported = m.authorization_response_iss_parameter_supported;
    } };
}
