//! The metadata of an authorization server (RFC 8414, section 2).

ghost use Rattle.std.specs.Prelude.{
  ◌≡◌,
  false,
  map,
  option_copied,
  option_map,
  string_bytes,
  unwrap_or,
};
ghost use Rattle.oauth2_metadata.specs.EndpointFault.{endpoint_fault};
ghost use Rattle.oauth2_metadata.specs.Metadata.{Metadata};

use crate::endpoint_fault::EndpointFault;
use crate::groups::{
    AuthMethods, MetadataEndpoints, Pages, Services, SigningAlgorithms, Supported,
};
use oauth2_replies::ExtraFields;
use oauth2_urls::{AuthUrl, DeviceAuthorizationUrl, IntrospectionUrl, RevocationUrl, TokenUrl};
use std::marker::Model;

/// The metadata of an authorization server, with extra fields `EF` (RFC 8414, section 2; RFC 8628,
/// section 4; RFC 9207, section 3). It is made by reading a JSON object.
///
/// Each member except the issuer may be absent. If a standard has a default, the comment of the
/// getter names it, and the getter returns what the server sent.
#[derive(Debug)]
pub struct ServerMetadata<EF = ExtraFields> {
    pub(crate) issuer: String,
    pub(crate) endpoints: MetadataEndpoints,
    pub(crate) supported: Supported,
    pub(crate) auth_methods: AuthMethods,
    pub(crate) signing_algorithms: SigningAlgorithms,
    pub(crate) pages: Pages,
    pub(crate) services: Services,
    pub(crate) extra_fields: EF,
}

impl<EF: Drop> Drop for ServerMetadata<EF> {
    fn drop(self) {
        let ServerMetadata {
            issuer: _,
            endpoints: _,
            supported: _,
            auth_methods: _,
            signing_algorithms: _,
            pages: _,
            services: _,
            extra_fields: _,
        } = self;
    }
}

impl<EF> Model for ServerMetadata<EF> {
    ghost use Rattle.std.specs.Prelude.{string_bytes};
    ghost use Rattle.oauth2_metadata.specs.Metadata.{Metadata, metadata};

    ghost Value = { Metadata EF };

    ghost view = { λ m. metadata (string_bytes m.issuer) m.endpoints m.supported m.auth_methods
        m.signing_algorithms m.pages m.services m.extra_fields };
}

impl<EF> ServerMetadata<EF> {
    /// The issuer, as the server wrote it.
    pub fn issuer(&self) -> &str
        ensures { result.now ≡ self.now.issuer }
    {
        self.issuer.as_str()
    }

    // The issuer, moved out; the other members are dropped.
    pub(crate) fn into_issuer(self) -> String
    where
        EF: Drop,
        ensures { string_bytes result ≡ self.issuer }
    {
        let ServerMetadata {
            issuer,
            endpoints: _,
            supported: _,
            auth_methods: _,
            signing_algorithms: _,
            pages: _,
            services: _,
            extra_fields: _,
        } = self;
        issuer
    }

    /// The authorization endpoint.
    pub fn authorization_endpoint(&self) -> Option<&AuthUrl>
        ensures { option_copied result ≡ self.now.endpoints.authorization_endpoint }
    {
        self.endpoints.authorization_endpoint.as_ref()
    }

    /// The token endpoint.
    pub fn token_endpoint(&self) -> Option<&TokenUrl>
        ensures { option_copied result ≡ self.now.endpoints.token_endpoint }
    {
        self.endpoints.token_endpoint.as_ref()
    }

    /// The device authorization endpoint (RFC 8628, section 4).
    pub fn device_authorization_endpoint(&self) -> Option<&DeviceAuthorizationUrl>
        ensures { option_copied result ≡ self.now.endpoints.device_authorization_endpoint }
    {
        self.endpoints.device_authorization_endpoint.as_ref()
    }

    /// The introspection endpoint.
    pub fn introspection_endpoint(&self) -> Option<&IntrospectionUrl>
        ensures { option_copied result ≡ self.now.endpoints.introspection_endpoint }
    {
        self.endpoints.introspection_endpoint.as_ref()
    }

    /// The revocation endpoint.
    pub fn revocation_endpoint(&self) -> Option<&RevocationUrl>
        ensures { option_copied result ≡ self.now.endpoints.revocation_endpoint }
    {
        self.endpoints.revocation_endpoint.as_ref()
    }

    /// The first endpoint, in the order of `Endpoint`, that a client may not call. The metadata
    /// that `request` of a `MetadataRequest` returns has none; call this for metadata from
    /// elsewhere.
    pub fn endpoint_fault(&self) -> Option<EndpointFault>
        ensures { result ≡ endpoint_fault self.now.endpoints }
    {
        self.endpoints.fault()
    }

    /// Scopes that the server supports, not necessarily all of them.
    pub fn scopes_supported(&self) -> Option<&Vec<String>>
        ensures { option_map (λ list. map string_bytes list.now.items) result
            ≡ self.now.supported.scopes_supported }
    {
        self.supported.scopes_supported.as_ref()
    }

    /// The response types. RFC 8414 requires them, but they may be absent here.
    pub fn response_types_supported(&self) -> Option<&Vec<String>>
        ensures { option_map (λ list. map string_bytes list.now.items) result
            ≡ self.now.supported.response_types_supported }
    {
        self.supported.response_types_supported.as_ref()
    }

    /// The response modes. The default is `query` and `fragment`.
    pub fn response_modes_supported(&self) -> Option<&Vec<String>>
        ensures { option_map (λ list. map string_bytes list.now.items) result
            ≡ self.now.supported.response_modes_supported }
    {
        self.supported.response_modes_supported.as_ref()
    }

    /// The grant types. The default is `authorization_code` and `implicit`.
    pub fn grant_types_supported(&self) -> Option<&Vec<String>>
        ensures { option_map (λ list. map string_bytes list.now.items) result
            ≡ self.now.supported.grant_types_supported }
    {
        self.supported.grant_types_supported.as_ref()
    }

    /// The PKCE code challenge methods. If they are absent, the server does not support PKCE.
    pub fn code_challenge_methods_supported(&self) -> Option<&Vec<String>>
        ensures { option_map (λ list. map string_bytes list.now.items) result
            ≡ self.now.supported.code_challenge_methods_supported }
    {
        self.supported.code_challenge_methods_supported.as_ref()
    }

    /// The client authentication methods of the token endpoint. The default is
    /// `client_secret_basic`.
    pub fn token_endpoint_auth_methods_supported(&self) -> Option<&Vec<String>>
        ensures { option_map (λ list. map string_bytes list.now.items) result
            ≡ self.now.auth_methods.token_endpoint_auth_methods_supported }
    {
        self.auth_methods
            .token_endpoint_auth_methods_supported
            .as_ref()
    }

    /// The client authentication methods of the introspection endpoint.
    pub fn introspection_endpoint_auth_methods_supported(&self) -> Option<&Vec<String>>
        ensures { option_map (λ list. map string_bytes list.now.items) result
            ≡ self.now.auth_methods.introspection_endpoint_auth_methods_supported }
    {
        self.auth_methods
            .introspection_endpoint_auth_methods_supported
            .as_ref()
    }

    /// The client authentication methods of the revocation endpoint. The default is
    /// `client_secret_basic`.
    pub fn revocation_endpoint_auth_methods_supported(&self) -> Option<&Vec<String>>
        ensures { option_map (λ list. map string_bytes list.now.items) result
            ≡ self.now.auth_methods.revocation_endpoint_auth_methods_supported }
    {
        self.auth_methods
            .revocation_endpoint_auth_methods_supported
            .as_ref()
    }

    /// The algorithms for the JWT of a client's authentication at the token endpoint.
    pub fn token_endpoint_auth_signing_alg_values_supported(&self) -> Option<&Vec<String>>
        ensures { option_map (λ list. map string_bytes list.now.items) result
            ≡ self.now.signing_algorithms.token_endpoint_auth_signing_alg_values_supported }
    {
        self.signing_algorithms
            .token_endpoint_auth_signing_alg_values_supported
            .as_ref()
    }

    /// The algorithms for the JWT of a client's authentication at the introspection endpoint.
    pub fn introspection_endpoint_auth_signing_alg_values_supported(&self) -> Option<&Vec<String>>
        ensures { option_map (λ list. map string_bytes list.now.items) result
            ≡ self.now.signing_algorithms.introspection_endpoint_auth_signing_alg_values_supported }
    {
        self.signing_algorithms
            .introspection_endpoint_auth_signing_alg_values_supported
            .as_ref()
    }

    /// The algorithms for the JWT of a client's authentication at the revocation endpoint.
    pub fn revocation_endpoint_auth_signing_alg_values_supported(&self) -> Option<&Vec<String>>
        ensures { option_map (λ list. map string_bytes list.now.items) result
            ≡ self.now.signing_algorithms.revocation_endpoint_auth_signing_alg_values_supported }
    {
        self.signing_algorithms
            .revocation_endpoint_auth_signing_alg_values_supported
            .as_ref()
    }

    /// The URL of a page for developers.
    pub fn service_documentation(&self) -> Option<&str>
        ensures { option_copied result ≡ self.now.pages.service_documentation }
    {
        text_of(&self.pages.service_documentation)
    }

    /// The languages of the server's user interface, as language tags of RFC 5646.
    pub fn ui_locales_supported(&self) -> Option<&Vec<String>>
        ensures { option_map (λ list. map string_bytes list.now.items) result
            ≡ self.now.pages.ui_locales_supported }
    {
        self.pages.ui_locales_supported.as_ref()
    }

    /// The URL of a page on how a client may use the data that the server provides.
    pub fn op_policy_uri(&self) -> Option<&str>
        ensures { option_copied result ≡ self.now.pages.op_policy_uri }
    {
        text_of(&self.pages.op_policy_uri)
    }

    /// The URL of the terms of service.
    pub fn op_tos_uri(&self) -> Option<&str>
        ensures { option_copied result ≡ self.now.pages.op_tos_uri }
    {
        text_of(&self.pages.op_tos_uri)
    }

    /// The URL where clients are registered (RFC 7591).
    pub fn registration_endpoint(&self) -> Option<&str>
        ensures { option_copied result ≡ self.now.services.registration_endpoint }
    {
        text_of(&self.services.registration_endpoint)
    }

    /// The URL of the server's keys, a JWK Set (RFC 7517).
    pub fn jwks_uri(&self) -> Option<&str>
        ensures { option_copied result ≡ self.now.services.jwks_uri }
    {
        text_of(&self.services.jwks_uri)
    }

    /// The metadata as a signed JWT (RFC 8414, section 2.1). It is not decoded here.
    pub fn signed_metadata(&self) -> Option<&str>
        ensures { option_copied result ≡ self.now.services.signed_metadata }
    {
        text_of(&self.services.signed_metadata)
    }

    /// Whether the server's redirects have `iss`; `false` if it does not say (RFC 9207, section 3).
    pub fn authorization_response_iss_parameter_supported(&self) -> bool
        ensures { result
            ≡ unwrap_or self.now.services.authorization_response_iss_parameter_supported false }
    {
        self.services
            .authorization_response_iss_parameter_supported
            .unwrap_or(false)
    }

    /// The extra fields: what was read from the other members.
    pub fn extra_fields(&self) -> &EF
        ensures { result.now ≡ self.now.extra_fields }
    {
        &self.extra_fields
    }
}

fn text_of(text: &Option<String>) -> Option<&str>
    ensures { option_copied result ≡ option_map string_bytes text.now }
{
    match text {
        Some(text) => Some(text.as_str()),
        None => None,
    }
}
