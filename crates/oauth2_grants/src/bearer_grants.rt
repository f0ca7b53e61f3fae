//! Grants that are an assertion of another party: a JWT (RFC 7523, section 2.1) or a SAML 2.0
//! assertion (RFC 7522, section 2.1).

ghost use Rattle.std.specs.Prelude.{◌≡◌, ◌∷◌, [], None, IfOk, codes, string_bytes};
ghost use Rattle.oauth2_types.specs.Pkce.{base64url};
ghost use Rattle.oauth2_grants.specs.Extension.{new_extension_request, with_params};
ghost use Rattle.oauth2_grants.specs.BearerGrants.{
  jwt_bearer_grant,
  jwt_bearer_pairs,
  saml2_bearer_grant,
  saml2_bearer_pairs,
};

use crate::extension_token_request::ExtensionTokenRequest;
use crate::token_client::TokenClient;
use base64::engine::general_purpose::URL_SAFE_NO_PAD;
use oauth2_form::ParamBuffer;
use std::alloc::{AllocError, Global};

/// The grant type of a JWT that another party issued (RFC 7523, section 2.1).
pub const JWT_BEARER: &str = "urn:ietf:params:oauth:grant-type:jwt-bearer";

/// The grant type of a SAML 2.0 assertion (RFC 7522, section 2.1).
pub const SAML2_BEARER: &str = "urn:ietf:params:oauth:grant-type:saml2-bearer";

impl<'a, TE, TR> ExtensionTokenRequest<'a, TE, TR> {
    /// A request of this client by a JWT, in the compact form. An error means out of memory.
    pub fn jwt_bearer(
        alloc: Global,
        client: TokenClient<'a>,
        assertion: &str,
    ) -> Result<Self, AllocError>
        ensures { IfOk result (λ r. r
            ≡ with_params (new_extension_request client.entry jwt_bearer_grant)
            (jwt_bearer_pairs assertion.now)) }
    {
        let params = assertion_params(alloc, assertion)?;
        Ok(ExtensionTokenRequest::of_params(client, JWT_BEARER, params))
    }

    /// A request of this client by a SAML 2.0 assertion, given as XML. It is sent in base64url. An
    /// error means out of memory.
    pub fn saml2_bearer(
        alloc: Global,
        client: TokenClient<'a>,
        assertion: &str,
    ) -> Result<Self, AllocError>
        ensures { IfOk result (λ r. r
            ≡ with_params (new_extension_request client.entry saml2_bearer_grant)
            (saml2_bearer_pairs assertion.now)) }
    {
        let encoded = base64url(alloc, assertion.as_bytes())?;
        let params = assertion_params(alloc, encoded.as_str())?;
        Ok(ExtensionTokenRequest::of_params(client, SAML2_BEARER, params))
    }
}

// The assertion as the only parameter.
fn assertion_params(alloc: Global, assertion: &str) -> Result<ParamBuffer, AllocError>
    ensures { IfOk result (λ params. params ≡ record {
      scope = None;
      extra_params = (codes "assertion", assertion.now) ∷ [];
    }) }
{
    let mut params = ParamBuffer::new(alloc);
    params.add_extra("assertion", assertion)?;
    Ok(params)
}

// The bytes in base64url, without padding.
#[tactic(auto, unfolding(oauth2_types::specs::Pkce::base64url))]
fn base64url(alloc: Global, bytes: &[u8]) -> Result<String, AllocError>
    ensures { IfOk result (λ text. string_bytes text ≡ base64url bytes.now) }
{
    URL_SAFE_NO_PAD.encode(alloc, bytes)
}
