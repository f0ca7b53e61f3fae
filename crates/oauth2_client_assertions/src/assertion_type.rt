//! The types of assertions.

ghost use Rattle.std.specs.Prelude.{◌≡◌};
ghost use Rattle.oauth2_client_assertions.specs.Assertions.{assertion_type_text};

/// The type of an assertion, as `client_assertion_type` says it (RFC 7521, section 4.2).
#[derive(Clone, Copy, Debug, PartialEq, Eq)]
pub enum AssertionType {
    /// A JWT (RFC 7523, section 2.2).
    JwtBearer,
    /// A SAML 2.0 assertion (RFC 7522, section 2.2).
    Saml2Bearer,
}

impl AssertionType {
    /// The URI of the type.
    pub fn as_str(self) -> &'static str
        ensures { result.now ≡ assertion_type_text self }
    {
        match self {
            AssertionType::JwtBearer => "urn:ietf:params:oauth:client-assertion-type:jwt-bearer",
            AssertionType::Saml2Bearer =>
                "urn:ietf:params:oauth:client-assertion-type:saml2-bearer",
        }
    }
}
