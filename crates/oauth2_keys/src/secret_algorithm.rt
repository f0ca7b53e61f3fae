//! The check of an ID token's signature with the client's secret.

ghost use Rattle.std.specs.Prelude.{◌≡◌, ◌↔◌, IfErr, IsOk};
ghost use Rattle.oauth2_openid.specs.Seen.{token_of};
ghost use Rattle.oauth2_keys.specs.Secret.{
  IsSecretRefusal,
  IsVerifiedBySecret,
  hash_of,
  secret_algorithm_name,
};

use crate::signature_error::SignatureError;
use hmac_signatures::{HashFunction, HmacKey};
use oauth2_openid::IdToken;
use oauth2_types::ClientSecret;

/// An algorithm for signatures that the client's secret checks (RFC 7518, 3.2; OpenID Connect
/// Core 1.0, 10.1). Only a confidential client may register one.
#[derive(Clone, Copy, Debug, PartialEq, Eq, Drop)]
pub enum SecretAlgorithm {
    /// `HS256`
    Hs256,
    /// `HS384`
    Hs384,
    /// `HS512`
    Hs512,
}

impl SecretAlgorithm {
    /// The name of the algorithm, as the header parameter `alg` has it (RFC 7518, section 3.1).
    pub fn name(self) -> &'static str
        ensures { result.now ≡ secret_algorithm_name self }
    {
        match self {
            SecretAlgorithm::Hs256 => "HS256",
            SecretAlgorithm::Hs384 => "HS384",
            SecretAlgorithm::Hs512 => "HS512",
        }
    }

    /// The hash function of the algorithm's HMAC (RFC 7518, 3.2).
    pub fn hash_function(self) -> HashFunction
        ensures { result ≡ hash_of self }
    {
        match self {
            SecretAlgorithm::Hs256 => HashFunction::Sha256,
            SecretAlgorithm::Hs384 => HashFunction::Sha384,
            SecretAlgorithm::Hs512 => HashFunction::Sha512,
        }
    }

    /// Whether the token has this algorithm, which the client registered, and no `crit` in its
    /// header, and is signed with the client's secret.
    pub fn verify(self, token: &IdToken, secret: &ClientSecret) -> Result<(), SignatureError>
        ensures verified { IsOk result ↔ IsVerifiedBySecret secret.now self (token_of token.now) }
        ensures refused { IfErr result (IsSecretRefusal secret.now self (token_of token.now)) }
    {
        if token.header().algorithm() != self.name() {
            return Err(SignatureError::OtherAlgorithm);
        }
        if token.other_header_members().get("crit").is_some() {
            return Err(SignatureError::CriticalExtension);
        }
        let Ok(key) = HmacKey::new(self.hash_function(), secret.secret().as_bytes()) else {
            return Err(SignatureError::ShortSecret);
        };
        if key.verify(token.signed_part().as_bytes(), token.signature()) {
            Ok(())
        } else {
            Err(SignatureError::WrongSignature)
        }
    }
}
