//! How the signature of an ID token is checked.

ghost use Rattle.std.specs.Prelude.{◌≡◌, ◌↔◌, IfErr, IsOk};
ghost use Rattle.oauth2_openid.specs.Seen.{token_of};
ghost use Rattle.oauth2_keys.specs.Signature.{
  IsSignatureRefusal,
  IsSigned,
  check_of,
  registered_algorithm,
};

use crate::algorithm::SignatureAlgorithm;
use crate::key_set::JsonWebKeySet;
use crate::secret_algorithm::SecretAlgorithm;
use crate::signature_error::SignatureError;
use oauth2_openid::IdToken;
use oauth2_types::ClientSecret;

/// How the signature of a provider's ID tokens is checked, with the algorithm that the client
/// registered (`id_token_signed_response_alg`). Never take the algorithm from a token.
#[derive(Clone, Copy)]
pub enum SignatureCheck<'a> {
    /// By the keys that the provider has at its `jwks_uri` (OpenID Connect Core 1.0, 10.1).
    Keys(&'a JsonWebKeySet, SignatureAlgorithm),
    /// By the client's secret, if a confidential client registered an HMAC algorithm.
    Secret(&'a ClientSecret, SecretAlgorithm),
}

impl SignatureCheck<'_> {
    /// The name of the registered algorithm, as `alg` has it.
    pub fn algorithm_name(self) -> &'static str
        ensures { result.now ≡ registered_algorithm (check_of self.entry) }
    {
        match self {
            SignatureCheck::Keys(_, algorithm) => algorithm.name(),
            SignatureCheck::Secret(_, algorithm) => algorithm.name(),
        }
    }

    /// Checks that the token has the registered algorithm, and is signed by the key that is chosen
    /// for it, or with the secret. The rules for its claims are not checked.
    pub fn verify(self, token: &IdToken) -> Result<(), SignatureError>
        ensures verified { IsOk result ↔ IsSigned (check_of self.entry) (token_of token.now) }
        ensures refused { IfErr result
            (IsSignatureRefusal (check_of self.entry) (token_of token.now)) }
    {
        match self {
            SignatureCheck::Keys(keys, algorithm) => keys.verify(token, algorithm),
            SignatureCheck::Secret(secret, algorithm) => algorithm.verify(token, secret),
        }
    }
}
