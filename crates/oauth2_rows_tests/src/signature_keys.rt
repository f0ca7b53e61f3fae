//! What the signatures of ID tokens are checked by.

use oauth2::{ClientSecret, FromJson};
use oauth2_keys::{JsonWebKeySet, SecretAlgorithm, SignatureAlgorithm};
use oauth2_verified_login::SignatureCheck;
use std::alloc::Global;

/// The keys of a provider, and the secret of a client.
pub struct SignatureKeys {
    keys: JsonWebKeySet,
    secret: ClientSecret,
}

impl Drop for SignatureKeys {
    fn drop(self) {
        let SignatureKeys { keys: _, secret: _ } = self;
    }
}

impl SignatureKeys {
    /// No key, and an empty secret.
    pub fn new(alloc: Global) -> anyhow::Result<SignatureKeys> {
        Ok(SignatureKeys {
            keys: JsonWebKeySet::from_body(alloc, br#"{"keys":[]}"#)?,
            secret: ClientSecret::from_str(alloc, "")?,
        })
    }

    /// Takes the keys of a row `keys JSON`, or the secret of a row `secret TEXT`. Returns whether the
    /// row is one of these.
    pub fn take_row(&mut self, alloc: Global, row: &str) -> anyhow::Result<bool> {
        if let Some(text) = row.strip_prefix("keys ") {
            self.keys = JsonWebKeySet::from_body(alloc, text.as_bytes())?;
            Ok(true)
        } else if let Some(text) = row.strip_prefix("secret ") {
            self.secret = ClientSecret::from_str(alloc, text)?;
            Ok(true)
        } else {
            Ok(false)
        }
    }

    /// How a signature is checked: by the keys if its algorithm is one for keys, and else by the
    /// secret, if there is an algorithm for that.
    pub fn check(
        &self,
        algorithm: &str,
        by_secret: Option<SecretAlgorithm>,
    ) -> Option<SignatureCheck<'_>> {
        match SignatureAlgorithm::from_name(algorithm) {
            Some(algorithm) => Some(SignatureCheck::Keys(&self.keys, algorithm)),
            None => Some(SignatureCheck::Secret(&self.secret, by_secret?)),
        }
    }
}
