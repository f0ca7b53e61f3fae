//! A public key that signatures can be checked with.

ghost use Rattle.std.specs.Prelude.{◌↔◌, IsTrue};
ghost use Rattle.oauth2_keys.specs.Algorithm.{IsSignatureBy};

use crate::algorithm::SignatureAlgorithm;
use ecdsa_signatures::EcdsaPublicKey;
use eddsa_signatures::EddsaPublicKey;
use rsa_signatures::RsaPublicKey;

/// A public key. There is a variant for each type of key that signatures can be checked with.
#[derive(Drop)]
pub enum PublicKey {
    /// `kty` is `RSA` (RFC 7518, 6.3).
    Rsa(RsaPublicKey),
    /// `kty` is `EC` (RFC 7518, 6.2).
    Ecdsa(EcdsaPublicKey),
    /// `kty` is `OKP`, and the curve is Ed25519 (RFC 8037, 2).
    Eddsa(EddsaPublicKey),
}

impl PublicKey {
    /// Whether these octets are a signature of the message by this algorithm and this key. It is
    /// `false` if the algorithm requires another type of key.
    pub fn verify(&self, algorithm: SignatureAlgorithm, message: &[u8], signature: &[u8]) -> bool
        ensures { IsTrue result ↔ IsSignatureBy algorithm self.now message.now signature.now }
    {
        match self {
            PublicKey::Rsa(key) => match algorithm.rsa_scheme() {
                Some(scheme) => key.verify(scheme, message, signature),
                None => false,
            },
            PublicKey::Ecdsa(key) => {
                algorithm.is_of_curve(key.curve()) && key.verify(message, signature)
            }
            PublicKey::Eddsa(key) => algorithm.is_eddsa() && key.verify(message, signature),
        }
    }
}
