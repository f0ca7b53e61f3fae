//! The algorithms that a client can register for the signature of its ID tokens.

ghost use Rattle.std.specs.Prelude.{◌≡◌};
ghost use Rattle.oauth2_keys.specs.Algorithm.{
  algorithm_name,
  algorithm_named,
  is_eddsa,
  is_of_curve,
  rsa_scheme,
};

use ecdsa_signatures::EllipticCurve;
use rsa_signatures::{HashFunction, SignatureScheme};

/// An algorithm for signatures that a public key checks (RFC 7518, 3.1; RFC 8037, 3.1; RFC 9864,
/// 2). `none` is not one of them.
#[derive(Clone, Copy, Debug, PartialEq, Eq, Drop)]
pub enum SignatureAlgorithm {
    /// `RS256`
    Rs256,
    /// `RS384`
    Rs384,
    /// `RS512`
    Rs512,
    /// `PS256`
    Ps256,
    /// `PS384`
    Ps384,
    /// `PS512`
    Ps512,
    /// `ES256`
    Es256,
    /// `ES384`
    Es384,
    /// `ES512`
    Es512,
    /// `EdDSA`, with a key on the curve Ed25519
    Eddsa,
    /// `ESP256`: what `ES256` is, by the name that also tells the curve
    Esp256,
    /// `ESP384`: what `ES384` is, by the name that also tells the curve
    Esp384,
    /// `ESP512`: what `ES512` is, by the name that also tells the curve
    Esp512,
    /// `Ed25519`: what `EdDSA` is with a key on that curve
    Ed25519,
}

impl SignatureAlgorithm {
    /// The algorithm with that name, as `alg` has it; `None` if it is not one of these.
    pub fn from_name(name: &str) -> Option<SignatureAlgorithm>
        ensures { result ≡ algorithm_named name.now }
    {
        match name {
            "RS256" => Some(SignatureAlgorithm::Rs256),
            "RS384" => Some(SignatureAlgorithm::Rs384),
            "RS512" => Some(SignatureAlgorithm::Rs512),
            "PS256" => Some(SignatureAlgorithm::Ps256),
            "PS384" => Some(SignatureAlgorithm::Ps384),
            "PS512" => Some(SignatureAlgorithm::Ps512),
            "ES256" => Some(SignatureAlgorithm::Es256),
            "ES384" => Some(SignatureAlgorithm::Es384),
            "ES512" => Some(SignatureAlgorithm::Es512),
            "EdDSA" => Some(SignatureAlgorithm::Eddsa),
            "ESP256" => Some(SignatureAlgorithm::Esp256),
            "ESP384" => Some(SignatureAlgorithm::Esp384),
            "ESP512" => Some(SignatureAlgorithm::Esp512),
            "Ed25519" => Some(SignatureAlgorithm::Ed25519),
            _ => None,
        }
    }

    /// The name of the algorithm, as `alg` has it.
    pub fn name(self) -> &'static str
        ensures { result.now ≡ algorithm_name self }
    {
        match self {
            SignatureAlgorithm::Rs256 => "RS256",
            SignatureAlgorithm::Rs384 => "RS384",
            SignatureAlgorithm::Rs512 => "RS512",
            SignatureAlgorithm::Ps256 => "PS256",
            SignatureAlgorithm::Ps384 => "PS384",
            SignatureAlgorithm::Ps512 => "PS512",
            SignatureAlgorithm::Es256 => "ES256",
            SignatureAlgorithm::Es384 => "ES384",
            SignatureAlgorithm::Es512 => "ES512",
            SignatureAlgorithm::Eddsa => "EdDSA",
            SignatureAlgorithm::Esp256 => "ESP256",
            SignatureAlgorithm::Esp384 => "ESP384",
            SignatureAlgorithm::Esp512 => "ESP512",
            SignatureAlgorithm::Ed25519 => "Ed25519",
        }
    }

    // The RSA scheme of the algorithm; `None` if it requires a key on a curve.
    pub(crate) fn rsa_scheme(self) -> Option<SignatureScheme>
        ensures { result ≡ rsa_scheme self }
    {
        match self {
            SignatureAlgorithm::Rs256 => Some(SignatureScheme::Pkcs1v15(HashFunction::Sha256)),
            SignatureAlgorithm::Rs384 => Some(SignatureScheme::Pkcs1v15(HashFunction::Sha384)),
            SignatureAlgorithm::Rs512 => Some(SignatureScheme::Pkcs1v15(HashFunction::Sha512)),
            SignatureAlgorithm::Ps256 => Some(SignatureScheme::Pss(HashFunction::Sha256)),
            SignatureAlgorithm::Ps384 => Some(SignatureScheme::Pss(HashFunction::Sha384)),
            SignatureAlgorithm::Ps512 => Some(SignatureScheme::Pss(HashFunction::Sha512)),
            SignatureAlgorithm::Es256
            | SignatureAlgorithm::Es384
            | SignatureAlgorithm::Es512
            | SignatureAlgorithm::Eddsa
            | SignatureAlgorithm::Esp256
            | SignatureAlgorithm::Esp384
            | SignatureAlgorithm::Esp512
            | SignatureAlgorithm::Ed25519 => None,
        }
    }

    // Whether the algorithm is that of keys on the curve Ed25519.
    pub(crate) fn is_eddsa(self) -> bool
        ensures { result ≡ is_eddsa self }
    {
        "EdDSA" == self.name() || "Ed25519" == self.name()
    }

    // Whether the algorithm is the one of this curve.
    pub(crate) fn is_of_curve(self, curve: EllipticCurve) -> bool
        ensures { result ≡ is_of_curve curve self }
    {
        match curve {
            EllipticCurve::P256 => "ES256" == self.name() || "ESP256" == self.name(),
            EllipticCurve::P384 => "ES384" == self.name() || "ESP384" == self.name(),
            EllipticCurve::P521 => "ES512" == self.name() || "ESP512" == self.name(),
        }
    }
}
