//! The rows `rsa`.
//!
//! A row `key MODULUS EXPONENT` takes a key, and a row `ALGORITHM MESSAGE SIGNATURE` checks a
//! signature by it, where ALGORITHM is a name of RFC 7518, 3.1, such as `RS256`. A row `show` prints
//! the key. Octets are written in hex, and no octets as `-`.

use crate::signature_checks::RowKey;
use rsa_signatures::{HashFunction, RsaPublicKey, SignatureScheme};
use std::io::{self, Write};

fn scheme_of(algorithm: &str) -> Option<SignatureScheme> {
    match algorithm {
        "RS256" => Some(SignatureScheme::Pkcs1v15(HashFunction::Sha256)),
        "RS384" => Some(SignatureScheme::Pkcs1v15(HashFunction::Sha384)),
        "RS512" => Some(SignatureScheme::Pkcs1v15(HashFunction::Sha512)),
        "PS256" => Some(SignatureScheme::Pss(HashFunction::Sha256)),
        "PS384" => Some(SignatureScheme::Pss(HashFunction::Sha384)),
        "PS512" => Some(SignatureScheme::Pss(HashFunction::Sha512)),
        _ => None,
    }
}

impl RowKey for RsaPublicKey {
    fn is_taken_by(name: &str) -> bool {
        name == "key"
    }

    fn take<W: Write>(
        _name: &str,
        modulus: &[u8],
        exponent: &[u8],
        writer: &mut W,
    ) -> io::Result<Option<RsaPublicKey>> {
        match RsaPublicKey::new(modulus, exponent) {
            Ok(key) => {
                writeln!(writer, "{} octets, exponent {}", key.size(), key.exponent())?;
                Ok(Some(key.clone()?))
            }
            Err(error) => {
                writeln!(writer, "{error}")?;
                Ok(None)
            }
        }
    }

    fn verdict(&self, algorithm: &str, message: &[u8], signature: &[u8]) -> Option<bool> {
        Some(self.verify(scheme_of(algorithm)?, message, signature))
    }
}
