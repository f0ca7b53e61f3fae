//! The rows `ecdsa`.
//!
//! A row `P-256 X Y`, `P-384 X Y` or `P-521 X Y` takes a key, and a row `ES256 MESSAGE SIGNATURE`
//! checks a signature by it, or one with `ES384` or `ES512`. A row `show` prints the key. Octets are
//! written in hex, and no octets as `-`.

use crate::signature_checks::RowKey;
use ecdsa_signatures::{EcdsaPublicKey, EllipticCurve};
use std::io::{self, Write};

// The curve of a name (RFC 7518, 6.2.1.1), and the name of its algorithm.
fn curve_of(name: &str) -> Option<EllipticCurve> {
    match name {
        "P-256" => Some(EllipticCurve::P256),
        "P-384" => Some(EllipticCurve::P384),
        "P-521" => Some(EllipticCurve::P521),
        _ => None,
    }
}

fn algorithm_of(curve: EllipticCurve) -> &'static str {
    match curve {
        EllipticCurve::P256 => "ES256",
        EllipticCurve::P384 => "ES384",
        EllipticCurve::P521 => "ES512",
    }
}

fn take_key<W: Write>(
    curve: EllipticCurve,
    x: &[u8],
    y: &[u8],
    writer: &mut W,
) -> io::Result<Option<EcdsaPublicKey>> {
    match EcdsaPublicKey::new(curve, x, y) {
        Ok(key) => {
            let is_kept = key.curve() == curve && key.x() == x && key.y() == y;
            writeln!(writer, "{is_kept:?}")?;
            Ok(Some(key.clone()?))
        }
        Err(error) => {
            writeln!(writer, "{error}")?;
            Ok(None)
        }
    }
}

impl RowKey for EcdsaPublicKey {
    fn is_taken_by(name: &str) -> bool {
        curve_of(name).is_some()
    }

    fn take<W: Write>(
        name: &str,
        x: &[u8],
        y: &[u8],
        writer: &mut W,
    ) -> io::Result<Option<EcdsaPublicKey>> {
        match curve_of(name) {
            Some(curve) => take_key(curve, x, y, writer),
            None => Ok(None),
        }
    }

    fn verdict(&self, algorithm: &str, message: &[u8], signature: &[u8]) -> Option<bool> {
        if algorithm == algorithm_of(self.curve()) {
            Some(self.verify(message, signature))
        } else {
            None
        }
    }
}
