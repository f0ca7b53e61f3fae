//! The curves of keys, by their names (RFC 7518, 6.2.1.1).

ghost use Rattle.std.specs.Prelude.{◌≡◌};
ghost use Rattle.oauth2_keys.specs.Curves.{curve_name, curve_named};

use ecdsa_signatures::EllipticCurve;

// The name of a curve, as `crv` has it.
pub(crate) fn curve_name(curve: EllipticCurve) -> &'static str
    ensures { result.now ≡ curve_name curve }
{
    match curve {
        EllipticCurve::P256 => "P-256",
        EllipticCurve::P384 => "P-384",
        EllipticCurve::P521 => "P-521",
    }
}

// The curve with this name.
pub(crate) fn curve_named(name: &str) -> Option<EllipticCurve>
    ensures { result ≡ curve_named name.now }
{
    match name {
        "P-256" => Some(EllipticCurve::P256),
        "P-384" => Some(EllipticCurve::P384),
        "P-521" => Some(EllipticCurve::P521),
        _ => None,
    }
}
