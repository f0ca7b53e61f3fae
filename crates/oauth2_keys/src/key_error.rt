//! Why a key cannot be used.

ghost use Rattle.std.specs.Prelude.{◌≡◌, Some};
ghost use Rattle.oauth2_keys.specs.ErrorTexts.{key_error_text};
ghost use Rattle.oauth2_keys.specs.Members.{member_name};

use ecdsa_signatures::EcdsaKeyError;
use eddsa_signatures::EddsaKeyError;
use oauth2_types::display::write_display;
use rsa_signatures::RsaKeyError;
use std::fmt;

/// A member of a JSON Web Key (RFC 7517, 4; RFC 7518, 6.2.1 and 6.3.1; RFC 8037, 2).
#[derive(Clone, Copy, Debug, PartialEq, Eq, Drop)]
pub enum KeyMember {
    /// `kty`
    KeyType,
    /// `use`
    Use,
    /// `key_ops`
    Operations,
    /// `alg`
    Algorithm,
    /// `kid`
    KeyId,
    /// `n`
    Modulus,
    /// `e`
    Exponent,
    /// `crv`
    Curve,
    /// `x`
    X,
    /// `y`
    Y,
}

/// The first fault of a key that a set lists.
#[derive(Clone, Copy, Debug, PartialEq, Eq, Drop)]
pub enum KeyError {
    /// It is a private key or a secret: it has a member `d` or `k` (RFC 7518, 6.2.2, 6.3.2 and
    /// 6.4.1; RFC 8037, 2). Whoever can read the set can sign with it.
    Private,
    /// The member is missing, or null.
    Missing(KeyMember),
    /// The member has another JSON type.
    WrongType(KeyMember),
    /// The text of the member is not base64url without padding.
    NotBase64(KeyMember),
    /// The key type (`kty`) is none of `RSA`, `EC` and `OKP`.
    UnknownType,
    /// The curve (`crv`) is not `P-256`, `P-384` or `P-521` for `EC`, or not `Ed25519` for `OKP`.
    UnknownCurve,
    /// The coordinate does not have as many octets as those of the curve, which is 32 for `P-256`,
    /// 48 for `P-384` and 66 for `P-521` (RFC 7518, 6.2.1.2 and 6.2.1.3).
    WrongSize(KeyMember),
    /// The modulus or the exponent of an RSA key is refused.
    Rsa(RsaKeyError),
    /// The coordinates of a key on a curve are refused.
    Ecdsa(EcdsaKeyError),
    /// The octets of a key of Ed25519 are refused.
    Eddsa(EddsaKeyError),
}

impl KeyMember {
    pub(crate) fn name(self) -> &'static str
        ensures { result.now ≡ member_name self }
    {
        match self {
            KeyMember::KeyType => "kty",
            KeyMember::Use => "use",
            KeyMember::Operations => "key_ops",
            KeyMember::Algorithm => "alg",
            KeyMember::KeyId => "kid",
            KeyMember::Modulus => "n",
            KeyMember::Exponent => "e",
            KeyMember::Curve => "crv",
            KeyMember::X => "x",
            KeyMember::Y => "y",
        }
    }
}

impl fmt::Display for KeyMember {
    ghost output = { λ member. Some (member_name member) };

    ghost styled_output = { λ member _. Some (member_name member) };

    fn fmt<W: fmt::Write>(&self, f: &mut fmt::Formatter<W>) -> fmt::Result {
        f.write_str(self.name())
    }
}

impl fmt::Display for KeyError {
    ghost output = { λ error. Some (key_error_text error) };

    ghost styled_output = { λ error _. Some (key_error_text error) };

    fn fmt<W: fmt::Write>(&self, f: &mut fmt::Formatter<W>) -> fmt::Result {
        match self {
            KeyError::Private => f.write_str("the key is a private key or a secret"),
            KeyError::Missing(member) => write_display(
                f,
                format_args!("the key has no member {member}"),
            ),
            KeyError::WrongType(member) => write_display(
                f,
                format_args!("the member {member} has another type"),
            ),
            KeyError::NotBase64(member) => write_display(
                f,
                format_args!("the member {member} is not base64url"),
            ),
            KeyError::UnknownType => f.write_str("the key type is not RSA, EC or OKP"),
            KeyError::UnknownCurve => f.write_str("the curve is not supported"),
            KeyError::WrongSize(member) => write_display(
                f,
                format_args!("the member {member} is not as long as the curve says"),
            ),
            KeyError::Rsa(error) => write_display(f, error),
            KeyError::Ecdsa(error) => write_display(f, error),
            KeyError::Eddsa(error) => write_display(f, error),
        }
    }
}

impl std::error::Error for KeyError {}
