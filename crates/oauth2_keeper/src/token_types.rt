//! The token types that a caller can use (RFC 6749, section 7.1).

ghost use Rattle.std.specs.Prelude.{◌≡◌, map};
ghost use Rattle.oauth2_keeper.specs.TokenTypes.{is_named, is_one_of, type_text};

use oauth2::TokenType;
use oauth2::basic::BasicTokenType;
use std::convert::AsStr;

/// The token type of a caller that can use bearer tokens alone (RFC 6750).
pub const BEARER: &[&str] = &["Bearer"];

/// A token type whose text is the JSON string that it is written as.
pub trait NamedTokenType: TokenType + AsStr {
    ghost use Rattle.std.specs.Prelude.{◌≡◌, Ok};
    ghost use Rattle.serde_json.specs.Data.{string};

    ghost is_written_as_text: { (t : Self)
        → Self.ToJson.writing t ≡ Ok (string (Self.AsStr.text t)) };
}

impl NamedTokenType for BasicTokenType {
    ghost use Rattle.std.proofs.Common.{refl};

    ghost is_written_as_text = { λ t. refl };
}

// The text of a token type.
pub(crate) fn name_of<T: NamedTokenType>(token_type: &T) -> &str
    ensures { result.now ≡ type_text (T.writing token_type.now) }
{
    token_type.as_str()
}

/// Whether a token type has one of these names, in any case of its letters.
pub fn is_one_of(token_types: &[&str], found: &str) -> bool
    ensures { result ≡ is_one_of (map (λ name. name.now) token_types.now) found.now }
{
    for name in token_types {
        if is_named(found, *name) {
            return true;
        }
    }
    false
}

// Whether a token type has this name, in any case.
fn is_named(found: &str, name: &str) -> bool
    ensures { result ≡ is_named found.now name.now }
{
    found.eq_ignore_ascii_case(name)
}
