//! The laws of the compact form of a token (RFC 7515, section 7.1).

ghost use Rattle.std.specs.Prelude.{◌≡◌, ◌↔◌, ℕ, List, Some};
ghost use Rattle.base64.specs.GeneralPurpose.{IsBytes};
ghost use Rattle.oauth2_types.specs.Pkce.{base64url};
ghost use Rattle.oauth2_openid.specs.Token.{Parts, three_parts, AreParts, bytes_of};

/// A text has these three parts exactly if it is `header.payload.signature`, with no dot in any of
/// the three.
pub fn parts_are_between_dots()
    ensures { (text : List ℕ) (p : Parts) → (three_parts text ≡ Some p) ↔ AreParts p text }
{}

/// The base64url of bytes is read as those bytes, and no other text is.
#[tactic(auto, using(crate::proofs::Encoded::reads_to_its_bytes))]
pub fn base64url_alone_reads_to_its_bytes()
    ensures { (text bytes : List ℕ) → IsBytes text → IsBytes bytes
        → (bytes_of text ≡ Some bytes) ↔ (text ≡ base64url bytes) }
{}
