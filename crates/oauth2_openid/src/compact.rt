//! The compact form of a token: three parts of base64url (RFC 7515, section 7.1).

ghost use Rattle.std.specs.Prelude.{◌≡◌, ◌∷◌, ◌++◌, IfOk, IfSome, Some, option_map};
ghost use Rattle.oauth2_types.specs.Pkce.{base64url};
ghost use Rattle.oauth2_openid.specs.Token.{bytes_of, token_parts, three_parts};
ghost use Rattle.oauth2_openid.specs.private.Dots.{split_dot, after_header};

use base64::DecodeAllocError;
use base64::display::Base64Display;
use base64::engine::general_purpose::URL_SAFE_NO_PAD;
use std::alloc::{AllocError, Global};
use std::fmt;

fn split_dot(text: &str) -> Option<(&str, &str)>
    ensures joined { IfSome result (λ two. text.now ≡ two.0.now ++ (46 ∷ two.1.now)) }
    ensures parts { option_map (λ two. (two.0.now, two.1.now)) result ≡ split_dot text.now }
{
    text.split_once('.')
}

// The header, the payload and the signature, if there are exactly three parts.
#[tactic(auto, using(crate::proofs::Dots::in_turn))]
pub(crate) fn three_parts(text: &str) -> Option<(&str, &str, &str)>
    ensures joined { IfSome result (λ p. text.now ≡ (p.0.now ++ (46 ∷ p.1.now)) ++ (46 ∷ p.2.now)) }
    ensures parts { option_map (λ p. token_parts p.0.now p.1.now p.2.now) result
        ≡ three_parts text.now }
{
    cut_at_dots(text)
}

// The three parts, cut at the first dot and then at the second.
fn cut_at_dots(text: &str) -> Option<(&str, &str, &str)>
    ensures joined { IfSome result (λ p. text.now ≡ (p.0.now ++ (46 ∷ p.1.now)) ++ (46 ∷ p.2.now)) }
    ensures parts { option_map (λ p. token_parts p.0.now p.1.now p.2.now) result
        ≡ after_header (split_dot text.now) }
{
    let (header, rest) = split_dot(text)?;
    let (payload, signature) = split_dot(rest)?;
    if split_dot(signature).is_some() {
        return None;
    }
    Some((header, payload, signature))
}

// The bytes of a part; `None` if it is not base64url without padding.
#[tactic(auto, unfolding(crate::specs::Token::bytes_of, oauth2_types::specs::Pkce::base64url))]
pub(crate) fn decode_part(alloc: Global, text: &str) -> Result<Option<Vec<u8>>, AllocError>
    ensures value { IfOk result
        (λ found. option_map (λ bytes. bytes.items) found ≡ bytes_of text.now) }
    ensures exact { IfOk result
        (λ found. IfSome found (λ bytes. text.now ≡ base64url bytes.items)) }
{
    match URL_SAFE_NO_PAD.decode(alloc, text.as_bytes()) {
        Ok(bytes) => Ok(Some(bytes)),
        Err(DecodeAllocError::DecodeError(_)) => Ok(None),
        Err(DecodeAllocError::OutOfMemory) => Err(AllocError),
    }
}

// Bytes that `Display` writes in base64url.
#[derive(Clone, Copy)]
pub(crate) struct Encoded<'a> {
    pub(crate) bytes: &'a [u8],
}

impl fmt::Display for Encoded<'_> {
    ghost output = { λ e. Some (base64url e.bytes.now) };

    #[tactic(auto, unfolding(oauth2_types::specs::Pkce::base64url))]
    fn fmt<W: fmt::Write>(&self, f: &mut fmt::Formatter<W>) -> fmt::Result {
        fmt::Display::fmt(&Base64Display::new(self.bytes, &URL_SAFE_NO_PAD), f)
    }
}
