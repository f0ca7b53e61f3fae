//! A token in compact form as it was read.

ghost use Rattle.std.specs.Prelude.{◌≡◌, ◌∷◌, ◌++◌, IfOk, Some};
ghost use Rattle.serde_json.specs.View.{view};
ghost use Rattle.oauth2_openid.specs.Token.{TokenReadsAs, compact_of, three_parts, token_parts};
ghost use Rattle.oauth2_openid.specs.Seen.{compact_token_of};
ghost use Rattle.oauth2_openid.specs.Reading.{json_part, parts_reading, text_reading, usual_limit};

use crate::compact::{decode_part, three_parts};
use crate::header::{IdTokenHeader, WholeHeader};
use crate::read_error::{IdTokenReadError, TokenPart};
use oauth2_json::{FromJson, ReadError};
use serde_json::Value;
use std::alloc::Global;

/// A token in compact form (RFC 7515, section 7.1) whose claims are read as a `C`, and whose
/// signature nobody has checked. It makes no difference to the reading what kind of token it is:
/// the type that holds it says which claims are read, and has the rules for them.
pub struct CompactToken<C> {
    header: WholeHeader,
    claims: C,
    signed_part: String,
    signature: Vec<u8>,
}

impl<C: Drop> Drop for CompactToken<C> {
    fn drop(self) {
        let CompactToken {
            header: _,
            claims: _,
            signed_part: _,
            signature: _,
        } = self;
    }
}

// Decodes a part of the token, and reads its JSON.
#[tactic(auto, using(crate::proofs::Parts::json_part_has_parts))]
fn read_part<T: FromJson>(alloc: Global, part: TokenPart, text: &str) -> Result<T, IdTokenReadError>
    ensures { TokenReadsAs T.meaning result (json_part T.reading part text.now) }
{
    let Some(bytes) = decode_part(alloc, text)? else {
        return Err(IdTokenReadError::NotBase64(part));
    };
    match T::from_body(alloc, bytes.as_slice()) {
        Ok(read) => Ok(read),
        Err(ReadError::Fault(fault)) => Err(IdTokenReadError::Fault(part, fault)),
        Err(ReadError::Memory) => Err(IdTokenReadError::Memory),
    }
}

impl<C: FromJson + Drop> CompactToken<C> {
    /// Reads a token in compact form (RFC 7515, section 7.1), if it has at most 64 KiB.
    pub fn from_text(alloc: Global, text: &str) -> Result<CompactToken<C>, IdTokenReadError>
        ensures read { TokenReadsAs (compact_token_of C.meaning) result
            (text_reading C.reading usual_limit text.now) }
        // No byte of the text is lost.
        ensures compact { IfOk result
            (λ t. text.now ≡ compact_of (compact_token_of C.meaning t)) }
    {
        CompactToken::from_text_with_limit(alloc, text, 65536)
    }

    /// Reads a token in compact form, if it has at most `limit` bytes. What it holds in memory is at
    /// most a multiple of that.
    pub fn from_text_with_limit(
        alloc: Global,
        text: &str,
        limit: usize,
    ) -> Result<CompactToken<C>, IdTokenReadError>
        ensures read { TokenReadsAs (compact_token_of C.meaning) result
            (text_reading C.reading limit text.now) }
        // No byte of the text is lost.
        ensures compact { IfOk result
            (λ t. text.now ≡ compact_of (compact_token_of C.meaning t)) }
    {
        if text.len() <= limit {
            CompactToken::of_text(alloc, text)
        } else {
            Err(IdTokenReadError::TooLong)
        }
    }

    fn of_text(alloc: Global, text: &str) -> Result<CompactToken<C>, IdTokenReadError>
        ensures read { TokenReadsAs (compact_token_of C.meaning) result
            (parts_reading C.reading (three_parts text.now)) }
        ensures compact { IfOk result
            (λ t. text.now ≡ compact_of (compact_token_of C.meaning t)) }
    {
        match three_parts(text) {
            Some((header, payload, signature)) => {
                CompactToken::from_parts(alloc, header, payload, signature)
            }
            None => Err(IdTokenReadError::NotThreeParts),
        }
    }

    #[tactic(auto, using(crate::proofs::Parts::has_parts))]
    fn from_parts(
        alloc: Global,
        header: &str,
        payload: &str,
        signature: &str,
    ) -> Result<CompactToken<C>, IdTokenReadError>
        ensures read { TokenReadsAs (compact_token_of C.meaning) result (parts_reading C.reading
            (Some (token_parts header.now payload.now signature.now))) }
        ensures compact { IfOk result
            (λ t. (header.now ++ (46 ∷ payload.now)) ++ (46 ∷ signature.now)
            ≡ compact_of (compact_token_of C.meaning t)) }
    {
        let signed_part = format!(in alloc; "{header}.{payload}")?;
        let header = read_part::<WholeHeader>(alloc, TokenPart::Header, header)?;
        let claims = read_part::<C>(alloc, TokenPart::Payload, payload)?;
        let Some(signature) = decode_part(alloc, signature)? else {
            return Err(IdTokenReadError::NotBase64(TokenPart::Signature));
        };
        Ok(CompactToken {
            header,
            claims,
            signed_part,
            signature,
        })
    }
}

impl<C> CompactToken<C> {
    /// The header.
    pub fn header(&self) -> &IdTokenHeader
        ensures { result.now ≡ (compact_token_of (λ c. c) self.now).header.own }
    {
        &self.header.header
    }

    /// The object of the header's members that `IdTokenHeader` has no method for.
    pub fn other_header_members(&self) -> &Value
        ensures { view result.now ≡ (compact_token_of (λ c. c) self.now).header.others }
    {
        &self.header.others
    }

    /// The claims.
    pub fn claims(&self) -> &C
        ensures { result.now ≡ (compact_token_of (λ c. c) self.now).claims }
    {
        &self.claims
    }

    /// The text that the signature is over.
    pub fn signed_part(&self) -> &str
        ensures { result.now ≡ (compact_token_of (λ c. c) self.now).signed }
    {
        self.signed_part.as_str()
    }

    /// The bytes of the signature; empty for a token without one.
    pub fn signature(&self) -> &[u8]
        ensures { result.now ≡ (compact_token_of (λ c. c) self.now).signature }
    {
        self.signature.as_slice()
    }
}
