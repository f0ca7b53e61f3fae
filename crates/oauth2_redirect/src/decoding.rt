//! Compares two encoded names or values of a form by what they decode to; this allocates nothing.

ghost use Rattle.std.specs.Prelude.{◌≡◌, ◌∷◌, ◌<◌, [], bytes_eq, length, IfSome, MatchOption};
ghost use Rattle.percent_encoding.specs.Percent.{percent_sign};
ghost use Rattle.form_urlencoded.specs.Form.{decode as decoded};

// The byte of an escape whose `%` was taken off the front, and what follows the escape.
fn split_escape(bytes: &[u8]) -> Option<(u8, &[u8])>
    ensures value { let whole = decoded (percent_sign ∷ bytes.now) in
        MatchOption result (whole ≡ percent_sign ∷ decoded bytes.now)
        (λ first. whole ≡ first.0 ∷ decoded first.1.now) }
    ensures shorter { IfSome result (λ first. length first.1.now < length bytes.now) }
{
    let [high, low, rest @ ..] = bytes else {
        return None;
    };
    let high = char::from(*high).to_digit(16)?;
    let low = char::from(*low).to_digit(16)?;
    Some((high as u8 * 0x10 + low as u8, rest))
}

// The first byte that an encoded text decodes to, and the encoded text behind it.
fn split_decoded(encoded: &[u8]) -> Option<(u8, &[u8])>
    ensures value { MatchOption result (encoded.now ≡ [])
        (λ first. decoded encoded.now ≡ first.0 ∷ decoded first.1.now) }
    ensures shorter { IfSome result (λ first. length first.1.now < length encoded.now) }
{
    let (&byte, rest) = encoded.split_first()?;
    match byte {
        b'+' => Some((b' ', rest)),
        b'%' => split_escape(rest).or(Some((b'%', rest))),
        _ => Some((byte, rest)),
    }
}

// Whether two encoded texts decode to the same bytes.
pub(crate) fn decode_alike(encoded: &[u8], other: &[u8]) -> bool
    ensures { result ≡ bytes_eq (decoded encoded.now) (decoded other.now) }
{
    let mut left = encoded;
    let mut other_left = other;
    while let Some((byte, rest)) = split_decoded(left) {
        let Some((other_byte, other_rest)) = split_decoded(other_left) else {
            return false;
        };
        if byte != other_byte {
            return false;
        }
        left = rest;
        other_left = other_rest;
    }
    split_decoded(other_left).is_none()
}
