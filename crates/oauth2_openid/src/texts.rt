//! Whether a text is one of several, as the rules for tokens ask.

ghost use Rattle.std.specs.Prelude.{◌≡◌, ◌∷◌, map, string_bytes};
ghost use Rattle.oauth2_openid.specs.Checks.{are_among, is_among};

/// Whether a text is one of these, byte for byte.
pub fn is_among(texts: &[String], text: &str) -> bool
    ensures { result ≡ is_among text.now (map string_bytes texts.now) }
{
    for each in texts {
        if each.as_str() == text {
            return true;
        }
    }
    false
}

/// Whether a text is the first, or one of the others, byte for byte.
pub fn is_known(text: &str, first: &str, others: &[String]) -> bool
    ensures { result ≡ is_among text.now (first.now ∷ map string_bytes others.now) }
{
    first == text || is_among(others, text)
}

/// Whether each of the texts is the first, or one of the others, byte for byte.
pub fn are_known(texts: &[String], first: &str, others: &[String]) -> bool
    ensures { result ≡ are_among (map string_bytes texts.now)
        (first.now ∷ map string_bytes others.now) }
{
    for each in texts {
        if !is_known(each.as_str(), first, others) {
            return false;
        }
    }
    true
}
