//! Absolute URIs (RFC 3986, section 4.3).

ghost use Rattle.std.specs.Prelude.{◌≡◌, option_map};
ghost use Rattle.std.specs.List.{list_all};
ghost use Rattle.oauth2_resource_indicators.specs.AbsoluteUri.{
  begins_with_digits,
  begins_with_letter,
  escapes_are_whole,
  is_absolute_uri,
  is_scheme,
  is_scheme_byte,
  is_uri_byte,
  is_uri_text,
};
ghost use Rattle.oauth2_resource_indicators.specs.private.Colon.{split_colon};

/// Whether a text is an absolute URI, as far as its scheme, its characters and its percent signs
/// tell: it has no fragment then.
#[tactic(auto, unfolding(crate::specs::AbsoluteUri::is_absolute_uri))]
pub fn is_absolute_uri(text: &str) -> bool
    ensures { result ≡ is_absolute_uri text.now }
{
    match split_colon(text) {
        Some((scheme, rest)) => is_scheme(scheme.as_bytes()) && is_uri_text(rest.as_bytes()),
        None => false,
    }
}

// What is before the first colon, and after it.
fn split_colon(text: &str) -> Option<(&str, &str)>
    ensures { option_map (λ two. (two.0.now, two.1.now)) result ≡ split_colon text.now }
{
    text.split_once(':')
}

fn is_scheme(text: &[u8]) -> bool
    ensures { result ≡ is_scheme text.now }
{
    begins_with_letter(text) && are_scheme_bytes(text)
}

fn begins_with_letter(text: &[u8]) -> bool
    ensures { result ≡ begins_with_letter text.now }
{
    match text {
        [] => false,
        [b, ..] => b.is_ascii_alphabetic(),
    }
}

fn are_scheme_bytes(text: &[u8]) -> bool
    ensures { result ≡ list_all is_scheme_byte text.now }
{
    text.iter().all(|&b| is_scheme_byte(b))
}

fn is_scheme_byte(b: u8) -> bool
    ensures { result ≡ is_scheme_byte b }
{
    b.is_ascii_alphanumeric() || b == b'+' || b == b'-' || b == b'.'
}

fn is_uri_text(text: &[u8]) -> bool
    ensures { result ≡ is_uri_text text.now }
{
    are_uri_bytes(text) && escapes_are_whole(text)
}

fn are_uri_bytes(text: &[u8]) -> bool
    ensures { result ≡ list_all is_uri_byte text.now }
{
    text.iter().all(|&b| is_uri_byte(b))
}

fn is_uri_byte(b: u8) -> bool
    ensures { result ≡ is_uri_byte b }
{
    b.is_ascii_alphanumeric() || b"-._~:/?[]@!$&'()*+,;=%".contains(&b)
}

// Whether two hexadecimal digits follow each percent sign.
fn escapes_are_whole(text: &[u8]) -> bool
    ensures { result ≡ escapes_are_whole text.now }
{
    let mut rest = text;
    while let [b, after @ ..] = rest {
        if *b == b'%' && !begins_with_digits(after) {
            return false;
        }
        rest = after;
    }
    true
}

fn begins_with_digits(text: &[u8]) -> bool
    ensures { result ≡ begins_with_digits text.now }
{
    match text {
        [a, b, ..] => a.is_ascii_hexdigit() && b.is_ascii_hexdigit(),
        _ => false,
    }
}
