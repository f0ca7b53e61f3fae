//! The length of the query of an authorization URL, counted pair by pair without allocating. All
//! lengths are in bytes; `usize::MAX` means that or more.

ghost use Rattle.std.specs.Prelude.{◌≡◌, ◌≢◌, ◌∷◌, [], ◌++◌, List, ℕ, None, IfSome, codes};
ghost use Rattle.std.specs.Prelude.{◌↔◌, IsTrue, length, map, option_map};
ghost use Rattle.std.specs.List.{flat_map};
ghost use Rattle.form_urlencoded.specs.Form.{byte_serialize, extend_pairs};
ghost use Rattle.oauth2_form.specs.Length.{usize_len};
ghost use Rattle.oauth2_json.specs.Words.{joined_words};
ghost use Rattle.oauth2_requests.specs.Authorization.{challenge_pairs, scope_pairs};
ghost use Rattle.oauth2_wire.specs.Expected.{optional_pair};
ghost use Rattle.oauth2_wire.specs.Texts.{given_text, param_pair, redirect_of};

use oauth2_form::{encoded_len, len_with_pair};
use oauth2_types::{PkceCodeChallenge, Scope};
use oauth2_wire::{ParamText, RedirectRef};

/// The length `len` with the parameters of a code challenge added.
pub fn with_challenge(len: usize, challenge: &Option<PkceCodeChallenge>) -> usize
    ensures { (query : List ℕ) → len ≡ usize_len query
        → result ≡ usize_len (extend_pairs query (challenge_pairs challenge.now)) }
{
    match challenge {
        Some(challenge) => {
            let len = with_pair(len, "code_challenge", challenge.as_str());
            with_pair(len, "code_challenge_method", challenge.method().as_str())
        }
        None => len,
    }
}

/// The length `len` with the parameter `redirect_uri` added.
pub fn with_redirect(len: usize, redirect: &Option<RedirectRef<'_>>) -> usize
    ensures { let text = option_map given_text (option_map redirect_of redirect.now) in
        (query : List ℕ) → len ≡ usize_len query
        → result ≡ usize_len (extend_pairs query (optional_pair (codes "redirect_uri") text)) }
{
    match redirect {
        Some(redirect) => with_pair(len, "redirect_uri", redirect.redirect_url().as_str()),
        None => len,
    }
}

/// The length `len` with the parameter `scope` added.
pub fn with_scopes(len: usize, scopes: &[Scope]) -> usize
    ensures { (query : List ℕ) → len ≡ usize_len query
        → result ≡ usize_len (extend_pairs query (scope_pairs (joined_words scopes.now))) }
{
    match joined_len(scopes) {
        Some(scope_len) => len_with_pair(len, "scope", scope_len),
        None => len,
    }
}

// The length of the scopes, joined and encoded; `None` if the joined text is empty.
fn joined_len(scopes: &[Scope]) -> Option<usize>
    ensures some { IfSome result (λ len. (joined_words scopes.now ≢ [])
        × (len ≡ usize_len (byte_serialize (joined_words scopes.now)))) }
    ensures none { result ≡ None → joined_words scopes.now ≡ [] }
{
    let (first, others) = scopes.split_first()?;
    if is_one_empty(first, others) {
        return None;
    }
    Some(with_further(encoded_len(first.as_str()), others))
}

// Whether there is only one scope, and it is empty.
fn is_one_empty(first: &Scope, others: &[Scope]) -> bool
    ensures { IsTrue result ↔ ((length first.now ≡ 0) × (length others.now ≡ 0)) }
{
    first.as_str().is_empty() && others.is_empty()
}

// The length of an encoded text of length `len` with further words, each after a space.
fn with_further(mut len: usize, words: &[Scope]) -> usize
    ensures { let further = flat_map (λ word. codes " " ++ word) words.now in
        (text : List ℕ) → len ≡ usize_len (byte_serialize text)
        → result ≡ usize_len (byte_serialize (text ++ further)) }
{
    for word in words {
        len = len
            .saturating_add("+".len())
            .saturating_add(encoded_len(word.as_str()));
    }
    len
}

/// The length `len` with the extra parameters added.
pub fn with_extra_params(mut len: usize, extra_params: &[(ParamText<'_>, ParamText<'_>)]) -> usize
    ensures { (query : List ℕ) → len ≡ usize_len query
        → result ≡ usize_len (extend_pairs query (map param_pair extra_params.now)) }
{
    for (name, value) in extra_params {
        len = with_pair(len, name.as_str(), value.as_str());
    }
    len
}

/// The length `len` with one more pair.
pub fn with_pair(len: usize, name: &str, value: &str) -> usize
    ensures { (query : List ℕ) → len ≡ usize_len query
        → result ≡ usize_len (extend_pairs query ((name.now, value.now) ∷ [])) }
{
    len_with_pair(len, name, encoded_len(value))
}
