//! The names of the parameters in a form.

ghost use Rattle.std.specs.Prelude.{◌≡◌, bytes_eq, IsTrue};
ghost use Rattle.std.specs.List.{list_all};
ghost use Rattle.form_urlencoded.specs.Form.{decode as decoded};
ghost use Rattle.percent_encoding.specs.Percent.{percent_decode};
ghost use Rattle.oauth2_form.specs.Pairs.{form};
ghost use Rattle.oauth2_client_assertions.specs.Requests.{has_credential, is_credential_name};
ghost use Rattle.oauth2_client_assertions.specs.private.Names.{is_no_space};

use form_urlencoded::raw_pairs;
use percent_encoding::percent_decode;

// Whether a form has a parameter by which a client authenticates.
pub(crate) fn has_credential(body: &[u8]) -> bool
    ensures { result ≡ has_credential (form body.now) }
{
    for (name, _) in raw_pairs(body) {
        if is_credential_name(name) {
            return true;
        }
    }
    false
}

// Whether a name, as it is encoded, is that of such a parameter.
fn is_credential_name(encoded: &[u8]) -> bool
    ensures { result ≡ is_credential_name (decoded encoded.now) }
{
    is_encoded(encoded, b"client_secret")
        || is_encoded(encoded, b"client_assertion")
        || is_encoded(encoded, b"client_assertion_type")
}

// Whether a text in a form decodes to this name, which has neither a space nor a plus.
#[tactic(auto, using(crate::proofs::NameLemmas::same_without_spaces))]
fn is_encoded(encoded: &[u8], name: &[u8]) -> bool
    requires { IsTrue (list_all is_no_space name.now) }
    ensures { result ≡ bytes_eq (decoded encoded.now) name.now }
{
    is_percent_encoded(encoded, name)
}

// Whether a text decodes to this name if a plus stands for itself.
fn is_percent_encoded(encoded: &[u8], name: &[u8]) -> bool
    ensures { result ≡ bytes_eq (percent_decode encoded.now) name.now }
{
    let mut left = percent_decode(encoded);
    for &byte in name {
        if left.next() != Some(byte) {
            return false;
        }
    }
    left.next().is_none()
}
