//! The common part of the secrets: a text that is compared by its digest.

ghost use Rattle.std.specs.Prelude.{◌≡◌, ℕ, List, string_bytes, IfOk};
ghost use Rattle.std.proofs.Common.{rules};
ghost use Rattle.std.specs.Cmp.Rules.{comparing};
ghost use Rattle.sha2.specs.Sha256.{sha256};
ghost use Rattle.oauth2_types.specs.Digest.{digest_eq, digest_input, digest-alike};

use sha2::{Digest, Sha256};
use std::alloc::{AllocError, Global};
use std::hash::{Hash, Hasher};
use std::marker::Model;

pub(crate) struct Secret {
    text: String,
}

impl Drop for Secret {
    fn drop(self) {
        let Secret { text: _ } = self;
    }
}

impl Model for Secret {
    ghost Value = { List ℕ };

    ghost view = { λ s. string_bytes s.text };
}

impl Secret {
    pub(crate) fn new(text: String) -> Secret
        ensures { result ≡ string_bytes text }
    {
        Secret { text }
    }

    pub(crate) fn text(&self) -> &String
        ensures { string_bytes result.now ≡ self.now }
    {
        &self.text
    }

    pub(crate) fn into_text(self) -> String
        ensures { string_bytes result ≡ self }
    {
        let Secret { text } = self;
        text
    }

    pub(crate) fn copy(&self, alloc: Global) -> Result<Secret, AllocError>
        ensures { IfOk result (λ copy. copy ≡ self.now) }
    {
        Ok(Secret {
            text: String::from_str(alloc, self.text.as_str())?,
        })
    }
}

fn digest_of(text: &str) -> [u8; 32]
    ensures { result ≡ sha256 text.now }
{
    Sha256::digest(text.as_bytes())
}

impl PartialEq for Secret {
    ghost eq = { digest_eq };

    ghost laws = { Prim.search (comparing, rules) };

    fn eq(&self, other: &Secret) -> bool {
        digest_of(self.text.as_str()) == digest_of(other.text.as_str())
    }
}

// Equality is reflexive, symmetric and transitive. Secrets with equal texts are equal. Secrets with
// different texts are equal only if their texts have the same digest.
impl Eq for Secret {
    ghost laws = { Prim.search (comparing, rules) };
}

// Equal secrets have equal hashes.
impl Hash for Secret {
    ghost hash_input = { digest_input };

    ghost respects_eq = { digest-alike };

    fn hash<H: Hasher>(&self, state: &mut H) {
        digest_of(self.text.as_str()).hash(state);
    }
}
