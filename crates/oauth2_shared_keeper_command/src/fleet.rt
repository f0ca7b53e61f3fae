//! What the keepers share, and the renewal of each.

ghost use Rattle.std.specs.Prelude.{◌≡◌, ◌∷◌, ◌++◌, [], None, Some, IfOk, replicate, slice_set};
ghost use Rattle.std.specs.Prelude.{slice_index_or};
ghost use Rattle.oauth2_shared_keeper_command.specs.Renewal.{going_on, over};
ghost use Rattle.oauth2_shared_keeper_command.specs.SharedKeeper.{told_of, with_given};

use crate::action::Stored;
use crate::renewal::Renewal;
use crate::texts::secret_of;
use oauth2::RefreshToken;
use oauth2_shared_token::Told;
use std::alloc::{AllocError, Global};

/// The number of keepers.
const KEEPERS: usize = 256;

/// What the keepers share, and the renewal of each, at the place of its number.
#[derive(Drop)]
pub struct Fleet {
    pub stored: Stored,
    /// The refresh token of each token, at the place of its number.
    pub tokens: Vec<RefreshToken>,
    pub renewals: Vec<Renewal>,
}

fn no_renewals(alloc: Global) -> Result<Vec<Renewal>, AllocError>
    ensures { IfOk result (λ v. v.items ≡ replicate 256 over) }
{
    let mut renewals = Vec::new(alloc);
    for _ in 0..KEEPERS {
        renewals.push(Renewal::over())?;
    }
    Ok(renewals)
}

impl Fleet {
    /// Token 0 has this refresh token and is at rest, and no keeper has begun.
    pub fn new(alloc: Global, refresh_token: RefreshToken) -> Result<Fleet, AllocError>
        ensures { IfOk result (λ f.
            (f.stored ≡ record { version = 0; token = 0; mark = None })
            × (f.tokens.items ≡ refresh_token ∷ [])
            × (f.renewals.items ≡ replicate 256 over)) }
    {
        let mut tokens = Vec::new(alloc);
        tokens.push(refresh_token)?;
        Ok(Fleet {
            stored: Stored {
                version: 0,
                token: 0,
                mark: None,
            },
            tokens,
            renewals: no_renewals(alloc)?,
        })
    }

    /// The renewal of this keeper that goes on: its last one or, if that is over, a new one of this
    /// name.
    pub fn going_on(&self, keeper: u8, name: u128) -> Renewal
        ensures { (last : Renewal) → last ≡ slice_index_or self.now.renewals.items keeper over
            → result ≡ going_on name last.action last }
    {
        match self.renewals.get(keeper as usize) {
            Some(last) => last.copied().going_on(name),
            None => Renewal::new(name),
        }
    }

    /// The keeper has this renewal from now on.
    pub fn put(&mut self, keeper: u8, renewal: Renewal)
        ensures renewals { self.new.renewals.items
            ≡ slice_set self.old.renewals.items keeper renewal }
        ensures stored { self.new.stored ≡ self.old.stored }
        ensures tokens { self.new.tokens ≡ self.old.tokens }
    {
        if let Some(last) = self.renewals.get_mut(keeper as usize) {
            *last = renewal;
        }
    }

    /// A copy of the refresh token of this token.
    pub fn refresh_token(&self, alloc: Global, token: usize) -> Result<RefreshToken, AllocError>
        ensures { IfOk result (λ t. t ≡ slice_index_or self.now.tokens.items token []) }
    {
        let secret = String::from_str(alloc, secret_of(self.tokens.as_slice(), token))?;
        Ok(RefreshToken::new(secret))
    }

    /// What a keeper is told: the number of the token that the server gave it, or nothing.
    pub fn told(&mut self, given: Option<RefreshToken>) -> Result<Told<usize>, AllocError>
        ensures told { IfOk result (λ told. (told ≡ told_of self.old.tokens.items given)
            × (self.new.tokens.items ≡ with_given self.old.tokens.items given)
            × (self.new.stored ≡ self.old.stored)
            × (self.new.renewals ≡ self.old.renewals)) }
    {
        match given {
            None => Ok(Told::Nothing),
            Some(refresh_token) => {
                let number = self.tokens.len();
                self.tokens.push(refresh_token)?;
                Ok(Told::Answer(number))
            }
        }
    }
}
