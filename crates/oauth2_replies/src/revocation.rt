//! Tokens that can be revoked (RFC 7009, section 2.1).

ghost use Rattle.std.specs.Prelude.{◌≡◌, IfOk, Ok, Some, option_map, option_copied};
ghost use Rattle.serde_json.specs.View.{view, members_view};
ghost use Rattle.oauth2_json.specs.Reading.{ReadsAs};
ghost use Rattle.oauth2_json.specs.Writing.{WritesAs};
ghost use Rattle.oauth2_replies.specs.Revocable.{
  has_any,
  sole_token,
  revocable_reading,
  revocable_writing,
};

use oauth2_json::helpers::VariantName;
use oauth2_json::{FromJson, ParseCause, ReadError, ToJson, WriteError, members};
use oauth2_types::{AccessToken, RefreshToken, TryClone};
use serde_json::{Map, Value};
use std::alloc::{AllocError, Global};

/// A token that can be revoked.
pub trait RevocableToken {
    ghost use Rattle.std.specs.Prelude.{◌≡◌, ℕ, List, Option, option_copied};

    ghost secret: { Self → List ℕ };

    ghost type_hint: { Self → Option (List ℕ) };

    /// The text of the token.
    fn secret(&self) -> &str
        ensures { result.now ≡ secret self.now };

    /// The hint that helps the server to find the token (`token_type_hint`; RFC 7009, section 2.1).
    fn type_hint(&self) -> Option<&str>
        ensures { option_copied result ≡ type_hint self.now };
}

/// A token of one of the two kinds that RFC 7009, section 2.1, names.
#[derive(Debug, Drop)]
pub enum StandardRevocableToken {
    AccessToken(AccessToken),
    RefreshToken(RefreshToken),
}

impl StandardRevocableToken {
    ghost use Rattle.oauth2_replies.specs.declared.revocation.StandardRevocableToken.{
      StandardRevocableToken,
    };

    /// A token to revoke, which holds a copy of `token`. An error means out of memory.
    pub fn from_access_token_ref(
        alloc: Global,
        token: &AccessToken,
    ) -> Result<StandardRevocableToken, AllocError>
        ensures { IfOk result (λ revocable.
            revocable ≡ StandardRevocableToken.AccessToken token.now) }
    {
        Ok(StandardRevocableToken::AccessToken(token.try_clone(alloc)?))
    }

    /// A token to revoke, which holds a copy of `token`. An error means out of memory.
    pub fn from_refresh_token_ref(
        alloc: Global,
        token: &RefreshToken,
    ) -> Result<StandardRevocableToken, AllocError>
        ensures { IfOk result (λ revocable.
            revocable ≡ StandardRevocableToken.RefreshToken token.now) }
    {
        Ok(StandardRevocableToken::RefreshToken(token.try_clone(alloc)?))
    }
}

impl From<AccessToken> for StandardRevocableToken {
    ghost use Rattle.oauth2_replies.specs.declared.revocation.StandardRevocableToken.TheVariants.{
      AccessToken,
    };

    ghost from_gives = { λ token revocable. revocable ≡ AccessToken token };

    fn from(token: AccessToken) -> StandardRevocableToken {
        StandardRevocableToken::AccessToken(token)
    }
}

impl From<RefreshToken> for StandardRevocableToken {
    ghost use Rattle.oauth2_replies.specs.declared.revocation.StandardRevocableToken.TheVariants.{
      RefreshToken,
    };

    ghost from_gives = { λ token revocable. revocable ≡ RefreshToken token };

    fn from(token: RefreshToken) -> StandardRevocableToken {
        StandardRevocableToken::RefreshToken(token)
    }
}

impl RevocableToken for StandardRevocableToken {
    ghost use Rattle.oauth2_replies.specs.Revocable.{secret_of, hint_of};

    ghost secret = { secret_of };

    ghost type_hint = { λ token. Some (hint_of token) };

    fn secret(&self) -> &str {
        match self {
            StandardRevocableToken::AccessToken(token) => token.secret().as_str(),
            StandardRevocableToken::RefreshToken(token) => token.secret().as_str(),
        }
    }

    fn type_hint(&self) -> Option<&str> {
        match self {
            StandardRevocableToken::AccessToken(_) => Some("access_token"),
            StandardRevocableToken::RefreshToken(_) => Some("refresh_token"),
        }
    }
}

impl VariantName for StandardRevocableToken {
    ghost use Rattle.oauth2_replies.specs.Revocable.{variant_of};

    ghost variant = { variant_of };

    fn variant_name(&self) -> &'static str {
        match self {
            StandardRevocableToken::AccessToken(_) => "AccessToken",
            StandardRevocableToken::RefreshToken(_) => "RefreshToken",
        }
    }
}

impl TryClone for StandardRevocableToken {
    ghost use Rattle.oauth2_replies.specs.declared.revocation.StandardRevocableToken.{
      StandardRevocableToken,
    };

    ghost Seen = { StandardRevocableToken };

    ghost seen = { λ token. token };

    fn try_clone(&self, alloc: Global) -> Result<StandardRevocableToken, AllocError> {
        match self {
            StandardRevocableToken::AccessToken(token) =>
                StandardRevocableToken::from_access_token_ref(alloc, token),
            StandardRevocableToken::RefreshToken(token) =>
                StandardRevocableToken::from_refresh_token_ref(alloc, token),
        }
    }
}

fn has_any(members: &Map<String, Value>) -> bool
    ensures { result ≡ has_any (members_view members.now.entries) }
{
    !members.is_empty()
}

// The token, if exactly one of the two names has a value and there is no other member.
fn sole_token(
    alloc: Global,
    access_token: Option<Value>,
    refresh_token: Option<Value>,
    rest: Map<String, Value>,
) -> Result<StandardRevocableToken, ReadError>
    ensures { ReadsAs (λ token. token) result
        (sole_token (option_map view access_token) (option_map view refresh_token)
        (members_view rest.entries)) }
{
    if has_any(&rest) {
        return Err(ReadError::whole(alloc, ParseCause::Refused));
    }
    match (access_token, refresh_token) {
        (Some(text), None) => Ok(StandardRevocableToken::AccessToken(members::needed(
            alloc,
            "AccessToken",
            Some(text),
        )?)),
        (None, Some(text)) => Ok(StandardRevocableToken::RefreshToken(members::needed(
            alloc,
            "RefreshToken",
            Some(text),
        )?)),
        _ => Err(ReadError::whole(alloc, ParseCause::Refused)),
    }
}

impl FromJson for StandardRevocableToken {
    ghost use Rattle.oauth2_replies.specs.declared.revocation.StandardRevocableToken.{
      StandardRevocableToken,
    };

    ghost Meaning = { StandardRevocableToken };

    ghost meaning = { λ token. token };

    ghost reading = { revocable_reading };

    #[tactic(auto, using(oauth2_json::proofs::Objects::member_facts))]
    fn from_json(alloc: Global, value: Value) -> Result<StandardRevocableToken, ReadError> {
        let mut members = members::of_object(alloc, value)?;
        let access_token = members::take(&mut members, "AccessToken");
        let refresh_token = members::take(&mut members, "RefreshToken");
        sole_token(alloc, access_token, refresh_token, members)
    }
}

impl StandardRevocableToken {
    fn to_value(&self, alloc: Global) -> Result<Value, WriteError>
        ensures { WritesAs result (revocable_writing self.now) }
    {
        let mut members = Map::new(alloc);
        let secret = Value::try_from_str(alloc, self.secret())?;
        members::put_some(&mut members, alloc, self.variant_name(), Some(secret))?;
        Ok(Value::Object(members))
    }
}

impl ToJson for StandardRevocableToken {
    ghost writing = { revocable_writing };

    fn to_json(&self, alloc: Global) -> Result<Value, WriteError>
        ensures written { WritesAs result (revocable_writing self.now) }
        // What is written reads back as the same token.
        ensures reads_back { IfOk result (λ v. revocable_reading (view v) ≡ Ok self.now) }
    {
        self.to_value(alloc)
    }
}
