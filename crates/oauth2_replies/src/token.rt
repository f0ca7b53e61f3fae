//! The response of a token endpoint (RFC 6749, section 5.1).

ghost use Rattle.std.specs.Prelude.{◌≡◌, ℕ, ◌*◌, ◌/◌, Ok, None, IfOk, option_map};
ghost use Rattle.std.specs.Duration.{as_nanos};
ghost use Rattle.oauth2_replies.specs.Token.{Token, token_seen};

use oauth2_codes::{BasicTokenType, TokenType};
use oauth2_json::{FromJson, ReadError, ToJson, WriteError, members};
use oauth2_types::{AccessToken, RefreshToken, Scope, TryClone};
use serde_json::{Map, Value};
use std::alloc::{AllocError, Global};
use std::fmt;
use std::marker::Model;
use std::time::Duration;

/// The token response without extra fields, whose token type is a `BasicTokenType`.
pub type BasicTokenResponse = StandardTokenResponse<EmptyExtraTokenFields, BasicTokenType>;

/// Members of a token response, or of an introspection response, that the standard does not name.
pub trait ExtraTokenFields: FromJson + ToJson + fmt::Debug {
    ghost use Rattle.std.specs.Prelude.{◌≡◌, Ok};
    ghost use Rattle.serde_json.specs.Data.{Data, Members, object};

    /// What `to_json` writes is an object.
    ghost writes_object: { (x : Self) (d : Data) → Self.ToJson.writing x ≡ Ok d
        → (ms : Members) × (d ≡ object ms) };
}

/// What every token response holds, whatever its extra fields are (RFC 6749, section 5.1).
pub trait TokenResponse: FromJson + ToJson + fmt::Debug {
    ghost use Rattle.std.specs.Prelude.{◌≡◌, ℕ, List, Option, option_map, option_copied};
    ghost use Rattle.std.specs.Duration.{as_nanos};

    /// The type that `token_type` returns.
    type TokenType: TokenType;

    ghost access_token: { Self → List ℕ };

    ghost token_type: { Self → Self.TokenType };

    /// The lifetime of the access token, in nanoseconds.
    ghost lifetime: { Self → Option ℕ };

    ghost refresh_token: { Self → Option (List ℕ) };

    ghost scopes: { Self → Option (List (List ℕ)) };

    /// The access token that the server issued.
    fn access_token(&self) -> &AccessToken
        ensures { result.now ≡ access_token self.now };

    /// How the token is to be used (RFC 6749, section 7.1).
    fn token_type(&self) -> &Self::TokenType
        ensures { result.now ≡ token_type self.now };

    /// The lifetime of the access token; `None` if the server sent none.
    fn expires_in(&self) -> Option<Duration>
        ensures { option_map as_nanos result ≡ lifetime self.now };

    /// The token to get new access tokens with; `None` if the server sent none.
    fn refresh_token(&self) -> Option<&RefreshToken>
        ensures { option_copied result ≡ refresh_token self.now };

    /// The scope of the access token. The server may omit it (`None`) only if it is the requested
    /// scope (RFC 6749, section 5.1).
    fn scopes(&self) -> Option<&Vec<Scope>>
        ensures { option_map (λ list. list.now.items) result ≡ scopes self.now };
}

/// The token response of RFC 6749, section 5.1, with extra fields `EF` and token type `TT`.
#[derive(Debug)]
pub struct StandardTokenResponse<EF, TT> {
    pub(crate) access_token: AccessToken,
    pub(crate) token_type: TT,
    pub(crate) expires_in: Option<u64>,
    pub(crate) refresh_token: Option<RefreshToken>,
    pub(crate) scopes: Option<Vec<Scope>>,
    pub(crate) extra_fields: EF,
}

impl<EF: Drop, TT: Drop> Drop for StandardTokenResponse<EF, TT> {
    fn drop(self) {
        let StandardTokenResponse {
            access_token: _,
            token_type: _,
            expires_in: _,
            refresh_token: _,
            scopes: _,
            extra_fields: _,
        } = self;
    }
}

impl<EF, TT> Model for StandardTokenResponse<EF, TT> {
    ghost use Rattle.std.specs.Prelude.{option_map};
    ghost use Rattle.oauth2_replies.specs.Token.{Token, token};

    ghost Value = { Token EF TT };

    ghost view = { λ r. token r.access_token r.token_type r.expires_in r.refresh_token
        (option_map (λ list. list.items) r.scopes) r.extra_fields };
}

impl<EF: Drop, TT: Drop> StandardTokenResponse<EF, TT> {
    ghost use Rattle.oauth2_replies.specs.Token.{token};

    /// A response without a lifetime, a refresh token and scopes.
    pub fn new(access_token: AccessToken, token_type: TT, extra_fields: EF) -> Self
        ensures { result ≡ token access_token token_type None None None extra_fields }
    {
        StandardTokenResponse {
            access_token,
            token_type,
            expires_in: None,
            refresh_token: None,
            scopes: None,
            extra_fields,
        }
    }

    /// Replaces the access token.
    pub fn set_access_token(&mut self, access_token: AccessToken)
        ensures { self.new ≡ record self.old { access_token = access_token } }
    {
        self.access_token = access_token;
    }

    /// Replaces the token type.
    pub fn set_token_type(&mut self, token_type: TT)
        ensures { self.new ≡ record self.old { token_type = token_type } }
    {
        self.token_type = token_type;
    }

    /// Replaces the lifetime, rounded down to whole seconds.
    pub fn set_expires_in(&mut self, expires_in: Option<&Duration>)
        ensures { self.new ≡ record self.old {
          expires_in =
              option_map (λ lifetime. as_nanos lifetime.now / 1_000_000_000) expires_in.entry;
        } }
    {
        self.expires_in = match expires_in {
            Some(lifetime) => Some(lifetime.as_secs()),
            None => None,
        };
    }

    /// Replaces the refresh token.
    pub fn set_refresh_token(&mut self, refresh_token: Option<RefreshToken>)
        ensures { self.new ≡ record self.old { refresh_token = refresh_token } }
    {
        self.refresh_token = refresh_token;
    }

    /// Replaces the scopes. An empty list is written as an empty string, which does not read back
    /// as an empty list.
    pub fn set_scopes(&mut self, scopes: Option<Vec<Scope>>)
        ensures { self.new ≡ record self.old { scopes = option_map (λ list. list.items) scopes } }
    {
        self.scopes = scopes;
    }

    /// The members that the standard does not name.
    pub fn extra_fields(&self) -> &EF
        ensures { result.now ≡ self.now.extra_fields }
    {
        &self.extra_fields
    }

    /// Replaces the members that the standard does not name.
    pub fn set_extra_fields(&mut self, extra_fields: EF)
        ensures { self.new ≡ record self.old { extra_fields = extra_fields } }
    {
        self.extra_fields = extra_fields;
    }
}

impl<EF: ExtraTokenFields + Drop, TT: TokenType + Drop> TokenResponse
    for StandardTokenResponse<EF, TT> {
    type TokenType = TT;

    ghost access_token = { λ r. r.access_token };

    ghost token_type = { λ r. r.token_type };

    ghost lifetime = { λ r. option_map (λ seconds. seconds * 1_000_000_000) r.expires_in };

    ghost refresh_token = { λ r. r.refresh_token };

    ghost scopes = { λ r. r.scopes };

    fn access_token(&self) -> &AccessToken {
        &self.access_token
    }

    fn token_type(&self) -> &TT {
        &self.token_type
    }

    fn expires_in(&self) -> Option<Duration> {
        match self.expires_in {
            Some(seconds) => Some(Duration::from_secs(seconds)),
            None => None,
        }
    }

    fn refresh_token(&self) -> Option<&RefreshToken> {
        self.refresh_token.as_ref()
    }

    fn scopes(&self) -> Option<&Vec<Scope>> {
        self.scopes.as_ref()
    }
}

// The members that may be absent: the lifetime in seconds, the refresh token and the scopes.
#[derive(Drop)]
pub(crate) struct Terms {
    pub(crate) expires_in: Option<u64>,
    pub(crate) refresh_token: Option<RefreshToken>,
    pub(crate) scopes: Option<Vec<Scope>>,
}

impl<EF, TT> StandardTokenResponse<EF, TT> {
    fn copied_terms(&self, alloc: Global) -> Result<Terms, AllocError>
        ensures expires_in { IfOk result (λ t. t.expires_in ≡ self.now.expires_in) }
        ensures refresh_token { IfOk result (λ t. t.refresh_token ≡ self.now.refresh_token) }
        ensures scopes { IfOk result (λ t.
            option_map (λ list. list.items) t.scopes ≡ self.now.scopes) }
    {
        Ok(Terms {
            expires_in: self.expires_in,
            refresh_token: self.refresh_token.try_clone(alloc)?,
            scopes: self.scopes.try_clone(alloc)?,
        })
    }
}

impl<EF: TryClone + Drop, TT: TryClone + Drop> TryClone for StandardTokenResponse<EF, TT> {
    ghost Seen = { Token EF.Seen TT.Seen };

    ghost seen = { token_seen EF.seen TT.seen };

    fn try_clone(&self, alloc: Global) -> Result<StandardTokenResponse<EF, TT>, AllocError> {
        let access_token = self.access_token.try_clone(alloc)?;
        let terms = self.copied_terms(alloc)?;
        let token_type = self.token_type.try_clone(alloc)?;
        let extra_fields = self.extra_fields.try_clone(alloc)?;
        Ok(StandardTokenResponse {
            access_token,
            token_type,
            expires_in: terms.expires_in,
            refresh_token: terms.refresh_token,
            scopes: terms.scopes,
            extra_fields,
        })
    }
}

/// No extra fields: read from any object, written as an empty one.
#[derive(Debug, PartialEq, Eq, Drop)]
pub struct EmptyExtraTokenFields {}

impl FromJson for EmptyExtraTokenFields {
    ghost use Rattle.oauth2_replies.specs.Kept.{any_object};

    ghost Meaning = { Unit {0} };

    ghost meaning = { λ _. tt };

    ghost reading = { any_object };

    fn from_json(alloc: Global, value: Value) -> Result<EmptyExtraTokenFields, ReadError> {
        drop(members::of_object(alloc, value)?);
        Ok(EmptyExtraTokenFields {})
    }

    fn reads_members() -> bool {
        false
    }
}

impl ToJson for EmptyExtraTokenFields {
    ghost use Rattle.serde_json.specs.Data.{object, no_members};

    ghost writing = { λ _. Ok (object no_members) };

    fn to_json(&self, alloc: Global) -> Result<Value, WriteError> {
        Ok(Value::Object(Map::new(alloc)))
    }
}

impl ExtraTokenFields for EmptyExtraTokenFields {
    ghost use Rattle.serde_json.specs.Data.{no_members};

    ghost writes_object = { λ x d h. (no_members, Prim.cc) };
}

impl TryClone for EmptyExtraTokenFields {
    ghost Seen = { Unit {0} };

    ghost seen = { λ _. tt };

    fn try_clone(&self, _alloc: Global) -> Result<EmptyExtraTokenFields, AllocError> {
        Ok(EmptyExtraTokenFields {})
    }
}
