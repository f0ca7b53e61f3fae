//! The response of an introspection endpoint (RFC 7662, section 2.2).

ghost use Rattle.std.specs.Prelude.{◌≡◌, None, map, option_map, option_copied, string_bytes};
ghost use Rattle.oauth2_introspection.specs.Introspection.{Introspection, introspection_seen};

use jiff::Timestamp;
use oauth2_codes::{BasicTokenType, TokenType};
use oauth2_json::{FromJson, ToJson};
use oauth2_replies::{EmptyExtraTokenFields, ExtraTokenFields};
use oauth2_types::{ClientId, Scope, TryClone};
use std::alloc::{AllocError, Global};
use std::fmt;
use std::marker::Model;

/// The introspection response without extra fields, whose token type is a `BasicTokenType`.
pub type BasicTokenIntrospectionResponse = StandardTokenIntrospectionResponse<
    EmptyExtraTokenFields,
    BasicTokenType,
>;

/// What every introspection response holds, whatever its extra fields are (RFC 7662, section 2.2).
pub trait TokenIntrospectionResponse: FromJson + ToJson + fmt::Debug {
    ghost use Rattle.std.specs.Prelude.{
      ◌≡◌,
      ℕ,
      ℤ,
      Bool,
      List,
      Option,
      map,
      option_map,
      option_copied,
      string_bytes,
    };

    /// The type that `token_type` returns.
    type TokenType: TokenType;

    ghost active: { Self → Bool };

    ghost scopes: { Self → Option (List (List ℕ)) };

    ghost client_id: { Self → Option (List ℕ) };

    ghost username: { Self → Option (List ℕ) };

    ghost token_type: { Self → Option Self.TokenType };

    /// `exp`, `iat` and `nbf` are in nanoseconds since 1970-01-01T00:00:00Z.
    ghost exp: { Self → Option ℤ };

    ghost iat: { Self → Option ℤ };

    ghost nbf: { Self → Option ℤ };

    ghost sub: { Self → Option (List ℕ) };

    ghost aud: { Self → Option (List (List ℕ)) };

    ghost iss: { Self → Option (List ℕ) };

    ghost jti: { Self → Option (List ℕ) };

    /// Whether the token is active. If not, the server should send no other member.
    fn active(&self) -> bool
        ensures { result ≡ active self.now };

    /// The scope of the token.
    fn scopes(&self) -> Option<&Vec<Scope>>
        ensures { option_map (λ list. list.now.items) result ≡ scopes self.now };

    /// The client that requested the token.
    fn client_id(&self) -> Option<&ClientId>
        ensures { option_copied result ≡ client_id self.now };

    /// The resource owner who authorized the token.
    fn username(&self) -> Option<&str>
        ensures { option_copied result ≡ username self.now };

    /// How the token is to be used (RFC 6749, section 7.1).
    fn token_type(&self) -> Option<&Self::TokenType>
        ensures { option_copied result ≡ token_type self.now };

    /// When the token expires.
    fn exp(&self) -> Option<Timestamp>
        ensures { option_map (λ time. time.nanosecond) result ≡ exp self.now };

    /// When the token was issued.
    fn iat(&self) -> Option<Timestamp>
        ensures { option_map (λ time. time.nanosecond) result ≡ iat self.now };

    /// The time before which the token must not be used.
    fn nbf(&self) -> Option<Timestamp>
        ensures { option_map (λ time. time.nanosecond) result ≡ nbf self.now };

    /// The subject of the token.
    fn sub(&self) -> Option<&str>
        ensures { option_copied result ≡ sub self.now };

    /// The audience of the token. A single string in the response is a list of one.
    fn aud(&self) -> Option<&Vec<String>>
        ensures { option_map (λ list. map string_bytes list.now.items) result ≡ aud self.now };

    /// Who issued the token.
    fn iss(&self) -> Option<&str>
        ensures { option_copied result ≡ iss self.now };

    /// The identifier of the token.
    fn jti(&self) -> Option<&str>
        ensures { option_copied result ≡ jti self.now };
}

/// The introspection response of RFC 7662, section 2.2, with extra fields `EF` and token type `TT`.
#[derive(Debug)]
pub struct StandardTokenIntrospectionResponse<EF, TT> {
    pub(crate) active: bool,
    pub(crate) scopes: Option<Vec<Scope>>,
    pub(crate) client_id: Option<ClientId>,
    pub(crate) username: Option<String>,
    pub(crate) token_type: Option<TT>,
    pub(crate) exp: Option<Timestamp>,
    pub(crate) iat: Option<Timestamp>,
    pub(crate) nbf: Option<Timestamp>,
    pub(crate) sub: Option<String>,
    pub(crate) aud: Option<Vec<String>>,
    pub(crate) iss: Option<String>,
    pub(crate) jti: Option<String>,
    pub(crate) extra_fields: EF,
}

impl<EF: Drop, TT: Drop> Drop for StandardTokenIntrospectionResponse<EF, TT> {
    fn drop(self) {
        let StandardTokenIntrospectionResponse {
            active: _,
            scopes: _,
            client_id: _,
            username: _,
            token_type: _,
            exp: _,
            iat: _,
            nbf: _,
            sub: _,
            aud: _,
            iss: _,
            jti: _,
            extra_fields: _,
        } = self;
    }
}

impl<EF, TT> Model for StandardTokenIntrospectionResponse<EF, TT> {
    ghost use Rattle.std.specs.Prelude.{map, option_map, string_bytes};
    ghost use Rattle.oauth2_introspection.specs.Introspection.{Introspection};

    ghost Value = { Introspection EF TT };

    ghost view = { λ r. record {
      active = r.active;
      scopes = option_map (λ list. list.items) r.scopes;
      client_id = r.client_id;
      username = option_map string_bytes r.username;
      token_type = r.token_type;
      exp = option_map (λ time. time.nanosecond) r.exp;
      iat = option_map (λ time. time.nanosecond) r.iat;
      nbf = option_map (λ time. time.nanosecond) r.nbf;
      sub = option_map string_bytes r.sub;
      aud = option_map (λ list. map string_bytes list.items) r.aud;
      iss = option_map string_bytes r.iss;
      jti = option_map string_bytes r.jti;
      extra_fields = r.extra_fields;
    } };
}

impl<EF: Drop, TT: Drop> StandardTokenIntrospectionResponse<EF, TT> {
    ghost use Rattle.oauth2_introspection.specs.Introspection.{introspection};

    /// A response with `active` and extra fields only; all other members are absent.
    pub fn new(active: bool, extra_fields: EF) -> Self
        ensures { result
            ≡ introspection active None None None None None None None None None None None
            extra_fields }
    {
        StandardTokenIntrospectionResponse {
            active,
            scopes: None,
            client_id: None,
            username: None,
            token_type: None,
            exp: None,
            iat: None,
            nbf: None,
            sub: None,
            aud: None,
            iss: None,
            jti: None,
            extra_fields,
        }
    }

    /// Sets whether the token is active.
    pub fn set_active(&mut self, active: bool)
        ensures { self.new ≡ record self.old { active = active } }
    {
        self.active = active;
    }

    /// Replaces the scopes. An empty list is written as an empty string, which does not read back
    /// as an empty list.
    pub fn set_scopes(&mut self, scopes: Option<Vec<Scope>>)
        ensures { self.new ≡ record self.old { scopes = option_map (λ list. list.items) scopes } }
    {
        self.scopes = scopes;
    }

    /// Replaces the client that requested the token.
    pub fn set_client_id(&mut self, client_id: Option<ClientId>)
        ensures { self.new ≡ record self.old { client_id = client_id } }
    {
        self.client_id = client_id;
    }

    /// Replaces the name of the resource owner who authorized the token.
    pub fn set_username(&mut self, username: Option<String>)
        ensures { self.new ≡ record self.old { username = option_map string_bytes username } }
    {
        self.username = username;
    }

    /// Replaces the token type.
    pub fn set_token_type(&mut self, token_type: Option<TT>)
        ensures { self.new ≡ record self.old { token_type = token_type } }
    {
        self.token_type = token_type;
    }

    /// Replaces the time when the token expires. It is written as whole seconds, rounded down.
    pub fn set_exp(&mut self, exp: Option<Timestamp>)
        ensures { self.new ≡ record self.old { exp = option_map (λ time. time.nanosecond) exp } }
    {
        self.exp = exp;
    }

    /// Replaces the time when the token was issued. It is written as whole seconds, rounded down.
    pub fn set_iat(&mut self, iat: Option<Timestamp>)
        ensures { self.new ≡ record self.old { iat = option_map (λ time. time.nanosecond) iat } }
    {
        self.iat = iat;
    }

    /// Replaces the time before which the token must not be used. It is written as whole seconds,
    /// rounded down.
    pub fn set_nbf(&mut self, nbf: Option<Timestamp>)
        ensures { self.new ≡ record self.old { nbf = option_map (λ time. time.nanosecond) nbf } }
    {
        self.nbf = nbf;
    }

    /// Replaces the subject of the token.
    pub fn set_sub(&mut self, sub: Option<String>)
        ensures { self.new ≡ record self.old { sub = option_map string_bytes sub } }
    {
        self.sub = sub;
    }

    /// Replaces the audience of the token. It is written as an array.
    pub fn set_aud(&mut self, aud: Option<Vec<String>>)
        ensures { self.new ≡ record self.old {
          aud = option_map (λ list. map string_bytes list.items) aud;
        } }
    {
        self.aud = aud;
    }

    /// Replaces the issuer of the token.
    pub fn set_iss(&mut self, iss: Option<String>)
        ensures { self.new ≡ record self.old { iss = option_map string_bytes iss } }
    {
        self.iss = iss;
    }

    /// Replaces the identifier of the token.
    pub fn set_jti(&mut self, jti: Option<String>)
        ensures { self.new ≡ record self.old { jti = option_map string_bytes jti } }
    {
        self.jti = jti;
    }

    /// The members that the standard does not name.
    pub fn extra_fields(&self) -> &EF
        ensures { result.now ≡ self.now.extra_fields }
    {
        &self.extra_fields
    }

    /// Replaces the members that the standard does not name.
    pub fn set_extra_fields(&mut self, extra_fields: EF)
        ensures { self.new ≡ record self.old { extra_fields = extra_fields } }
    {
        self.extra_fields = extra_fields;
    }
}

fn text_of(text: &Option<String>) -> Option<&str>
    ensures { option_copied result ≡ option_map string_bytes text.now }
{
    match text {
        Some(text) => Some(text.as_str()),
        None => None,
    }
}

impl<EF: ExtraTokenFields + Drop, TT: TokenType + Drop> TokenIntrospectionResponse
    for StandardTokenIntrospectionResponse<EF, TT> {
    type TokenType = TT;

    ghost active = { λ r. r.active };

    ghost scopes = { λ r. r.scopes };

    ghost client_id = { λ r. r.client_id };

    ghost username = { λ r. r.username };

    ghost token_type = { λ r. r.token_type };

    ghost exp = { λ r. r.exp };

    ghost iat = { λ r. r.iat };

    ghost nbf = { λ r. r.nbf };

    ghost sub = { λ r. r.sub };

    ghost aud = { λ r. r.aud };

    ghost iss = { λ r. r.iss };

    ghost jti = { λ r. r.jti };

    fn active(&self) -> bool {
        self.active
    }

    fn scopes(&self) -> Option<&Vec<Scope>> {
        self.scopes.as_ref()
    }

    fn client_id(&self) -> Option<&ClientId> {
        self.client_id.as_ref()
    }

    fn username(&self) -> Option<&str> {
        text_of(&self.username)
    }

    fn token_type(&self) -> Option<&TT> {
        self.token_type.as_ref()
    }

    fn exp(&self) -> Option<Timestamp> {
        self.exp
    }

    fn iat(&self) -> Option<Timestamp> {
        self.iat
    }

    fn nbf(&self) -> Option<Timestamp> {
        self.nbf
    }

    fn sub(&self) -> Option<&str> {
        text_of(&self.sub)
    }

    fn aud(&self) -> Option<&Vec<String>> {
        self.aud.as_ref()
    }

    fn iss(&self) -> Option<&str> {
        text_of(&self.iss)
    }

    fn jti(&self) -> Option<&str> {
        text_of(&self.jti)
    }
}

impl<EF: TryClone + Drop, TT: TryClone + Drop> TryClone
    for StandardTokenIntrospectionResponse<EF, TT> {
    ghost Seen = { Introspection EF.Seen TT.Seen };

    ghost seen = { introspection_seen EF.seen TT.seen };

    fn try_clone(
        &self,
        alloc: Global,
    ) -> Result<StandardTokenIntrospectionResponse<EF, TT>, AllocError> {
        Ok(StandardTokenIntrospectionResponse {
            active: self.active,
            scopes: self.scopes.try_clone(alloc)?,
            client_id: self.client_id.try_clone(alloc)?,
            username: self.username.try_clone(alloc)?,
            token_type: self.token_type.try_clone(alloc)?,
            exp: self.exp,
            iat: self.iat,
            nbf: self.nbf,
            sub: self.sub.try_clone(alloc)?,
            aud: self.aud.try_clone(alloc)?,
            iss: self.iss.try_clone(alloc)?,
            jti: self.jti.try_clone(alloc)?,
            extra_fields: self.extra_fields.try_clone(alloc)?,
        })
    }
}
