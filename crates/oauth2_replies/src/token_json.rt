//! Token responses as JSON objects.

ghost use Rattle.std.specs.Prelude.{◌≡◌, Ok, IfOk, option_map};
ghost use Rattle.serde_json.specs.View.{view};
ghost use Rattle.oauth2_json.specs.Writing.{WritesAs};
ghost use Rattle.oauth2_replies.specs.Token.{
  Token,
  token,
  token_seen,
  token_reading,
  token_writing,
  IsTokenKept,
};

use crate::scopes::OptionalScopes;
use crate::token::{ExtraTokenFields, StandardTokenResponse};
use oauth2_codes::TokenType;
use oauth2_json::{FromJson, ReadError, ToJson, WriteError};
use oauth2_member_rows::{
    AsItIs, Member, Needed, NeededLowered, Optional, OptionalNumber, object_with, read_body_with,
    read_value_with,
};
use oauth2_types::{AccessToken, RefreshToken, Scope};
use serde_json::Value;
use std::alloc::Global;
use std::marker::PhantomData;

// The members of RFC 6749, section 5.1: the first, the name of the second, and the others.
const ACCESS_TOKEN: Member<Needed<AccessToken>> = Member("access_token", PhantomData);

const TOKEN_TYPE: &str = "token_type";

const TERMS: (
    Member<OptionalNumber>,
    (Member<Optional<RefreshToken>>, (Member<OptionalScopes>, ())),
) = (
    Member("expires_in", PhantomData),
    (
        Member("refresh_token", PhantomData),
        (Member("scope", PhantomData), ()),
    ),
);

// What these members are read as.
type Terms = (
    Option<u64>,
    (Option<RefreshToken>, (Option<Vec<Scope>>, ())),
);

// The response with these members.
fn response_of<EF, TT>(
    access_token: AccessToken,
    token_type: TT,
    terms: Terms,
    extra_fields: EF,
) -> StandardTokenResponse<EF, TT>
    ensures { result ≡ token access_token token_type terms.0 terms.1.0
        (option_map (λ list. list.items) terms.1.1.0) extra_fields }
{
    let (expires_in, (refresh_token, (scopes, ()))) = terms;
    StandardTokenResponse {
        access_token,
        token_type,
        expires_in,
        refresh_token,
        scopes,
        extra_fields,
    }
}

impl<EF, TT> FromJson for StandardTokenResponse<EF, TT>
where
    EF: ExtraTokenFields + Drop,
    TT: TokenType + Drop,
{
    ghost Meaning = { Token EF.Meaning TT.Meaning };

    ghost meaning = { token_seen EF.meaning TT.meaning };

    ghost reading = { token_reading EF.reading TT.reading };

    fn from_json(alloc: Global, value: Value) -> Result<StandardTokenResponse<EF, TT>, ReadError> {
        let token_type = Member::<NeededLowered<TT>>(TOKEN_TYPE, PhantomData);
        let rows = (ACCESS_TOKEN, (token_type, TERMS));
        let ((access_token, (token_type, terms)), extra) = read_value_with(&rows, alloc, value)?;
        Ok(response_of(access_token, token_type, terms, extra))
    }

    fn from_body(alloc: Global, bytes: &[u8]) -> Result<StandardTokenResponse<EF, TT>, ReadError> {
        let token_type = Member::<NeededLowered<TT>>(TOKEN_TYPE, PhantomData);
        let rows = (ACCESS_TOKEN, (token_type, TERMS));
        let ((access_token, (token_type, terms)), extra) = read_body_with(&rows, alloc, bytes)?;
        Ok(response_of(access_token, token_type, terms, extra))
    }
}

impl<EF: ExtraTokenFields, TT: TokenType> ToJson for StandardTokenResponse<EF, TT> {
    ghost writing = { token_writing EF.writing TT.writing };

    fn to_json(&self, alloc: Global) -> Result<Value, WriteError>
        ensures written { WritesAs result (token_writing EF.writing TT.writing self.now) }
        // What is written reads back as the same response, if `IsTokenKept` holds of it.
        ensures reads_back { IfOk result (λ v.
            IsTokenKept EF.reading EF.meaning EF.writing TT.reading TT.meaning TT.writing self.now
            → token_reading EF.reading TT.reading (view v)
            ≡ Ok (token_seen EF.meaning TT.meaning self.now)) }
    {
        let token_type = self.token_type.to_json(alloc)?;
        let rows = (ACCESS_TOKEN, (AsItIs(TOKEN_TYPE), TERMS));
        let terms = (&self.expires_in, (&self.refresh_token, (&self.scopes, ())));
        let values = (&self.access_token, (Some(token_type), terms));
        object_with(&rows, alloc, values, &self.extra_fields)
    }
}
