//! Introspection responses as JSON objects.

ghost use Rattle.std.specs.Prelude.{◌≡◌, ℤ, Option, Ok, IfOk};
ghost use Rattle.std.specs.Prelude.{map, option_map, string_bytes};
ghost use Rattle.serde_json.specs.View.{view};
ghost use Rattle.oauth2_json.specs.Members.{optional_member};
ghost use Rattle.oauth2_json.specs.Writing.{WritesAs};
ghost use Rattle.oauth2_times.specs.Instants.{instant, second_data};
ghost use Rattle.oauth2_introspection.specs.Introspection.{
  Introspection,
  introspection,
  introspection_seen,
  introspection_reading,
  introspection_writing,
  IsIntrospectionKept,
};

use crate::introspection::StandardTokenIntrospectionResponse;
use jiff::Timestamp;
use oauth2_codes::TokenType;
use oauth2_json::{FromJson, ReadError, ToJson, WriteError, members};
use oauth2_member_rows::{
    AsItIs, Member, NeededFlag, Optional, OptionalText, OptionalTexts, PresentLowered, ReadKind,
    WriteKind, object_with, read_body_with, read_value_with,
};
use oauth2_replies::{ExtraTokenFields, OptionalScopes};
use oauth2_times::{optional_time, time_value};
use oauth2_types::{ClientId, Scope};
use serde_json::Value;
use std::alloc::{AllocError, Global};
use std::marker::PhantomData;

// A list as nested pairs that end with the unit.
macro_rules! list {
    () => { () };
    ($first:expr $(, $later:expr)*) => { ($first, list![$($later),*]) };
}

// The members of RFC 7662, section 2.2, where the token type has the row `$token_type`.
macro_rules! rows {
    ($token_type:expr) => {
        list![
            Member::<NeededFlag>("active", PhantomData),
            Member::<OptionalScopes>("scope", PhantomData),
            Member::<Optional<ClientId>>("client_id", PhantomData),
            Member::<OptionalText>("username", PhantomData),
            $token_type,
            Member::<OptionalTime>("exp", PhantomData),
            Member::<OptionalTime>("iat", PhantomData),
            Member::<OptionalTime>("nbf", PhantomData),
            Member::<OptionalText>("sub", PhantomData),
            Member::<OptionalTexts>("aud", PhantomData),
            Member::<OptionalText>("iss", PhantomData),
            Member::<OptionalText>("jti", PhantomData)
        ]
    };
}

const TOKEN_TYPE: &str = "token_type";

// A time in whole seconds since 1970, which may be absent or null.
struct OptionalTime;

impl ReadKind for OptionalTime {
    type Value = Option<Timestamp>;

    ghost Meaning = { Option ℤ };

    ghost meaning = { option_map (λ time. time.nanosecond) };

    ghost reading = { optional_member instant };

    fn read(
        alloc: Global,
        name: &str,
        found: Option<Value>,
    ) -> Result<Option<Timestamp>, ReadError> {
        optional_time(alloc, name, found)
    }
}

impl WriteKind for OptionalTime {
    type Value = Option<Timestamp>;

    ghost written = { λ o. option_map second_data (option_map (λ time. time.nanosecond) o) };

    fn write(_alloc: Global, value: &Option<Timestamp>) -> Result<Option<Value>, AllocError> {
        Ok(time_value(*value))
    }
}

// What the members are read as.
type Values<TT> = (
    bool,
    (
        Option<Vec<Scope>>,
        (Option<ClientId>, (Option<String>, (Option<TT>, Claims))),
    ),
);

type Claims = (
    Option<Timestamp>,
    (
        Option<Timestamp>,
        (
            Option<Timestamp>,
            (
                Option<String>,
                (Option<Vec<String>>, (Option<String>, (Option<String>, ()))),
            ),
        ),
    ),
);

// The response with these members.
fn response_of<EF, TT>(
    values: Values<TT>,
    extra_fields: EF,
) -> StandardTokenIntrospectionResponse<EF, TT>
    ensures { let claims = values.1.1.1.1.1 in
        result ≡ introspection values.0 (option_map (λ list. list.items) values.1.0)
        values.1.1.0 (option_map string_bytes values.1.1.1.0) values.1.1.1.1.0
        (option_map (λ time. time.nanosecond) claims.0)
        (option_map (λ time. time.nanosecond) claims.1.0)
        (option_map (λ time. time.nanosecond) claims.1.1.0)
        (option_map string_bytes claims.1.1.1.0)
        (option_map (λ list. map string_bytes list.items) claims.1.1.1.1.0)
        (option_map string_bytes claims.1.1.1.1.1.0)
        (option_map string_bytes claims.1.1.1.1.1.1.0) extra_fields }
{
    let (active, (scopes, (client_id, (username, (token_type, claims))))) = values;
    let (exp, (iat, (nbf, (sub, (aud, (iss, (jti, ()))))))) = claims;
    StandardTokenIntrospectionResponse {
        active,
        scopes,
        client_id,
        username,
        token_type,
        exp,
        iat,
        nbf,
        sub,
        aud,
        iss,
        jti,
        extra_fields,
    }
}

impl<EF: ExtraTokenFields + Drop, TT: TokenType + Drop> FromJson
    for StandardTokenIntrospectionResponse<EF, TT> {
    ghost Meaning = { Introspection EF.Meaning TT.Meaning };

    ghost meaning = { introspection_seen EF.meaning TT.meaning };

    ghost reading = { introspection_reading EF.reading TT.reading };

    fn from_json(
        alloc: Global,
        value: Value,
    ) -> Result<StandardTokenIntrospectionResponse<EF, TT>, ReadError> {
        let token_type = Member::<PresentLowered<TT>>(TOKEN_TYPE, PhantomData);
        let (values, extra_fields) = read_value_with(&rows![token_type], alloc, value)?;
        Ok(response_of(values, extra_fields))
    }

    fn from_body(
        alloc: Global,
        bytes: &[u8],
    ) -> Result<StandardTokenIntrospectionResponse<EF, TT>, ReadError> {
        let token_type = Member::<PresentLowered<TT>>(TOKEN_TYPE, PhantomData);
        let (values, extra_fields) = read_body_with(&rows![token_type], alloc, bytes)?;
        Ok(response_of(values, extra_fields))
    }
}

impl<EF: ExtraTokenFields, TT: TokenType> ToJson for StandardTokenIntrospectionResponse<EF, TT> {
    ghost writing = { introspection_writing EF.writing TT.writing };

    fn to_json(&self, alloc: Global) -> Result<Value, WriteError>
        ensures written { WritesAs result (introspection_writing EF.writing TT.writing self.now) }
        // What is written reads back as the same response, if `IsIntrospectionKept` holds of it.
        ensures reads_back { IfOk result (λ v.
            IsIntrospectionKept EF.reading EF.meaning EF.writing TT.reading TT.meaning TT.writing
            self.now
            → introspection_reading EF.reading TT.reading (view v)
            ≡ Ok (introspection_seen EF.meaning TT.meaning self.now)) }
    {
        let token_type = members::optional_to_json(alloc, &self.token_type)?;
        let values = list![
            &self.active,
            &self.scopes,
            &self.client_id,
            &self.username,
            token_type,
            &self.exp,
            &self.iat,
            &self.nbf,
            &self.sub,
            &self.aud,
            &self.iss,
            &self.jti
        ];
        let rows = rows![AsItIs(TOKEN_TYPE)];
        object_with(&rows, alloc, values, &self.extra_fields)
    }
}
