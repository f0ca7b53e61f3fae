//! What the response to an exchange says beside the members of every token response (RFC 8693,
//! section 2.2.1).

ghost use Rattle.std.specs.Prelude.{◌≡◌, IfOk, string_bytes};
ghost use Rattle.oauth2_json.specs.Writing.{WritesAs};
ghost use Rattle.oauth2_replies.specs.Kept.{AreFieldsKept};
ghost use Rattle.oauth2_grants.specs.ExchangeFields.{exchange_fields_reading};
ghost use Rattle.oauth2_grants.specs.ExchangeFields.{exchange_fields_writing};
ghost use Rattle.oauth2_grants.specs.ExchangeFields.{issued_type_of};
ghost use Rattle.oauth2_grants.specs.TokenExchange.{token_type_text};

use crate::token_type::TokenTypeIdentifier;
use oauth2_codes::BasicTokenType;
use oauth2_json::{FromJson, ReadError, ToJson, WriteError, members};
use oauth2_replies::{ExtraTokenFields, StandardTokenResponse};
use oauth2_types::TryClone;
use serde_json::{Map, Value};
use std::alloc::{AllocError, Global};

const ISSUED_TOKEN_TYPE: &str = "issued_token_type";

/// The fields of a response to an exchange: the type of the token that was issued, which a server
/// has to tell.
#[derive(Debug, Drop)]
pub struct ExchangeFields {
    issued: String,
}

impl ExchangeFields {
    /// Fields that tell this type.
    pub fn new(issued_token_type: String) -> ExchangeFields
        ensures { issued_type_of result ≡ string_bytes issued_token_type }
    {
        ExchangeFields {
            issued: issued_token_type,
        }
    }

    /// The type of the token that was issued (`issued_token_type`).
    pub fn issued_token_type(&self) -> TokenTypeIdentifier<'_>
        ensures { token_type_text result ≡ issued_type_of self.now }
    {
        TokenTypeIdentifier::from_text(self.issued.as_str())
    }
}

impl FromJson for ExchangeFields {
    ghost use Rattle.std.specs.Prelude.{ℕ, List};

    ghost Meaning = { List ℕ };

    ghost meaning = { issued_type_of };

    ghost reading = { exchange_fields_reading };

    fn from_json(alloc: Global, value: Value) -> Result<ExchangeFields, ReadError> {
        let mut members = members::of_object(alloc, value)?;
        let found = members::take(&mut members, ISSUED_TOKEN_TYPE);
        Ok(ExchangeFields {
            issued: members::needed(alloc, ISSUED_TOKEN_TYPE, found)?,
        })
    }
}

impl ToJson for ExchangeFields {
    ghost writing = { λ fields. exchange_fields_writing (issued_type_of fields) };

    #[tactic(auto, using(crate::proofs::Back::fields_kept))]
    fn to_json(&self, alloc: Global) -> Result<Value, WriteError>
        ensures written { WritesAs result
            (exchange_fields_writing (issued_type_of self.now)) }
        // So a response with these fields reads back, if its other members do.
        ensures kept { AreFieldsKept exchange_fields_reading issued_type_of
            (λ fields. exchange_fields_writing (issued_type_of fields)) self.now }
    {
        let mut members = Map::new(alloc);
        let issued = Value::try_from_str(alloc, self.issued.as_str())?;
        members::put_some(&mut members, alloc, ISSUED_TOKEN_TYPE, Some(issued))?;
        Ok(Value::Object(members))
    }
}

impl ExtraTokenFields for ExchangeFields {
    ghost use Rattle.oauth2_grants.specs.ExchangeFields.{exchange_fields};

    ghost writes_object = { λ fields d h. (exchange_fields (issued_type_of fields), Prim.cc) };
}

impl TryClone for ExchangeFields {
    ghost use Rattle.std.specs.Prelude.{ℕ, List};

    ghost Seen = { List ℕ };

    ghost seen = { issued_type_of };

    fn try_clone(&self, alloc: Global) -> Result<ExchangeFields, AllocError> {
        Ok(ExchangeFields {
            issued: self.issued.try_clone(alloc)?,
        })
    }
}

/// The response to an exchange. Its token type is `N_A` where the token is no access token.
pub type TokenExchangeResponse = StandardTokenResponse<ExchangeFields, BasicTokenType>;
