//! Responses that are written as JSON for a store, and read back as the same values.

ghost use Rattle.std.specs.Prelude.{◌≡◌, Ok, IfOk, IfErr, IfSome, string_bytes};
ghost use Rattle.serde_json.specs.View.{view};
ghost use Rattle.oauth2_json.specs.Body.{body_reading};
ghost use Rattle.oauth2_json.specs.Reading.{ReadsAs};
ghost use Rattle.oauth2_times.specs.Instants.{IsWholeSeconds};
ghost use Rattle.oauth2_json.specs.declared.write.WriteError.TheVariants.{Memory};
ghost use Rattle.oauth2_replies.specs.Device.{device_reading, device_seen};
ghost use Rattle.oauth2_replies.specs.Kept.{AreFieldsKept, AreScopesKept};
ghost use Rattle.oauth2_replies.specs.Token.{IsTokenKept, token_seen};
ghost use Rattle.oauth2_callers.specs.own_types.Asked.{
  colorful_error_reading,
  colorful_error_seen,
  colorful_introspection_reading,
  colorful_introspection_seen,
  colorful_token_reading,
  colorful_token_seen,
};
ghost use Rattle.oauth2_callers.specs.own_types.Fields.{
  fields_reading,
  fields_seen,
  fields_writing,
};

use crate::own_types::client::{
    ColorfulErrorResponse, ColorfulIntrospectionResponse, ColorfulTokenResponse,
};
use crate::own_types::colorful_fields::ColorfulFields;
use oauth2::{
    DeviceAuthorizationResponse, ExtraTokenFields, FromJson, ReadError, StandardTokenResponse,
    ToJson, TokenType, WriteError, read_body,
};
use serde_json::Value;
use std::alloc::Global;

/// Writes a token response as JSON and reads it again. The result has the same value, for every
/// token type and all extra fields, if the response is one that reads back (`IsTokenKept`).
pub fn reread<EF: ExtraTokenFields + Drop, TT: TokenType + Drop>(
    alloc: Global,
    token: &StandardTokenResponse<EF, TT>,
) -> anyhow::Result<StandardTokenResponse<EF, TT>>
    ensures { IfOk result (λ again.
        IsTokenKept EF.reading EF.meaning EF.writing TT.reading TT.meaning TT.writing token.now
        → token_seen EF.meaning TT.meaning again ≡ token_seen EF.meaning TT.meaning token.now) }
{
    let value = token.to_json(alloc)?;
    Ok(StandardTokenResponse::from_json(alloc, value)?)
}

/// Proves that the fields are written as an object that is read back as the same fields.
pub fn fields_are_kept(fields: &ColorfulFields)
    ensures { AreFieldsKept fields_reading fields_seen
        (λ f. fields_writing (fields_seen f)) fields.now }
{
    // Only the proof needs this: a height is below 2^32.
    let _height = fields.height;
}

/// The text to store for a token response. It is read back as the same response, if no scope has a
/// space and a list of scopes is not empty.
pub fn stored_token(alloc: Global, token: &ColorfulTokenResponse) -> Result<String, WriteError>
    ensures text { IfOk result (λ text. AreScopesKept token.now.scopes
        → body_reading colorful_token_reading (string_bytes text)
        ≡ Ok (colorful_token_seen token.now)) }
    ensures refusal { IfErr result (λ error. error ≡ Memory) }
{
    fields_are_kept(token.extra_fields());
    let value = token.to_json(alloc)?;
    Ok(value.to_string(alloc)?)
}

/// Reads a token response from a stored text.
pub fn restored_token(alloc: Global, text: &str) -> Result<ColorfulTokenResponse, ReadError>
    ensures { ReadsAs colorful_token_seen result (body_reading colorful_token_reading text.now) }
{
    read_body(alloc, text.as_bytes())
}

/// The value to store for an introspection response. It is read back as the same response, if its
/// scopes are as in `stored_token` and its times are whole seconds.
pub fn introspection_value(
    alloc: Global,
    response: &ColorfulIntrospectionResponse,
) -> Result<Value, WriteError>
    ensures value { IfOk result (λ value. AreScopesKept response.now.scopes
        → IfSome response.now.exp IsWholeSeconds → IfSome response.now.iat IsWholeSeconds
        → IfSome response.now.nbf IsWholeSeconds
        → colorful_introspection_reading (view value)
        ≡ Ok (colorful_introspection_seen response.now)) }
    ensures refusal { IfErr result (λ error. error ≡ Memory) }
{
    fields_are_kept(response.extra_fields());
    response.to_json(alloc)
}

/// The value to store for the codes of a device. It is read back as the same codes.
pub fn codes_value(
    alloc: Global,
    codes: &DeviceAuthorizationResponse<ColorfulFields>,
) -> Result<Value, WriteError>
    ensures value { IfOk result (λ value. device_reading fields_reading (view value)
        ≡ Ok (device_seen fields_seen codes.now)) }
    ensures refusal { IfErr result (λ error. error ≡ Memory) }
{
    fields_are_kept(codes.extra_fields());
    codes.to_json(alloc)
}

/// The value to store for an error response. It is read back as the same response.
pub fn error_value(alloc: Global, error: &ColorfulErrorResponse) -> Result<Value, WriteError>
    ensures value { IfOk result (λ value. colorful_error_reading (view value)
        ≡ Ok (colorful_error_seen error.now)) }
    ensures refusal { IfErr result (λ error. error ≡ Memory) }
{
    error.to_json(alloc)
}
