//! The two members of metadata as JSON.

ghost use Rattle.std.specs.Prelude.{◌≡◌, IfOk, option_map};
ghost use Rattle.serde_json.specs.Data.{boolean};
ghost use Rattle.serde_json.specs.View.{view};
ghost use Rattle.oauth2_json.specs.Members.{optional_member};
ghost use Rattle.oauth2_json.specs.Reading.{ReadsAs};
ghost use Rattle.oauth2_json.specs.Values.{flag};
ghost use Rattle.oauth2_json.specs.Writing.{WritesAs};
ghost use Rattle.oauth2_metadata.specs.Kinds.{address_data};
ghost use Rattle.oauth2_replies.specs.Kept.{AreFieldsKept};
ghost use Rattle.oauth2_pushed_login.specs.PushMembers.{
  PushMembers,
  push_fields,
  push_reading,
  push_writing,
};

use crate::endpoint_url::EndpointUrl;
use crate::push_metadata::PushMetadata;
use oauth2_json::{FromJson, ReadError, ToJson, WriteError, members};
use oauth2_replies::ExtraTokenFields;
use serde_json::{Map, Value};
use std::alloc::{AllocError, Global};

const ENDPOINT: &str = "pushed_authorization_request_endpoint";

const REQUIRED: &str = "require_pushed_authorization_requests";

impl FromJson for PushMetadata {
    ghost Meaning = { PushMembers };

    ghost meaning = { λ m. m };

    ghost reading = { push_reading };

    #[tactic(auto, using(oauth2_json::proofs::Objects::member_facts))]
    fn from_json(alloc: Global, value: Value) -> Result<PushMetadata, ReadError> {
        let mut members = members::of_object(alloc, value)?;
        let endpoint = members::take(&mut members, ENDPOINT);
        let required = members::take(&mut members, REQUIRED);
        let endpoint = members::optional(alloc, ENDPOINT, endpoint)?;
        let required = read_flag(alloc, REQUIRED, required)?;
        Ok(PushMetadata { endpoint, required })
    }
}

// Reads a truth value that may be absent or null.
fn read_flag(alloc: Global, name: &str, found: Option<Value>) -> Result<Option<bool>, ReadError>
    ensures { ReadsAs (λ b. b) result (optional_member flag name.now (option_map view found)) }
{
    match found {
        None | Some(Value::Null) => Ok(None),
        Some(value) => Ok(Some(members::needed_flag(alloc, name, Some(value))?)),
    }
}

// The JSON value of a truth value that may be absent.
fn flag_value(flag: Option<bool>) -> Option<Value>
    ensures { option_map view result ≡ option_map boolean flag }
{
    match flag {
        Some(flag) => Some(Value::Bool(flag)),
        None => None,
    }
}

// The JSON value of a URL that may be absent: its text.
fn url_value(alloc: Global, url: &Option<EndpointUrl>) -> Result<Option<Value>, AllocError>
    ensures { IfOk result (λ v. option_map view v ≡ option_map address_data url.now) }
{
    match url {
        Some(url) => Ok(Some(Value::try_from_str(alloc, url.text.as_str())?)),
        None => Ok(None),
    }
}

impl ToJson for PushMetadata {
    ghost writing = { push_writing };

    fn to_json(&self, alloc: Global) -> Result<Value, WriteError>
        ensures written { WritesAs result (push_writing self.now) }
        // So metadata with these fields reads back.
        ensures kept { AreFieldsKept push_reading (λ m. m) push_writing self.now }
    {
        let endpoint = url_value(alloc, &self.endpoint)?;
        let mut members = Map::new(alloc);
        members::put_some(&mut members, alloc, REQUIRED, flag_value(self.required))?;
        members::put_some(&mut members, alloc, ENDPOINT, endpoint)?;
        Ok(Value::Object(members))
    }
}

impl ExtraTokenFields for PushMetadata {
    ghost writes_object = { λ fields d h. (push_fields fields, Prim.cc) };
}
