//! A client at its token endpoint as JSON.

ghost use Rattle.std.specs.Prelude.{◌≡◌, Ok, IfOk};
ghost use Rattle.serde_json.specs.View.{view};
ghost use Rattle.oauth2_json.specs.Writing.{WritesAs};
ghost use Rattle.oauth2_stored_token.specs.AtEndpoint.{at_endpoint_reading, at_endpoint_writing};

use crate::client_at_endpoint::ClientAtEndpoint;
use oauth2_json::{FromJson, ReadError, ToJson, WriteError};
use oauth2_member_rows::{Member, Needed, object_of, read_object};
use oauth2_types::ClientId;
use serde_json::Value;
use std::alloc::Global;
use std::marker::PhantomData;

// The members of a client at its token endpoint.
const ROWS: (Member<Needed<ClientId>>, (Member<Needed<String>>, ())) = (
    Member("client_id", PhantomData),
    (Member("token_url", PhantomData), ()),
);

impl FromJson for ClientAtEndpoint {
    ghost use Rattle.oauth2_stored_token.specs.AtEndpoint.{AtEndpoint};

    ghost Meaning = { AtEndpoint };

    ghost meaning = { λ c. c };

    ghost reading = { at_endpoint_reading };

    fn from_json(alloc: Global, value: Value) -> Result<ClientAtEndpoint, ReadError> {
        let (client_id, (token_url, ())) = read_object(&ROWS, alloc, value)?;
        Ok(ClientAtEndpoint {
            client_id,
            token_url,
        })
    }
}

impl ToJson for ClientAtEndpoint {
    ghost writing = { at_endpoint_writing };

    fn to_json(&self, alloc: Global) -> Result<Value, WriteError>
        ensures written { WritesAs result (at_endpoint_writing self.now) }
        ensures reads_back { IfOk result (λ v. at_endpoint_reading (view v) ≡ Ok self.now) }
    {
        let values = (&self.client_id, (&self.token_url, ()));
        Ok(object_of(&ROWS, alloc, values)?)
    }
}
