//! Metadata as a JSON object.

ghost use Rattle.std.specs.Prelude.{◌≡◌, Ok, IfOk, string_bytes};
ghost use Rattle.serde_json.specs.View.{view};
ghost use Rattle.oauth2_json.specs.Writing.{WritesAs};
ghost use Rattle.oauth2_replies.specs.Kept.{AreFieldsKept};
ghost use Rattle.oauth2_metadata.specs.Metadata.{
  Metadata,
  metadata,
  metadata_reading,
  metadata_seen,
  metadata_writing,
};

use crate::groups::{
    AuthMethods, MetadataEndpoints, Pages, Services, SigningAlgorithms, Supported,
};
use crate::metadata::ServerMetadata;
use crate::rows::ROWS;
use oauth2_json::{FromJson, ReadError, ToJson, WriteError};
use oauth2_member_rows::{object_with, read_body_with, read_value_with};
use oauth2_replies::ExtraTokenFields;
use serde_json::Value;
use std::alloc::Global;

// The groups that the rows read to, after the issuer and the endpoints.
type Groups = (
    Supported,
    (AuthMethods, (SigningAlgorithms, (Pages, Services))),
);

// The metadata with these parts.
fn metadata_of<EF>(
    issuer: String,
    endpoints: MetadataEndpoints,
    groups: Groups,
    extra_fields: EF,
) -> ServerMetadata<EF>
    ensures { result ≡ metadata (string_bytes issuer) endpoints groups.0 groups.1.0 groups.1.1.0
        groups.1.1.1.0 groups.1.1.1.1 extra_fields }
{
    let (supported, (auth_methods, (signing_algorithms, (pages, services)))) = groups;
    ServerMetadata {
        issuer,
        endpoints,
        supported,
        auth_methods,
        signing_algorithms,
        pages,
        services,
        extra_fields,
    }
}

impl<EF: ExtraTokenFields + Drop> FromJson for ServerMetadata<EF> {
    ghost Meaning = { Metadata EF.Meaning };

    ghost meaning = { metadata_seen EF.meaning };

    ghost reading = { metadata_reading EF.reading };

    fn from_json(alloc: Global, value: Value) -> Result<ServerMetadata<EF>, ReadError> {
        let (values, extra_fields) = read_value_with::<_, EF>(&ROWS, alloc, value)?;
        let (issuer, (endpoints, groups)) = values;
        Ok(metadata_of(issuer, endpoints, groups, extra_fields))
    }

    fn from_body(alloc: Global, bytes: &[u8]) -> Result<ServerMetadata<EF>, ReadError> {
        let (values, extra_fields) = read_body_with::<_, EF>(&ROWS, alloc, bytes)?;
        let (issuer, (endpoints, groups)) = values;
        Ok(metadata_of(issuer, endpoints, groups, extra_fields))
    }
}

impl<EF: ExtraTokenFields> ToJson for ServerMetadata<EF> {
    ghost writing = { metadata_writing EF.writing };

    fn to_json(&self, alloc: Global) -> Result<Value, WriteError>
        ensures written { WritesAs result (metadata_writing EF.writing self.now) }
        // If its extra fields read back as they were, so does the metadata.
        ensures reads_back { IfOk result (λ v.
            AreFieldsKept EF.reading EF.meaning EF.writing self.now.extra_fields
            → metadata_reading EF.reading (view v) ≡ Ok (metadata_seen EF.meaning self.now)) }
    {
        let groups = (
            &self.auth_methods,
            (&self.signing_algorithms, (&self.pages, &self.services)),
        );
        let values = (
            &self.issuer,
            (self.endpoints.parsed(), (&self.supported, groups)),
        );
        object_with(&ROWS, alloc, values, &self.extra_fields)
    }
}
