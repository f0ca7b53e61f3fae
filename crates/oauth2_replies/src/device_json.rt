//! Device authorization responses as JSON objects.

ghost use Rattle.std.specs.Prelude.{◌≡◌, ℕ, Some, None, Ok, IfOk};
ghost use Rattle.serde_json.specs.Data.{number, unsigned, string};
ghost use Rattle.serde_json.specs.View.{view};
ghost use Rattle.oauth2_json.specs.Members.{member_or};
ghost use Rattle.oauth2_json.specs.Values.{whole_number};
ghost use Rattle.oauth2_json.specs.Writing.{WritesAs};
ghost use Rattle.oauth2_urls.specs.Addressed.{Addressed};
ghost use Rattle.oauth2_replies.specs.Kept.{AreFieldsKept};
ghost use Rattle.oauth2_replies.specs.Device.{
  DeviceAuthorization,
  device_authorization,
  device_seen,
  device_reading,
  device_writing,
  address_reading,
};
ghost use Rattle.oauth2_replies.specs.private.Address.{IsAddress};

use crate::device::{DeviceAuthorizationResponse, ExtraDeviceAuthorizationFields};
use oauth2_json::{FromJson, ReadError, ToJson, WriteError, members};
use oauth2_member_rows::{
    Member, MemberPair, Needed, NeededNumber, Optional, ReadKind, ReadPairKind, WriteKind,
    WritePairKind, object_with, read_body_with, read_value_with,
};
use oauth2_types::{DeviceCode, UserCode, VerificationUriComplete};
use oauth2_urls::EndUserVerificationUrl;
use serde_json::Value;
use std::alloc::{AllocError, Global};
use std::marker::PhantomData;
use std::ops::Deref;

// The members of RFC 8628, section 3.2, and a second name of `verification_uri`.
const ROWS: (
    Member<Needed<DeviceCode>>,
    (
        Member<Needed<UserCode>>,
        (
            MemberPair<VerificationUri>,
            (
                Member<Optional<VerificationUriComplete>>,
                (Member<NeededNumber>, (Member<Interval>, ())),
            ),
        ),
    ),
) = (
    Member("device_code", PhantomData),
    (
        Member("user_code", PhantomData),
        (
            MemberPair("verification_uri", "verification_url", PhantomData),
            (
                Member("verification_uri_complete", PhantomData),
                (
                    Member("expires_in", PhantomData),
                    (Member("interval", PhantomData), ()),
                ),
            ),
        ),
    ),
);

// What these members are read as.
type Values = (
    DeviceCode,
    (
        UserCode,
        (
            EndUserVerificationUrl,
            (Option<VerificationUriComplete>, (u64, (u64, ()))),
        ),
    ),
);

// The URL under one of two names, which is written under the first. A value under both is an error.
struct VerificationUri;

impl ReadPairKind for VerificationUri {
    type Value = EndUserVerificationUrl;

    ghost Meaning = { Addressed };

    ghost meaning = { λ u. u };

    ghost reading = { λ name _. address_reading name };

    #[tactic(auto, unfolding(crate::specs::Device::address_reading))]
    fn read(
        alloc: Global,
        name: &str,
        _other: &str,
        found: Option<Value>,
        found_other: Option<Value>,
    ) -> Result<EndUserVerificationUrl, ReadError> {
        members::either_name(alloc, name, found, found_other)
    }
}

impl WritePairKind for VerificationUri {
    type Value = EndUserVerificationUrl;

    ghost written = { λ u. Some (string u.text) };

    ghost written_other = { λ _. None };

    fn write(alloc: Global, value: &EndUserVerificationUrl) -> Result<Option<Value>, AllocError> {
        Ok(Some(Value::try_from_str(alloc, value.deref().as_str())?))
    }

    fn write_other(
        _alloc: Global,
        _value: &EndUserVerificationUrl,
    ) -> Result<Option<Value>, AllocError> {
        Ok(None)
    }
}

// The wait in seconds between two requests; absent and null read as 5.
struct Interval;

impl ReadKind for Interval {
    type Value = u64;

    ghost Meaning = { ℕ };

    ghost meaning = { λ n. n };

    ghost reading = { λ name. member_or whole_number name 5 };

    fn read(alloc: Global, name: &str, found: Option<Value>) -> Result<u64, ReadError> {
        members::number_or(alloc, name, 5, found)
    }
}

impl WriteKind for Interval {
    type Value = u64;

    ghost written = { λ n. Some (number (unsigned n)) };

    fn write(_alloc: Global, value: &u64) -> Result<Option<Value>, AllocError> {
        Ok(members::number_value(Some(*value)))
    }
}

// The response with these members.
fn response_of<EF>(values: Values, extra_fields: EF) -> DeviceAuthorizationResponse<EF>
    requires { IsAddress values.1.1.0 }
    ensures { result ≡ device_authorization values.0 values.1.0 values.1.1.0 values.1.1.1.0
        values.1.1.1.1.0 values.1.1.1.1.1.0 extra_fields }
{
    let (device_code, (user_code, (verification_uri, rest))) = values;
    let (verification_uri_complete, (expires_in, (interval, ()))) = rest;
    DeviceAuthorizationResponse {
        device_code,
        user_code,
        verification_uri,
        verification_uri_complete,
        expires_in,
        interval,
        extra_fields,
    }
}

impl<EF: ExtraDeviceAuthorizationFields + Drop> FromJson for DeviceAuthorizationResponse<EF> {
    ghost Meaning = { DeviceAuthorization EF.Meaning };

    ghost meaning = { device_seen EF.meaning };

    ghost reading = { device_reading EF.reading };

    fn from_json(
        alloc: Global,
        value: Value,
    ) -> Result<DeviceAuthorizationResponse<EF>, ReadError> {
        let (values, extra_fields) = read_value_with(&ROWS, alloc, value)?;
        Ok(response_of(values, extra_fields))
    }

    fn from_body(
        alloc: Global,
        bytes: &[u8],
    ) -> Result<DeviceAuthorizationResponse<EF>, ReadError> {
        let (values, extra_fields) = read_body_with(&ROWS, alloc, bytes)?;
        Ok(response_of(values, extra_fields))
    }
}

// The verification URL, and that contracts may take it to be its text, parsed.
fn uri_of<EF>(response: &DeviceAuthorizationResponse<EF>) -> &EndUserVerificationUrl
    ensures same { result.now ≡ response.now.verification_uri }
    ensures address { IsAddress response.now.verification_uri }
{
    &response.verification_uri
}

impl<EF: ExtraDeviceAuthorizationFields> ToJson for DeviceAuthorizationResponse<EF> {
    ghost writing = { device_writing EF.writing };

    fn to_json(&self, alloc: Global) -> Result<Value, WriteError>
        ensures written { WritesAs result (device_writing EF.writing self.now) }
        // What is written reads back as the same response, if its extra fields read back.
        ensures reads_back { IfOk result (λ v.
            AreFieldsKept EF.reading EF.meaning EF.writing self.now.extra_fields
            → device_reading EF.reading (view v) ≡ Ok (device_seen EF.meaning self.now)) }
    {
        let times = (&self.expires_in, (&self.interval, ()));
        let addresses = (uri_of(self), (&self.verification_uri_complete, times));
        let values = (&self.device_code, (&self.user_code, addresses));
        object_with(&ROWS, alloc, values, &self.extra_fields)
    }
}
