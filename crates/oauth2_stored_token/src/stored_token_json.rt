//! A stored token as JSON.

ghost use Rattle.std.specs.Prelude.{◌≡◌, ◌/◌, ◌%◌, ℕ, ℤ, Ok, Some, IfOk};
ghost use Rattle.std.specs.Duration.{as_nanos, FitsDuration};
ghost use Rattle.serde_json.specs.View.{view};
ghost use Rattle.oauth2_times.specs.Instants.{second_data};
ghost use Rattle.oauth2_json.specs.Writing.{WritesAs};
ghost use Rattle.oauth2_stored_token.specs.Stored.{
  nanoseconds_of,
  whole_data,
  moment_reading,
  lifetime_reading,
  stored_reading,
  stored_writing,
};

use crate::stored_token::StoredToken;
use jiff::Timestamp;
use oauth2_json::{FromJson, ParseCause, ReadError, ToJson, WriteError, members};
use oauth2_member_rows::{
    Member, MemberPair, Needed, Optional, OptionalText, ReadPairKind, WritePairKind, object_of,
    read_object,
};
use oauth2_times::{needed_time, time_value};
use oauth2_types::{AccessToken, ClientId, RefreshToken};
use serde_json::Value;
use std::alloc::{AllocError, Global};
use std::marker::PhantomData;
use std::time::Duration;

// The members of a stored token.
const ROWS: (
    Member<Needed<AccessToken>>,
    (
        Member<Needed<String>>,
        (
            MemberPair<Moment>,
            (
                MemberPair<Lifetime>,
                (
                    Member<Optional<RefreshToken>>,
                    (Member<Optional<ClientId>>, (Member<OptionalText>, ())),
                ),
            ),
        ),
    ),
) = (
    Member("access_token", PhantomData),
    (
        Member("token_type", PhantomData),
        (
            MemberPair("accepted_at", "accepted_at_nanoseconds", PhantomData),
            (
                MemberPair("lifetime", "lifetime_nanoseconds", PhantomData),
                (
                    Member("refresh_token", PhantomData),
                    (
                        Member("client_id", PhantomData),
                        (Member("token_url", PhantomData), ()),
                    ),
                ),
            ),
        ),
    ),
);

// A moment, in whole seconds since 1970 and nanoseconds to add to them.
struct Moment;

impl ReadPairKind for Moment {
    type Value = Timestamp;

    ghost Meaning = { ℤ };

    ghost meaning = { λ t. t.nanosecond };

    ghost reading = { moment_reading };

    fn read(
        alloc: Global,
        name: &str,
        other: &str,
        found: Option<Value>,
        found_other: Option<Value>,
    ) -> Result<Timestamp, ReadError> {
        let second = needed_time(alloc, name, found)?;
        let nanos = members::needed_number(alloc, other, found_other)?;
        match Timestamp::from_nanosecond(second.as_nanosecond() + nanos as i128) {
            Ok(moment) => Ok(moment),
            Err(_) => Err(ReadError::at(alloc, name, ParseCause::OutOfRange)),
        }
    }
}

impl WritePairKind for Moment {
    type Value = Timestamp;

    ghost written = { λ t. Some (second_data t.nanosecond) };

    ghost written_other = { λ t. Some (whole_data (nanoseconds_of t.nanosecond)) };

    fn write(_alloc: Global, value: &Timestamp) -> Result<Option<Value>, AllocError> {
        Ok(time_value(Some(*value)))
    }

    fn write_other(_alloc: Global, value: &Timestamp) -> Result<Option<Value>, AllocError> {
        Ok(members::number_value(Some(nanoseconds_of(*value))))
    }
}

// The nanoseconds of a moment after its whole seconds, which are rounded down.
fn nanoseconds_of(moment: Timestamp) -> u64
    ensures { result ≡ nanoseconds_of moment.nanosecond }
{
    moment.as_nanosecond().rem_euclid(1_000_000_000) as u64
}

// A lifetime, in whole seconds and nanoseconds to add to them.
struct Lifetime;

impl ReadPairKind for Lifetime {
    type Value = Duration;

    ghost Meaning = { ℕ };

    ghost meaning = { as_nanos };

    ghost reading = { lifetime_reading };

    fn read(
        alloc: Global,
        name: &str,
        other: &str,
        found: Option<Value>,
        found_other: Option<Value>,
    ) -> Result<Duration, ReadError> {
        let seconds = members::needed_number(alloc, name, found)?;
        let nanos = members::needed_number(alloc, other, found_other)?;
        let lifetime = seconds as u128 * 1_000_000_000 + nanos as u128;
        if lifetime < 0x1_0000_0000_0000_0000 * 1_000_000_000 {
            Ok(Duration::from_nanos_u128(lifetime))
        } else {
            Err(ReadError::at(alloc, name, ParseCause::OutOfRange))
        }
    }
}

impl WritePairKind for Lifetime {
    type Value = Duration;

    ghost written = { λ d. Some (whole_data (as_nanos d / 1_000_000_000)) };

    ghost written_other = { λ d. Some (whole_data (as_nanos d % 1_000_000_000)) };

    fn write(_alloc: Global, value: &Duration) -> Result<Option<Value>, AllocError> {
        Ok(members::number_value(Some(value.as_secs())))
    }

    fn write_other(_alloc: Global, value: &Duration) -> Result<Option<Value>, AllocError> {
        Ok(members::number_value(Some(value.subsec_nanos() as u64)))
    }
}

impl FromJson for StoredToken {
    ghost use Rattle.oauth2_stored_token.specs.Stored.{Stored};

    ghost Meaning = { Stored };

    ghost meaning = { λ s. s };

    ghost reading = { stored_reading };

    fn from_json(alloc: Global, value: Value) -> Result<StoredToken, ReadError> {
        let (access_token, (token_type, times)) = read_object(&ROWS, alloc, value)?;
        let (accepted_at, (lifetime, rest)) = times;
        let (refresh_token, (client_id, (token_url, ()))) = rest;
        Ok(StoredToken {
            access_token,
            token_type,
            accepted_at,
            lifetime,
            refresh_token,
            client_id,
            token_url,
        })
    }
}

// The lifetime, and that contracts may take it to be a `Duration`.
fn lifetime_of(stored: &StoredToken) -> &Duration
    ensures same { as_nanos result.now ≡ stored.now.token.lifetime }
    ensures fits { FitsDuration (as_nanos result.now) }
{
    let _seconds = stored.lifetime.as_secs();
    &stored.lifetime
}

impl ToJson for StoredToken {
    ghost writing = { stored_writing };

    fn to_json(&self, alloc: Global) -> Result<Value, WriteError>
        ensures written { WritesAs result (stored_writing self.now) }
        ensures reads_back { IfOk result (λ v. stored_reading (view v) ≡ Ok self.now) }
    {
        let rest = (
            &self.refresh_token,
            (&self.client_id, (&self.token_url, ())),
        );
        let times = (&self.accepted_at, (lifetime_of(self), rest));
        let values = (&self.access_token, (&self.token_type, times));
        Ok(object_of(&ROWS, alloc, values)?)
    }
}
