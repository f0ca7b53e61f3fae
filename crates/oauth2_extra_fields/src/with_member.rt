//! Extra fields: a named member, and the other fields.

ghost use Rattle.std.specs.Prelude.{◌≡◌, option_copied, IfOk};
ghost use Rattle.oauth2_json.specs.Writing.{WritesAs};
ghost use Rattle.oauth2_replies.specs.Kept.{AreFieldsKept};
ghost use Rattle.oauth2_extra_fields.specs.Fields.{
  MemberAndRest,
  member_and_rest,
  with_member_seen,
  with_member_reading,
  with_member_writing,
  IsValueKept,
};
ghost use Rattle.oauth2_extra_fields.specs.private.Written.{object_written};

use crate::member_value::MemberValue;
use oauth2_json::{FromJson, ReadError, ToJson, WriteError, members};
use oauth2_replies::{EmptyExtraTokenFields, ExtraDeviceAuthorizationFields, ExtraTokenFields};
use oauth2_types::TryClone;
use serde_json::Value;
use std::alloc::{AllocError, Global};
use std::marker::Model;

/// A member that the standard does not name: its name and the type of its value.
pub trait NamedMember {
    ghost use Rattle.std.specs.Prelude.{◌≡◌, ℕ, List};

    /// The type of its value.
    type Value: MemberValue;

    ghost name: { List ℕ };

    /// The name of the member, as in JSON.
    fn name() -> &'static str
        ensures { result.now ≡ name };
}

/// Extra fields: the member that `M` names, which may be absent, and other fields of the type
/// `Rest`. By default there are no other fields.
#[derive_where(Debug; Rest)]
pub struct WithMember<M: NamedMember, Rest = EmptyExtraTokenFields> {
    value: Option<M::Value>,
    rest: Rest,
}

impl<M: NamedMember, Rest> Model for WithMember<M, Rest> {
    ghost use Rattle.oauth2_extra_fields.specs.Fields.{MemberAndRest, member_and_rest};

    ghost Value = { MemberAndRest M.Value Rest };

    ghost view = { λ fields. member_and_rest fields.value fields.rest };
}

impl<M: NamedMember, Rest> WithMember<M, Rest> {
    /// Extra fields with this value, or `None` if the member is absent, and these other fields.
    pub fn new(value: Option<M::Value>, rest: Rest) -> WithMember<M, Rest>
        ensures { result ≡ member_and_rest value rest }
    {
        WithMember { value, rest }
    }

    /// The value of the member; `None` if it is absent.
    pub fn value(&self) -> Option<&M::Value>
        ensures { option_copied result ≡ self.now.value }
    {
        self.value.as_ref()
    }

    /// The other fields.
    pub fn rest(&self) -> &Rest
        ensures { result.now ≡ self.now.rest }
    {
        &self.rest
    }
}

impl<M: NamedMember, Rest: Drop> Drop for WithMember<M, Rest> {
    fn drop(self) {
        let WithMember { value, rest } = self;
        drop(value);
        drop(rest);
    }
}

impl<M: NamedMember, Rest: FromJson + Drop> FromJson for WithMember<M, Rest> {
    ghost Meaning = { MemberAndRest M.Value.Meaning Rest.Meaning };

    ghost meaning = { with_member_seen M.Value.meaning Rest.meaning };

    ghost reading = { with_member_reading M.name M.Value.reading Rest.reading };

    fn from_json(alloc: Global, value: Value) -> Result<WithMember<M, Rest>, ReadError> {
        let mut members = members::of_object(alloc, value)?;
        let found = members::take(&mut members, M::name());
        let value = M::Value::read_member(alloc, M::name(), found)?;
        let rest = Rest::from_json(alloc, Value::Object(members))?;
        Ok(WithMember { value, rest })
    }
}

impl<M: NamedMember, Rest: ToJson> WithMember<M, Rest> {
    fn to_value(&self, alloc: Global) -> Result<Value, WriteError>
        ensures { WritesAs result
            (with_member_writing M.name M.Value.written Rest.writing self.now) }
    {
        let rest = self.rest.to_json(alloc)?;
        let mut members = members::beside(&[M::name()], rest)?;
        let value = M::Value::member_value(alloc, &self.value)?;
        members::put_some(&mut members, alloc, M::name(), value)?;
        Ok(Value::Object(members))
    }
}

impl<M: NamedMember, Rest: FromJson + ToJson> ToJson for WithMember<M, Rest> {
    ghost writing = { with_member_writing M.name M.Value.written Rest.writing };

    fn to_json(&self, alloc: Global) -> Result<Value, WriteError>
        ensures written { WritesAs result
            (with_member_writing M.name M.Value.written Rest.writing self.now) }
        // So these extra fields meet the condition under which a response reads back.
        ensures kept { IfOk result (λ _. IsValueKept M.Value.written self.now.value
            → AreFieldsKept Rest.reading Rest.meaning Rest.writing self.now.rest
            → AreFieldsKept (with_member_reading M.name M.Value.reading Rest.reading)
            (with_member_seen M.Value.meaning Rest.meaning)
            (with_member_writing M.name M.Value.written Rest.writing) self.now) }
    {
        self.to_value(alloc)
    }
}

impl<M: NamedMember, Rest: ExtraTokenFields + Drop> ExtraTokenFields for WithMember<M, Rest> {
    ghost writes_object = { object_written M.name M.Value.written Rest.ToJson.writing };
}

impl<M: NamedMember, Rest: ExtraDeviceAuthorizationFields + Drop> ExtraDeviceAuthorizationFields
    for WithMember<M, Rest> {
    ghost writes_object = { object_written M.name M.Value.written Rest.ToJson.writing };
}

impl<M: NamedMember, Rest: TryClone + Drop> TryClone for WithMember<M, Rest> {
    ghost Seen = { MemberAndRest M.Value.Meaning Rest.Seen };

    ghost seen = { with_member_seen M.Value.meaning Rest.seen };

    fn try_clone(&self, alloc: Global) -> Result<WithMember<M, Rest>, AllocError> {
        let value = match &self.value {
            Some(value) => Some(value.try_copy(alloc)?),
            None => None,
        };
        let rest = self.rest.try_clone(alloc)?;
        Ok(WithMember { value, rest })
    }
}
