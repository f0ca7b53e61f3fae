//! Extra fields as a map of the members that the standard does not name.

ghost use Rattle.std.specs.Prelude.{◌≡◌, true, Ok, option_map, option_copied, option_and_then};
ghost use Rattle.serde_json.specs.Data.{Members, object};
ghost use Rattle.serde_json.specs.Find.{get_member, as_str};
ghost use Rattle.serde_json.specs.View.{view, members_view};
ghost use Rattle.oauth2_json.specs.Members.{members_of_object};
ghost use Rattle.oauth2_json.specs.Writing.{WritesAs};
ghost use Rattle.oauth2_replies.specs.Kept.{AreFieldsKept, is_object};

use crate::device::ExtraDeviceAuthorizationFields;
use crate::token::ExtraTokenFields;
use oauth2_json::{FromJson, ReadError, ToJson, WriteError, members};
use oauth2_types::TryClone;
use serde_json::{Map, Value};
use std::alloc::{AllocError, Global};

/// The members of a response that the standard does not name, as the server sent them.
#[derive(Debug, Drop)]
pub struct ExtraFields {
    value: Value,
    ghost is_object: { is_object (view value) ≡ true },
}

impl ExtraFields {
    ghost use Rattle.oauth2_replies.specs.Extra.{extra_members};

    /// Extra fields that hold these members. Names and values are not checked here.
    pub fn new(members: Map<String, Value>) -> ExtraFields
        ensures { extra_members result ≡ members_view members.entries }
    {
        ExtraFields {
            value: Value::Object(members),
        }
    }

    /// The value of the member with that name.
    #[tactic(auto, using(crate::proofs::ExtraLaws::get_of))]
    pub fn get(&self, name: &str) -> Option<&Value>
        ensures { option_map (λ value. view value.now) result
            ≡ get_member name.now (extra_members self.now) }
    {
        self.value.get(name)
    }

    /// The text of the member with that name; `None` if it is absent or not a string.
    pub fn text(&self, name: &str) -> Option<&str>
        ensures { option_copied result
            ≡ option_and_then as_str (get_member name.now (extra_members self.now)) }
    {
        match self.get(name) {
            Some(value) => value.as_str(),
            None => None,
        }
    }
}

impl FromJson for ExtraFields {
    ghost use Rattle.oauth2_replies.specs.Extra.{extra_members};

    ghost Meaning = { Members };

    ghost meaning = { extra_members };

    ghost reading = { members_of_object };

    fn from_json(alloc: Global, value: Value) -> Result<ExtraFields, ReadError> {
        Ok(ExtraFields::new(members::of_object(alloc, value)?))
    }
}

impl ToJson for ExtraFields {
    ghost use Rattle.oauth2_replies.specs.Extra.{extra_members};

    ghost writing = { λ fields. Ok (object (extra_members fields)) };

    #[tactic(auto, using(crate::proofs::ExtraLaws::of_members))]
    fn to_json(&self, _alloc: Global) -> Result<Value, WriteError>
        ensures written { WritesAs result (Ok (object (extra_members self.now))) }
        // So these extra fields meet the condition under which a response reads back.
        ensures kept { AreFieldsKept members_of_object extra_members
            (λ fields. Ok (object (extra_members fields))) self.now }
    {
        Ok(self.value.clone()?)
    }
}

impl ExtraTokenFields for ExtraFields {
    ghost use Rattle.oauth2_replies.specs.Extra.{extra_members};

    ghost writes_object = { λ fields d h. (extra_members fields, Prim.cc) };
}

impl ExtraDeviceAuthorizationFields for ExtraFields {
    ghost use Rattle.oauth2_replies.specs.Extra.{extra_members};

    ghost writes_object = { λ fields d h. (extra_members fields, Prim.cc) };
}

impl TryClone for ExtraFields {
    ghost use Rattle.oauth2_replies.specs.Extra.{extra_members};

    ghost Seen = { Members };

    ghost seen = { extra_members };

    fn try_clone(&self, _alloc: Global) -> Result<ExtraFields, AllocError> {
        Ok(ExtraFields {
            value: self.value.clone()?,
        })
    }
}
