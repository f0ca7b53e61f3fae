//! A row for a value that takes two members.

ghost use Rattle.std.specs.Prelude.{[], ◌∷◌};
ghost use Rattle.serde_json.specs.Find.{get_member};
ghost use Rattle.oauth2_member_rows.specs.private.RowLaws.{members_depend};

use crate::rows::{Rows, WriteRows};
use oauth2_body_members::Object;
use oauth2_json::{ReadError, members};
use serde_json::{Map, Value};
use std::alloc::{AllocError, Global};
use std::marker::PhantomData;

/// How a value that takes two members is read.
pub trait ReadPairKind {
    ghost use Rattle.std.specs.Prelude.{ℕ, List, Option, option_map};
    ghost use Rattle.serde_json.specs.Data.{Data};
    ghost use Rattle.serde_json.specs.View.{view};
    ghost use Rattle.oauth2_json.specs.Reading.{Reading, ReadsAs};

    /// What is read from both members.
    type Value: Drop;

    /// What contracts see of a value, without its place in memory.
    ghost Meaning: { Type 0 };

    ghost meaning: { Self.Value → Meaning };

    /// What the members of two names are read as.
    ghost reading: { List ℕ → List ℕ → Option Data → Option Data → Reading Meaning };

    /// Reads the members `name` and `other`.
    fn read(
        alloc: Global,
        name: &str,
        other: &str,
        found: Option<Value>,
        found_other: Option<Value>,
    ) -> Result<Self::Value, ReadError>
        ensures { ReadsAs meaning result (reading name.now other.now
            (option_map view found) (option_map view found_other)) };
}

/// How a value that takes two members is written.
pub trait WritePairKind {
    ghost use Rattle.std.specs.Prelude.{◌≡◌, Option, IfOk, option_map};
    ghost use Rattle.serde_json.specs.Data.{Data};
    ghost use Rattle.serde_json.specs.View.{view};

    /// What is written under both names.
    type Value;

    /// What a value is written as, under the first name and under the second.
    ghost written: { Self.Value → Option Data };

    ghost written_other: { Self.Value → Option Data };

    /// The JSON value under the first name. An error means out of memory.
    fn write(alloc: Global, value: &Self::Value) -> Result<Option<Value>, AllocError>
        ensures { IfOk result (λ v. option_map view v ≡ written value.now) };

    /// The JSON value under the second name. An error means out of memory.
    fn write_other(alloc: Global, value: &Self::Value) -> Result<Option<Value>, AllocError>
        ensures { IfOk result (λ v. option_map view v ≡ written_other value.now) };
}

/// A row: the names of two members that hold one value, and its kind `K`.
#[derive(Drop)]
pub struct MemberPair<K>(pub &'static str, pub &'static str, pub PhantomData<K>);

impl<K: ReadPairKind> Rows for MemberPair<K> {
    type Values = K::Value;

    ghost Meaning = { K.Meaning };

    ghost meaning = { K.meaning };

    ghost names = { λ m. m.0.now ∷ m.1.now ∷ [] };

    ghost reading = { λ m ms. K.reading m.0.now m.1.now
        (get_member m.0.now ms) (get_member m.1.now ms) };

    ghost depends = { λ m. members_depend (K.reading m.0.now m.1.now) m.0.now m.1.now };

    fn read(&self, alloc: Global, object: &mut Object<'_>) -> Result<K::Value, ReadError> {
        let found = object.take(self.0);
        let found_other = object.take(self.1);
        K::read(alloc, self.0, self.1, found, found_other)
    }

    fn push_names(&self, list: &mut Vec<&'static str>) -> Result<(), AllocError> {
        list.push(self.0)?;
        Ok(list.push(self.1)?)
    }
}

impl<K: WritePairKind> WriteRows<&K::Value> for MemberPair<K> {
    ghost Values = { K.Value };

    ghost values_of = { λ v. v.now };

    ghost written = { λ m v. (m.0.now, K.written v) ∷ (m.1.now, K.written_other v) ∷ [] };

    fn put(
        &self,
        alloc: Global,
        values: &K::Value,
        members: &mut Map<String, Value>,
    ) -> Result<(), AllocError> {
        let other = K::write_other(alloc, values)?;
        members::put_some(members, alloc, self.1, other)?;
        let value = K::write(alloc, values)?;
        members::put_some(members, alloc, self.0, value)
    }
}
