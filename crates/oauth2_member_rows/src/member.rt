//! A row for one member: its name and its kind.

ghost use Rattle.std.specs.Prelude.{[], ◌∷◌, Option, Ok, option_map};
ghost use Rattle.serde_json.specs.Find.{get_member};
ghost use Rattle.serde_json.specs.Data.{Data};
ghost use Rattle.serde_json.specs.View.{view};
ghost use Rattle.serde_json.specs.declared.value.Value.{Value};
ghost use Rattle.oauth2_member_rows.specs.private.RowLaws.{member_depends};

use crate::rows::{Rows, WriteRows};
use oauth2_body_members::Object;
use oauth2_json::{ReadError, members};
use serde_json::{Map, Value};
use std::alloc::{AllocError, Global};
use std::marker::PhantomData;

/// How the value of a member is read.
pub trait ReadKind {
    ghost use Rattle.std.specs.Prelude.{ℕ, List, Option, option_map};
    ghost use Rattle.serde_json.specs.Data.{Data};
    ghost use Rattle.serde_json.specs.View.{view};
    ghost use Rattle.oauth2_json.specs.Reading.{Reading, ReadsAs};

    /// What is read: also a member that may be absent has a value.
    type Value: Drop;

    /// What contracts see of a value, without its place in memory.
    ghost Meaning: { Type 0 };

    ghost meaning: { Self.Value → Meaning };

    /// What the member of a name is read as. A fault has that name.
    ghost reading: { List ℕ → Option Data → Reading Meaning };

    /// Reads the member `name`. A fault has that name.
    fn read(alloc: Global, name: &str, found: Option<Value>) -> Result<Self::Value, ReadError>
        ensures { ReadsAs meaning result (reading name.now (option_map view found)) };
}

/// How the value of a member is written.
pub trait WriteKind {
    ghost use Rattle.std.specs.Prelude.{◌≡◌, Option, IfOk, option_map};
    ghost use Rattle.serde_json.specs.Data.{Data};
    ghost use Rattle.serde_json.specs.View.{view};

    /// What is written: also a member that may be absent has a value.
    type Value;

    /// What a value is written as; `None` is not written.
    ghost written: { Self.Value → Option Data };

    /// The JSON value of a member; `None` is not written. An error means out of memory.
    fn write(alloc: Global, value: &Self::Value) -> Result<Option<Value>, AllocError>
        ensures { IfOk result (λ v. option_map view v ≡ written value.now) };
}

/// A row: the name of a member, and its kind `K`.
#[derive(Drop)]
pub struct Member<K>(pub &'static str, pub PhantomData<K>);

impl<K: ReadKind> Rows for Member<K> {
    type Values = K::Value;

    ghost Meaning = { K.Meaning };

    ghost meaning = { K.meaning };

    ghost names = { λ m. m.0.now ∷ [] };

    ghost reading = { λ m ms. K.reading m.0.now (get_member m.0.now ms) };

    ghost depends = { λ m. member_depends (K.reading m.0.now) m.0.now };

    fn read(&self, alloc: Global, object: &mut Object<'_>) -> Result<K::Value, ReadError> {
        let found = object.take(self.0);
        K::read(alloc, self.0, found)
    }

    fn push_names(&self, list: &mut Vec<&'static str>) -> Result<(), AllocError> {
        Ok(list.push(self.0)?)
    }
}

impl<K: WriteKind> WriteRows<&K::Value> for Member<K> {
    ghost Values = { K.Value };

    ghost values_of = { λ v. v.now };

    ghost written = { λ m v. (m.0.now, K.written v) ∷ [] };

    fn put(
        &self,
        alloc: Global,
        values: &K::Value,
        members: &mut Map<String, Value>,
    ) -> Result<(), AllocError> {
        let value = K::write(alloc, values)?;
        members::put_some(members, alloc, self.0, value)
    }
}

/// A row for a member that is read and written as it is: its name. `None` is not written.
#[derive(Drop)]
pub struct AsItIs(pub &'static str);

impl Rows for AsItIs {
    type Values = Option<Value>;

    ghost Meaning = { Option Data };

    ghost meaning = { option_map view };

    ghost names = { λ m. m.0.now ∷ [] };

    ghost reading = { λ m ms. Ok (get_member m.0.now ms) };

    ghost depends = { λ m. member_depends (λ o. Ok o) m.0.now };

    fn read(&self, _alloc: Global, object: &mut Object<'_>) -> Result<Option<Value>, ReadError> {
        Ok(object.take(self.0))
    }

    fn push_names(&self, list: &mut Vec<&'static str>) -> Result<(), AllocError> {
        Ok(list.push(self.0)?)
    }
}

impl WriteRows<Option<Value>> for AsItIs {
    ghost Values = { Option Value };

    ghost values_of = { λ v. v };

    ghost written = { λ m v. (m.0.now, option_map view v) ∷ [] };

    fn put(
        &self,
        alloc: Global,
        values: Option<Value>,
        members: &mut Map<String, Value>,
    ) -> Result<(), AllocError> {
        members::put_some(members, alloc, self.0, values)
    }
}
