//! Lists of rows: the unit, and a row or a list before another list.

ghost use Rattle.std.specs.Prelude.{[], ◌++◌, Ok, refl};
ghost use Rattle.oauth2_json.specs.Reading.{◌⊛◌};
ghost use Rattle.oauth2_member_rows.specs.Rows.{joined};
ghost use Rattle.oauth2_member_rows.specs.private.RowLaws.{pair_depends};

use oauth2_body_members::Object;
use oauth2_json::ReadError;
use serde_json::{Map, Value};
use std::alloc::{AllocError, Global};

/// The members of a type: what they are called, and how they are read.
pub trait Rows {
    ghost use Rattle.std.specs.Prelude.{◌≡◌, ◌++◌, ℕ, List, map, true, IfOk};
    ghost use Rattle.serde_json.specs.Data.{Members};
    ghost use Rattle.oauth2_json.specs.Reading.{Reading, ReadsAs};
    ghost use Rattle.oauth2_json.specs.Members.{others};
    ghost use Rattle.oauth2_body_members.specs.Object.{object_members};
    ghost use Rattle.oauth2_member_rows.specs.Rows.{are_distinct, Agree};

    /// What is read: a value for each row, as nested pairs.
    type Values: Drop;

    /// What contracts see of the values, without their place in memory.
    ghost Meaning: { Type 0 };

    ghost meaning: { Self.Values → Meaning };

    /// The names of all members, in the order of the rows.
    ghost names: { Self → List (List ℕ) };

    /// What the members of an object are read as. Of several faults, the first row's is told.
    ghost reading: { Self → Members → Reading Meaning };

    /// Takes the members out of an object, and reads them.
    fn read(&self, alloc: Global, object: &mut Object<'_>) -> Result<Self::Values, ReadError>
        requires { are_distinct (names self.now) ≡ true }
        ensures read { ReadsAs meaning result (reading self.now (object_members object.old)) }
        ensures rest { object_members object.new
            ≡ others (names self.now) (object_members object.old) };

    /// Adds the names to a list.
    fn push_names(&self, list: &mut Vec<&'static str>) -> Result<(), AllocError>
        ensures { IfOk result (λ _. map (λ name. name.now) list.new.items
            ≡ map (λ name. name.now) list.old.items ++ names self.now) };

    ghost depends: { (rows : Self) (a b : Members)
        → Agree (names rows) a b → reading rows a ≡ reading rows b };
}

/// The members of a type, written from `V`: references to the values, as nested pairs.
pub trait WriteRows<V> {
    ghost use Rattle.std.specs.Prelude.{◌≡◌, List, IfOk};
    ghost use Rattle.serde_json.specs.View.{members_view};
    ghost use Rattle.oauth2_json.specs.Puts.{Row, put_all};

    /// The values that are referred to.
    ghost Values: { Type 0 };

    ghost values_of: { V → Values };

    /// What is written: for each name its value, or `None` if the member is not written.
    ghost written: { Self → Values → List Row };

    /// Puts the members into an object.
    fn put(
        &self,
        alloc: Global,
        values: V,
        members: &mut Map<String, Value>,
    ) -> Result<(), AllocError>
        ensures { IfOk result (λ _. members_view members.new.entries
            ≡ put_all (written self.now (values_of values))
            (members_view members.old.entries)) };
}

/// No rows.
impl Rows for () {
    type Values = ();

    ghost Meaning = { Unit {0} };

    ghost meaning = { λ _. tt };

    ghost names = { λ _. [] };

    ghost reading = { λ _ ms. Ok tt };

    ghost depends = { λ _ a b _. refl };

    fn read(&self, _alloc: Global, _object: &mut Object<'_>) -> Result<(), ReadError> {
        Ok(())
    }

    fn push_names(&self, _list: &mut Vec<&'static str>) -> Result<(), AllocError> {
        Ok(())
    }
}

impl WriteRows<()> for () {
    ghost Values = { Unit {0} };

    ghost values_of = { λ _. tt };

    ghost written = { λ _ _. [] };

    fn put(
        &self,
        _alloc: Global,
        _values: (),
        _members: &mut Map<String, Value>,
    ) -> Result<(), AllocError> {
        Ok(())
    }
}

/// The rows of `A`, and then those of `B`.
impl<A: Rows, B: Rows> Rows for (A, B) {
    type Values = (A::Values, B::Values);

    ghost Meaning = { A.Meaning × B.Meaning };

    ghost meaning = { λ v. (A.meaning v.0, B.meaning v.1) };

    ghost names = { λ s. A.names s.0 ++ B.names s.1 };

    ghost reading = { λ s ms. Ok joined ⊛ A.reading s.0 ms ⊛ B.reading s.1 ms };

    ghost depends = { λ s a b h. pair_depends (A.names s.0) (B.names s.1) (A.reading s.0)
        (B.reading s.1) a b (A.depends s.0 a b) (B.depends s.1 a b) h };

    fn read(
        &self,
        alloc: Global,
        object: &mut Object<'_>,
    ) -> Result<(A::Values, B::Values), ReadError> {
        let first = self.0.read(alloc, object);
        let second = self.1.read(alloc, object);
        Ok((first?, second?))
    }

    fn push_names(&self, list: &mut Vec<&'static str>) -> Result<(), AllocError> {
        self.0.push_names(list)?;
        self.1.push_names(list)
    }
}

impl<A: WriteRows<V>, B: WriteRows<W>, V: Drop, W: Drop> WriteRows<(V, W)> for (A, B) {
    ghost Values = { A.Values × B.Values };

    ghost values_of = { λ v. (A.values_of v.0, B.values_of v.1) };

    ghost written = { λ s v. A.written s.0 v.0 ++ B.written s.1 v.1 };

    fn put(
        &self,
        alloc: Global,
        values: (V, W),
        members: &mut Map<String, Value>,
    ) -> Result<(), AllocError> {
        let (first, second) = values;
        self.1.put(alloc, second, members)?;
        self.0.put(alloc, first, members)
    }
}
