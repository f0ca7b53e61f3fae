//! The types of values that a named member can have.

ghost use Rattle.std.specs.Prelude.{◌≡◌, ℕ, List, Bool, Ok, string_bytes, refl};
ghost use Rattle.serde_json.specs.Data.{Data, boolean, number, unsigned, string};
ghost use Rattle.serde_json.specs.View.{view};
ghost use Rattle.oauth2_json.specs.Values.{flag, text, whole_number};

use oauth2_json::{ReadError, members};
use oauth2_types::TryClone;
use serde_json::Value;
use std::alloc::{AllocError, Global};
use std::fmt;

/// The type of the value of a member that may be absent.
pub trait MemberValue: fmt::Debug + Drop + Sized {
    ghost use Rattle.std.specs.Prelude.{◌≡◌, Ok, IfOk, option_map};
    ghost use Rattle.serde_json.specs.Data.{Data};
    ghost use Rattle.serde_json.specs.View.{view};
    ghost use Rattle.oauth2_json.specs.Reading.{Reading, ReadsAs};
    ghost use Rattle.oauth2_json.specs.Members.{optional_member};

    /// What contracts see of a value, without its place in memory.
    ghost Meaning: { Type 0 };

    ghost meaning: { Self → Meaning };

    /// What a JSON value is read as, if it is not null.
    ghost reading: { Data → Reading Meaning };

    /// What a value is written as.
    ghost written: { Self → Data };

    /// Reads the member `name`, where absent and null are `None`. A fault names this member.
    fn read_member(
        alloc: Global,
        name: &str,
        found: Option<Value>,
    ) -> Result<Option<Self>, ReadError>
        ensures { ReadsAs (option_map meaning) result
            (optional_member reading name.now (option_map view found)) };

    /// The JSON value of a member, or `None` if it is absent. An error means out of memory.
    fn member_value(alloc: Global, value: &Option<Self>) -> Result<Option<Value>, AllocError>
        ensures { IfOk result (λ v. option_map view v ≡ option_map written value.now) };

    /// A copy with the same meaning. An error means out of memory.
    fn try_copy(&self, alloc: Global) -> Result<Self, AllocError>
        ensures { IfOk result (λ copy. meaning copy ≡ meaning self.now) };

    /// What a value is written as reads back as that value.
    ghost reads_back: { (x : Self) → reading (written x) ≡ Ok (meaning x) };
}

impl MemberValue for String {
    ghost Meaning = { List ℕ };

    ghost meaning = { string_bytes };

    ghost reading = { text };

    ghost written = { λ s. string (string_bytes s) };

    ghost reads_back = { λ _. refl };

    fn read_member(
        alloc: Global,
        name: &str,
        found: Option<Value>,
    ) -> Result<Option<String>, ReadError> {
        members::optional(alloc, name, found)
    }

    fn member_value(alloc: Global, value: &Option<String>) -> Result<Option<Value>, AllocError> {
        members::text_value(alloc, value)
    }

    fn try_copy(&self, alloc: Global) -> Result<String, AllocError> {
        self.try_clone(alloc)
    }
}

impl MemberValue for u64 {
    ghost Meaning = { ℕ };

    ghost meaning = { λ n. n };

    ghost reading = { whole_number };

    ghost written = { λ n. number (unsigned n) };

    ghost reads_back = { λ _. refl };

    fn read_member(
        alloc: Global,
        name: &str,
        found: Option<Value>,
    ) -> Result<Option<u64>, ReadError> {
        members::optional_number(alloc, name, found)
    }

    fn member_value(_alloc: Global, value: &Option<u64>) -> Result<Option<Value>, AllocError> {
        Ok(members::number_value(*value))
    }

    fn try_copy(&self, _alloc: Global) -> Result<u64, AllocError> {
        Ok(*self)
    }
}

impl MemberValue for bool {
    ghost Meaning = { Bool };

    ghost meaning = { λ b. b };

    ghost reading = { flag };

    ghost written = { boolean };

    ghost reads_back = { λ _. refl };

    fn read_member(
        alloc: Global,
        name: &str,
        found: Option<Value>,
    ) -> Result<Option<bool>, ReadError> {
        match found {
            None | Some(Value::Null) => Ok(None),
            Some(value) => Ok(Some(members::needed_flag(alloc, name, Some(value))?)),
        }
    }

    fn member_value(_alloc: Global, value: &Option<bool>) -> Result<Option<Value>, AllocError> {
        match value {
            Some(flag) => Ok(Some(Value::Bool(*flag))),
            None => Ok(None),
        }
    }

    fn try_copy(&self, _alloc: Global) -> Result<bool, AllocError> {
        Ok(*self)
    }
}

/// Any JSON value except null, which is read as absent.
impl MemberValue for Value {
    ghost Meaning = { Data };

    ghost meaning = { view };

    ghost reading = { Ok };

    ghost written = { view };

    ghost reads_back = { λ _. refl };

    fn read_member(
        _alloc: Global,
        _name: &str,
        found: Option<Value>,
    ) -> Result<Option<Value>, ReadError> {
        match found {
            None | Some(Value::Null) => Ok(None),
            Some(value) => Ok(Some(value)),
        }
    }

    fn member_value(_alloc: Global, value: &Option<Value>) -> Result<Option<Value>, AllocError> {
        match value {
            Some(value) => Ok(Some(value.clone()?)),
            None => Ok(None),
        }
    }

    fn try_copy(&self, _alloc: Global) -> Result<Value, AllocError> {
        Ok(self.clone()?)
    }
}
