//! What is wrong with a text, or with a value (RFC 9396, section 2).

ghost use Rattle.std.specs.Prelude.{◌≡◌, Some, IfOk, IfErr, option_map};
ghost use Rattle.serde_json.specs.Read.{read};
ghost use Rattle.serde_json.specs.View.{view, items_view};
ghost use Rattle.oauth2_grants.specs.authorization_details.Details.{
  detail_fault,
  details_fault,
  items_fault,
  text_fault,
  type_fault,
  TellsFault,
};

use crate::authorization_details::details_fault::DetailsFault;
use serde_json::Value;
use std::alloc::Global;

// The value that a JSON text is.
pub(crate) fn json_value(alloc: Global, text: &str) -> Result<Value, DetailsFault>
    ensures ok { IfOk result (λ v. read text.now ≡ Some (view v)) }
    ensures err { IfErr result (λ fault. TellsFault fault (text_fault (read text.now))) }
{
    match Value::from_str(alloc, text) {
        Ok(value) => Ok(value),
        Err(error) => if error.is_memory() {
            Err(DetailsFault::Memory)
        } else {
            Err(DetailsFault::NotJson)
        },
    }
}

// Why a value is no authorization details; none if it is.
pub(crate) fn details_fault(value: &Value) -> Option<DetailsFault>
    ensures { result ≡ details_fault (view value.now) }
{
    match value {
        Value::Array(items) => items_fault(items.as_slice()),
        _ => Some(DetailsFault::NotArray),
    }
}

// The fault of the first item that has one.
fn items_fault(items: &[Value]) -> Option<DetailsFault>
    ensures { result ≡ items_fault 0 (items_view items.now) }
{
    let mut number = 0;
    let mut rest = items;
    while let [item, after @ ..] = rest {
        if let Some(fault) = detail_fault(number, item) {
            return Some(fault);
        }
        number += 1;
        rest = after;
    }
    None
}

// What is wrong with an item of this number.
fn detail_fault(number: usize, item: &Value) -> Option<DetailsFault>
    ensures { result ≡ detail_fault number (view item.now) }
{
    match item {
        Value::Object(_) => type_fault(number, item.get("type")),
        _ => Some(DetailsFault::NotObject(number)),
    }
}

// What is wrong with the value under `type` of an item of this number.
fn type_fault(number: usize, found: Option<&Value>) -> Option<DetailsFault>
    ensures { result ≡ type_fault number (option_map (λ v. view v.now) found.entry) }
{
    match found {
        Some(Value::String(_)) => None,
        _ => Some(DetailsFault::NoType(number)),
    }
}
