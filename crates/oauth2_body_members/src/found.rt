//! The members found in a body. Their texts are copied once all members are read.

ghost use Rattle.std.specs.Prelude.{◌≡◌, IfOk, IfSome};
ghost use Rattle.json.specs.Value.{value_view};
ghost use Rattle.serde_json.specs.Read.{of_json};
ghost use Rattle.oauth2_json.specs.Reading.{ReadsAs};
ghost use Rattle.oauth2_body_members.specs.private.Found.{found_value};
ghost use Rattle.oauth2_body_members.specs.private.Texts.{or_not_json};

use crate::member::Member;
use crate::nested;
use oauth2_json::ReadError;
use std::alloc::Global;

// The slice of the body after the quote at byte `quote`, if it is equal to `text`.
pub(crate) fn in_body<'a>(body: &'a str, quote: usize, text: &str) -> Option<&'a str>
    ensures { IfSome result (λ found. found.now ≡ text.now) }
{
    let start = quote.checked_add(1)?;
    let found = body.get(start..start.checked_add(text.len())?)?;
    if found == text { Some(found) } else { None }
}

// The member of that name with that value. A string without escapes is not copied: the member then
// has the slice of the body after the quote at byte `place`.
pub(crate) fn member_at<'a>(
    alloc: Global,
    body: &'a str,
    name: &'a str,
    place: usize,
    value: &json::Value<'_>,
) -> Result<Member<'a>, ReadError>
    ensures read { ReadsAs found_value result (or_not_json (of_json (value_view value.now))) }
    ensures name { IfOk result (λ m. m.name.now ≡ name.now) }
{
    if let json::Value::String(text) = value {
        if let Some(text) = in_body(body, place, *text) {
            return Ok(Member {
                name,
                text,
                value: None,
            });
        }
    }
    Ok(Member {
        name,
        text: "",
        value: Some(nested::owned_value(alloc, value)?),
    })
}
