//! Tests of texts that are no secrets: displayed, compared, copied and turned into texts.

use crate::support::check_different;
use oauth2::{
    ClientId, PkceCodeChallengeMethod, ResourceOwnerUsername, ResponseType, Scope, TryClone,
};
use oauth2_tests_support::{check_text, text};
use std::convert::AsStr;
use std::test::Fail;

#[test]
fn plain_texts(rt: HostRuntime) -> Result<(), Fail> {
    let alloc = rt.alloc();
    check_different(alloc, ClientId::new, "ClientId(\"top_secret\")")?;
    check_different(
        alloc,
        PkceCodeChallengeMethod::new,
        "PkceCodeChallengeMethod(\"top_secret\")",
    )?;
    check_different(
        alloc,
        ResourceOwnerUsername::new,
        "ResourceOwnerUsername(\"top_secret\")",
    )?;
    check_different(alloc, ResponseType::new, "ResponseType(\"top_secret\")")?;
    check_different(alloc, Scope::new, "Scope(\"top_secret\")")
}

#[test]
fn parts_of_texts(rt: HostRuntime) -> Result<(), Fail> {
    let id = ClientId::new(text(rt.alloc(), "b")?);
    check_text(id.as_str(), "b")?;
    check_text(String::from(id).as_str(), "b")?;
    let scope = Scope::new(text(rt.alloc(), "c")?);
    check_text(AsStr::as_str(&scope), "c")
}

#[test]
fn copies_of_lists(rt: HostRuntime) -> Result<(), Fail> {
    let (first, second) = (text(rt.alloc(), "a")?, text(rt.alloc(), "b")?);
    let words = vec![in rt.alloc(); first, second]?;
    let list = Some(words).try_clone(rt.alloc())?;
    let words = list.ok_or("the list is gone")?;
    let joined = words.concat(rt.alloc())?;
    check_text(joined.as_str(), "ab")
}
