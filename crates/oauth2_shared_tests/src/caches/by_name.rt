//! Names of scopes, audience and subject are told apart by each of the three.

use oauth2_token_cache::{TokenCache, TokenName};
use std::num::NonZeroUsize;
use std::test::*;

// Scopes, audience and subject.
const NAMES: &[(&str, &str, &str)] = &[
    ("read write", "", ""),
    ("read", "write", ""),
    ("read", "", "write"),
    ("read", "", ""),
    ("", "read", ""),
    ("", "", "read"),
];

fn name_of(rt: &HostRuntime, parts: (&str, &str, &str)) -> Result<TokenName, Fail> {
    let (scopes, audience, subject) = parts;
    Ok(TokenName {
        scopes: String::from_str(rt.alloc(), scopes)?,
        audience: String::from_str(rt.alloc(), audience)?,
        subject: String::from_str(rt.alloc(), subject)?,
    })
}

#[test]
fn names_are_told_apart(rt: HostRuntime) -> Result<(), Fail> {
    let mut cache: TokenCache<usize> = TokenCache::new(rt.alloc(), NonZeroUsize::new(10).unwrap())?;
    for (i, parts) in NAMES.iter().enumerate() {
        let name = name_of(&rt, *parts)?;
        let pair = cache.insert(name, i)?;
        assert!(rt; pair.is_none(), "{i} pushed another out");
    }
    for (i, parts) in NAMES.iter().enumerate() {
        let name = name_of(&rt, *parts)?;
        let keeper = cache.keeper(&name);
        assert!(rt; keeper.is_some_and(|found| *found == i), "{i} is another's");
    }
    Ok(())
}
