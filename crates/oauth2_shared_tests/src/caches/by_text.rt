//! What a cache of two keepers does, step by step. Its names are texts.

use oauth2_token_cache::TokenCache;
use std::num::NonZeroUsize;
use std::test::*;

/// A keeper that counts its calls.
#[derive(Drop)]
struct Counter {
    calls: u64,
}

/// What is done under a name: a keeper that was called so often is inserted, the keeper is called,
/// or taken out.
#[derive(Clone, Copy)]
enum Step {
    Insert(u64),
    Call,
    Remove,
}

// The steps, and what each shows: the keeper that goes, as its name and how often it was called,
// or how often a keeper was called after its call.
const STEPS: &[(&str, Step, &str)] = &[
    ("mail", Step::Call, "none"),
    ("mail", Step::Insert(0), "none"),
    ("mail", Step::Call, "1"),
    ("calendar", Step::Insert(10), "none"),
    ("calendar", Step::Call, "11"),
    ("mail", Step::Call, "2"),
    // `calendar` was used longest ago, and there is room for two.
    ("files", Step::Insert(20), "calendar 11"),
    ("calendar", Step::Call, "none"),
    ("mail", Step::Call, "3"),
    // A name that is there keeps its place, and the old keeper is handed out.
    ("mail", Step::Insert(30), "mail 3"),
    ("mail", Step::Call, "31"),
    ("files", Step::Call, "21"),
    ("files", Step::Remove, "files 21"),
    ("files", Step::Remove, "none"),
    ("files", Step::Call, "none"),
    ("calendar", Step::Insert(40), "none"),
    ("mail", Step::Call, "32"),
    ("calendar", Step::Call, "41"),
];

fn text_of(rt: &HostRuntime, pair: Option<(String, Counter)>) -> Result<String, Fail> {
    Ok(match pair {
        Some((name, keeper)) => format!(in rt.alloc(); "{name} {}", keeper.calls)?,
        None => String::from_str(rt.alloc(), "none")?,
    })
}

fn shown_by(
    rt: &HostRuntime,
    cache: &mut TokenCache<Counter, String>,
    name: &str,
    step: Step,
) -> Result<String, Fail> {
    match step {
        Step::Insert(calls) => {
            let name = String::from_str(rt.alloc(), name)?;
            let pair = cache.insert(name, Counter { calls })?;
            text_of(rt, pair)
        }
        Step::Call => match cache.keeper(name) {
            Some(keeper) => {
                keeper.calls = keeper.calls.wrapping_add(1);
                Ok(format!(in rt.alloc(); "{}", keeper.calls)?)
            }
            None => Ok(String::from_str(rt.alloc(), "none")?),
        },
        Step::Remove => text_of(rt, cache.remove(name)),
    }
}

#[test]
fn steps_of_a_cache(rt: HostRuntime) -> Result<(), Fail> {
    let mut cache = TokenCache::new(rt.alloc(), NonZeroUsize::new(2).unwrap())?;
    for (name, step, wanted) in STEPS {
        let shown = shown_by(&rt, &mut cache, name, *step)?;
        assert!(rt; shown.as_str() == *wanted, "{name}: {shown}");
    }
    assert_eq!(rt; cache.len(), 2);
    Ok(())
}
