//! Adds scopes and parameters to a keeper.

use oauth2::{ParamText, Scope};
use oauth2_keeper::BasicTokenKeeper;
use oauth2_refusals_support::{Ended, Want, text};
use std::alloc::{AllocError, Global};

/// What is added to a keeper.
#[derive(Clone, Copy)]
pub enum Addition<'a> {
    Scope(&'a str),
    Scopes(&'a [&'a str]),
    RefreshScope(&'a str),
    Extra(&'a str, &'a str),
}

fn scope(alloc: Global, scope: &str) -> Result<Scope, Ended> {
    Ok(Scope::new(text(alloc, scope)?))
}

fn scopes(alloc: Global, texts: &[&str]) -> Result<Vec<Scope>, Ended> {
    let mut scopes = Vec::new(alloc);
    for text in texts {
        if scopes.push(scope(alloc, text)?).is_err() {
            return Err(Ended::Starved(Want::Row));
        }
    }
    Ok(scopes)
}

// Adds to a keeper. Returns whether the keeper ran out of memory.
fn is_refused<'a>(
    alloc: Global,
    keeper: &mut BasicTokenKeeper<'a>,
    addition: Addition<'a>,
) -> Result<bool, Ended> {
    let added = match addition {
        Addition::Scope(text) => keeper.add_scope(alloc, scope(alloc, text)?),
        Addition::Scopes(texts) => keeper.add_scopes(alloc, scopes(alloc, texts)?),
        Addition::RefreshScope(text) => keeper.add_refresh_scope(alloc, scope(alloc, text)?),
        Addition::Extra(name, value) => keeper.add_extra_param(
            alloc,
            ParamText::Borrowed(name),
            ParamText::Borrowed(value),
        ),
    };
    Ok(added.is_err())
}

/// Adds all of them, and tries again if memory runs out. Returns whether one had to be tried again.
pub fn add_all<'a>(
    alloc: Global,
    keeper: &mut BasicTokenKeeper<'a>,
    additions: &[Addition<'a>],
) -> Result<bool, Ended> {
    let mut was_refused = false;
    for addition in additions {
        if is_refused(alloc, keeper, *addition)? {
            was_refused = true;
            if is_refused(alloc, keeper, *addition)? {
                return Err(Ended::from(AllocError));
            }
        }
    }
    Ok(was_refused)
}
