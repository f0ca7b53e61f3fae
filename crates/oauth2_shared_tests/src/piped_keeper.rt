//! A keeper of shared tokens, whose store, server and clock are on the other side of standard input
//! and output.
//!
//! Its first line is `settings MARGIN OLD_MARGIN WAIT ROUNDS LOADS REPEATS`, the first three in
//! milliseconds. Each further line is a call: `token NAME`, `log_in NAME TOKEN`, `answer NAME VERSION
//! TOKEN` or `log_out NAME`. A token is `UNTIL:TEXT`: good until that moment, in milliseconds since
//! 1970, and a text without a space.
//!
//! In a call the program prints what it asks, a line each, and reads a line for an answer:
//!
//! | It prints | The answer |
//! |---|---|
//! | `load NAME` | `VERSION CONTENT`, or anything else if nothing is known |
//! | `replace NAME VERSION CONTENT` | `done`, `refused`, or anything else |
//! | `refresh TOKEN` | `new TOKEN`, or anything else if no token came |
//! | `now` | milliseconds since 1970 |
//! | `sleep MILLISECONDS` | anything, when that time has passed |
//! | `draw` | a random number of 128 bits |
//!
//! CONTENT is `rest TOKEN`, `mark RENEWAL TOKEN` or `none`. The last line of a call is `= ` and what
//! it tells, as `= good TOKEN` or `= unfinished RENEWAL VERSION TOKEN`. A line that is no call is
//! told by `= ?`.

mod contents;
mod parts;
mod results;
mod text_token;

use oauth2_shared_keeper::{KeeperSettings, Limits, SharedKeeper, StoreAndWorld};
use parts::{PipeServer, PipeStore, PipeWorld};
use std::io;
use std::time::Duration;
use text_token::TextToken;

type PipeKeeper<'r> = SharedKeeper<StoreAndWorld<PipeStore<'r>, PipeWorld<'r>>, PipeServer<'r>>;

fn settings_of(line: &str) -> Option<KeeperSettings> {
    let mut words = line.split_whitespace();
    if words.next()? != "settings" {
        return None;
    }
    let margin = words.next()?.parse::<u64>().ok()?;
    let old_margin = words.next()?.parse::<u64>().ok()?;
    let wait = words.next()?.parse::<u64>().ok()?;
    let rounds = words.next()?.parse::<u64>().ok()?;
    let loads = words.next()?.parse::<u64>().ok()?;
    let repeats = words.next()?.parse::<u64>().ok()?;
    Some(KeeperSettings {
        margin: Duration::from_millis(margin),
        old_margin: Duration::from_millis(old_margin),
        wait: Duration::from_millis(wait),
        rounds,
        limits: Limits { loads, repeats },
    })
}

fn call(rt: &HostRuntime, keeper: &mut PipeKeeper<'_>, line: &str) -> Option<String> {
    let alloc = rt.alloc();
    let mut words = line.split_whitespace();
    let verb = words.next()?;
    let name = words.next()?;
    match verb {
        "token" => results::held_words(alloc, keeper.token(name)),
        "log_in" => {
            let token = TextToken::read(alloc, words.next()?)?;
            results::login_words(alloc, keeper.log_in(name, token))
        }
        "answer" => {
            let version = words.next()?.parse::<u64>().ok()?;
            let token = TextToken::read(alloc, words.next()?)?;
            results::login_words(alloc, keeper.answer(name, version, token))
        }
        "log_out" => results::logout_words(alloc, keeper.log_out::<TextToken>(name)),
        _ => None,
    }
}

// A keeper with these settings, over the other side's store, server and clock.
fn keeper_of(rt: &HostRuntime, settings: KeeperSettings) -> PipeKeeper<'_> {
    SharedKeeper {
        store: StoreAndWorld {
            store: PipeStore { rt },
            world: PipeWorld { rt },
        },
        client: PipeServer { rt },
        settings,
    }
}

/// Runs a keeper whose first line this is, and whose calls are the lines of standard input, up to the
/// line `last`. Returns whether there is one.
pub fn run_until(rt: &HostRuntime, first: &str, last: &str) -> io::Result<bool> {
    let Some(settings) = settings_of(first) else {
        rt.println("= ?")?;
        return Ok(false);
    };
    let mut keeper = keeper_of(rt, settings);
    for _ in 0..u64::MAX {
        let mut line = String::new(rt.alloc());
        if rt.read_line(&mut line)? == 0 {
            break;
        }
        if line.as_str() == last {
            return Ok(true);
        }
        match call(rt, &mut keeper, line.as_str()) {
            Some(words) => println!(rt; "= {words}")?,
            None => rt.println("= ?")?,
        }
    }
    Ok(false)
}
