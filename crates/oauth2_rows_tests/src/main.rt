//! Runs the calls that standard input lists, and prints the result of each row.
//!
//! The first word of a line says which module runs the rest of it, the row. `key_source` calls a
//! source of keys. `verified_login` ends logins, and `hybrid_login` verifies ID tokens that come
//! with a code. `introspection_cache` calls a cache of introspection answers. `adapters` adapts
//! replies, and repeats requests. The modules say which rows they have. What a row sets, such as a
//! key, holds for the later rows of its module. A row that begins with `#` is a heading, and is
//! printed as it is. For a row that is none of these, `?` is printed. The file `stdout` has the
//! expected output for the file `stdin`. `tools/compare-adapters` runs the program too.

#![tactic(auto)]

mod adapters;
mod hybrid_login;
mod introspection_cache;
mod key_source;
mod replies;
mod signature_keys;
mod verified_login;

use adapters::Adapters;
use hybrid_login::Tokens;
use introspection_cache::{CacheCalls, resource_server};
use key_source::Sources;
use oauth2_introspection_cache::ResourceServerClient;
use std::alloc::Global;
use std::io::{self, BufRead, BufReader, Write};
use verified_login::Logins;

// What the rows of each module have set.
struct Modules<'a> {
    key_source: Sources,
    verified_login: Logins,
    hybrid_login: Tokens,
    introspection_cache: CacheCalls<'a>,
    adapters: Adapters,
}

impl Drop for Modules<'_> {
    fn drop(self) {
        let Modules {
            key_source: _,
            verified_login: _,
            hybrid_login: _,
            introspection_cache: _,
            adapters: _,
        } = self;
    }
}

impl<'a> Modules<'a> {
    fn new(alloc: Global, client: &'a ResourceServerClient) -> anyhow::Result<Modules<'a>> {
        let verified_login = Logins::new(alloc)?;
        let hybrid_login = Tokens::new(alloc)?;
        let introspection_cache = CacheCalls::new(alloc, client)?;
        Ok(Modules {
            key_source: Sources::new(),
            verified_login,
            hybrid_login,
            introspection_cache,
            adapters: Adapters::new(alloc),
        })
    }

    fn run_line<W: Write>(
        &mut self,
        alloc: Global,
        line: &str,
        writer: &mut W,
    ) -> anyhow::Result<()> {
        let (module, row) = line.split_once(' ').unwrap_or((line, ""));
        if row.starts_with('#') {
            writeln!(writer, "{row}")?;
            return Ok(());
        }
        match module {
            "key_source" => self.key_source.run_row(alloc, row, writer),
            "verified_login" => self.verified_login.run_row(alloc, row, writer),
            "hybrid_login" => self.hybrid_login.run_row(alloc, row, writer),
            "introspection_cache" => self.introspection_cache.run_row(alloc, row, writer),
            "adapters" => self.adapters.run_row(alloc, row, writer),
            _ => {
                writeln!(writer, "?")?;
                Ok(())
            }
        }
    }
}

// Runs the lines of standard input.
fn run_lines(rt: &HostRuntime, modules: &mut Modules<'_>) -> anyhow::Result<()> {
    let mut writer = io::writer(rt);
    for line in BufReader::new(rt.alloc(), rt.reader())?.lines(rt.alloc()) {
        let line = line?;
        modules.run_line(rt.alloc(), &line, &mut writer)?;
    }
    Ok(())
}

fn main(rt: HostRuntime) -> anyhow::Result<()> {
    let client = resource_server(rt.alloc())?;
    let mut modules = Modules::new(rt.alloc(), &client)?;
    run_lines(&rt, &mut modules)
}
