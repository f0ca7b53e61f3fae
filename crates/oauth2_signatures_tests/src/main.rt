//! Checks the signatures and tokens that standard input lists, and prints the result of each row.
//!
//! The first word of a line says which module judges the rest of it, the row. `rsa`, `ecdsa` and
//! `eddsa` check signatures by a public key, and `hmac` makes and checks codes. `keys` reads key
//! sets, and checks ID tokens by them. `access_token` and `logout_token` check such tokens. The
//! modules say which rows they have. What a row sets, such as a key, holds for the later rows of its
//! module. A row that begins with `#` is a heading, and is printed as it is. For a row that is none
//! of these, `?` is printed. The file `stdout` has the expected output for the file `stdin`.
//! `tools/compare-signatures` runs the program too.

#![tactic(auto)]

mod access_token;
mod ecdsa;
mod eddsa;
mod hmac;
mod keys;
mod logout_token;
mod rows;
mod rsa;
mod signature_checks;

use access_token::ResourceServer;
use ecdsa_signatures::EcdsaPublicKey;
use eddsa_signatures::EddsaPublicKey;
use hmac::HmacCodes;
use keys::KeySets;
use logout_token::Client;
use rsa_signatures::RsaPublicKey;
use signature_checks::SignatureChecks;
use std::alloc::Global;
use std::io::{self, BufRead, BufReader, Write};

// What the rows of each module have set.
struct Modules {
    rsa: SignatureChecks<RsaPublicKey>,
    ecdsa: SignatureChecks<EcdsaPublicKey>,
    eddsa: SignatureChecks<EddsaPublicKey>,
    hmac: HmacCodes,
    keys: KeySets,
    access_token: ResourceServer,
    logout_token: Client,
}

impl Drop for Modules {
    fn drop(self) {
        let Modules {
            rsa: _,
            ecdsa: _,
            eddsa: _,
            hmac: _,
            keys: _,
            access_token: _,
            logout_token: _,
        } = self;
    }
}

impl Modules {
    fn new(alloc: Global) -> io::Result<Option<Modules>> {
        let Some(access_token) = ResourceServer::new(alloc)? else {
            return Ok(None);
        };
        let Some(logout_token) = Client::new(alloc)? else {
            return Ok(None);
        };
        Ok(Some(Modules {
            rsa: SignatureChecks::new(),
            ecdsa: SignatureChecks::new(),
            eddsa: SignatureChecks::new(),
            hmac: HmacCodes::new(),
            keys: KeySets::new(),
            access_token,
            logout_token,
        }))
    }

    fn run_line<W: Write>(&mut self, alloc: Global, line: &str, writer: &mut W) -> io::Result<()> {
        let (module, row) = line.split_once(' ').unwrap_or((line, ""));
        if row.starts_with('#') {
            return writeln!(writer, "{row}");
        }
        match module {
            "rsa" => self.rsa.run_row(alloc, row, writer),
            "ecdsa" => self.ecdsa.run_row(alloc, row, writer),
            "eddsa" => self.eddsa.run_row(alloc, row, writer),
            "hmac" => self.hmac.run_row(alloc, row, writer),
            "keys" => self.keys.run_row(alloc, row, writer),
            "access_token" => self.access_token.run_row(alloc, row, writer),
            "logout_token" => self.logout_token.run_row(alloc, row, writer),
            _ => writeln!(writer, "?"),
        }
    }
}

// Runs the lines of standard input.
fn run_lines(rt: &HostRuntime, modules: &mut Modules) -> io::Result<()> {
    let mut writer = io::writer(rt);
    for line in BufReader::new(rt.alloc(), rt.reader())?.lines(rt.alloc()) {
        let line = line?;
        modules.run_line(rt.alloc(), &line, &mut writer)?;
    }
    Ok(())
}

fn main(rt: HostRuntime) -> io::Result<()> {
    match Modules::new(rt.alloc())? {
        Some(mut modules) => run_lines(&rt, &mut modules),
        None => rt.println("?"),
    }
}
