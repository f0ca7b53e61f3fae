//! The rows `key_source`.
//!
//! A row `source LIFETIME WAIT URL` makes a source, with its times in seconds, and a row `old` lets
//! it hand out old keys. A row `reply STATUS TYPE BODY` sets the reply to the next request, with
//! that Content-Type unless it is `-`; until another one is set, a second request fails. A row
//! `keys MOMENT`, `for MOMENT KID` or `verify MOMENT TOKEN` is a call at that second since 1970 (a
//! token has to have the algorithm RS256). It prints the names of the keys or the error, and then how
//! many requests were sent so far. A row `request` prints the last request, and a row `kept` the
//! names of the keys that are kept.

mod canned;

use canned::Canned;
use http_header::ACCEPT;
use jiff::Timestamp;
use oauth2_key_source::{KeySetRequest, KeySource, KeySourceError, VerifyError};
use oauth2_keys::{JsonWebKeySet, ListedKey, SignatureAlgorithm};
use oauth2_openid::IdToken;
use oauth2_tests_support::NoReply;
use oauth2_wire::HttpRequest;
use std::alloc::Global;
use std::io::{self, Write};
use std::time::Duration;

// Why a row has no source, or the source.
enum Made {
    Source(KeySource),
    Refused(oauth2_key_source::KeySetUrlError),
    NoSource,
}

fn made_source(alloc: Global, text: &str) -> Made {
    let mut words = text.split(' ');
    let Ok(lifetime) = words.next().unwrap_or("").parse::<u32>() else {
        return Made::NoSource;
    };
    let Ok(wait) = words.next().unwrap_or("").parse::<u32>() else {
        return Made::NoSource;
    };
    match KeySetRequest::new(alloc, words.next().unwrap_or("")) {
        Ok(request) => Made::Source(KeySource::new(
            request,
            Duration::from_secs(u64::from(lifetime)),
            Duration::from_secs(u64::from(wait)),
        )),
        Err(error) => Made::Refused(error),
    }
}

fn read_moment(text: &str) -> Option<Timestamp> {
    Timestamp::from_second(text.parse::<i64>().ok()?).ok()
}

// The name of a call, its moment if it has one, and what is behind it.
fn words_of(row: &str) -> (&str, Option<Timestamp>, &str) {
    let mut words = row.split(' ');
    let name = words.next().unwrap_or("");
    let moment = read_moment(words.next().unwrap_or(""));
    (name, moment, words.next().unwrap_or(""))
}

fn name_of(key: &ListedKey) -> &str {
    let name = match key {
        ListedKey::Usable(key) => key.key_id(),
        ListedKey::Unusable(key) => key.key_id(),
    };
    name.unwrap_or("?")
}

fn write_keys<W: Write>(keys: &JsonWebKeySet, writer: &mut W) -> io::Result<()> {
    write!(writer, "keys:")?;
    for key in keys.keys() {
        write!(writer, " {}", name_of(key))?;
    }
    Ok(())
}

fn write_source_error<W: Write>(error: &KeySourceError<NoReply>, writer: &mut W) -> io::Result<()> {
    match error {
        KeySourceError::Waits(Some(until)) => {
            write!(writer, "{error}, before {}", until.as_second())
        }
        _ => write!(writer, "{error}"),
    }
}

fn write_answer<W: Write>(
    answer: Result<&JsonWebKeySet, KeySourceError<NoReply>>,
    writer: &mut W,
) -> io::Result<()> {
    match answer {
        Ok(keys) => write_keys(keys, writer),
        Err(error) => write_source_error(&error, writer),
    }
}

fn write_verified<W: Write>(
    verified: Result<(), VerifyError<NoReply>>,
    writer: &mut W,
) -> io::Result<()> {
    match verified {
        Ok(()) => write!(writer, "verified"),
        Err(VerifyError::Keys(error)) => write_source_error(&error, writer),
        Err(error) => write!(writer, "{error}"),
    }
}

fn write_request<W: Write>(request: &HttpRequest, writer: &mut W) -> io::Result<()> {
    let accept = match request.headers().get(ACCEPT) {
        Some(value) => value.to_str().unwrap_or("?"),
        None => "-",
    };
    writeln!(
        writer,
        "{} {} accept {accept}",
        request.method(),
        request.uri()
    )
}

/// The calls of a run.
pub struct Sources {
    client: Canned,
    source: Option<KeySource>,
}

impl Drop for Sources {
    fn drop(self) {
        let Sources {
            client: _,
            source: _,
        } = self;
    }
}

impl Sources {
    /// No source yet.
    pub fn new() -> Sources {
        Sources {
            client: Canned::new(),
            source: None,
        }
    }

    /// Does what a row says.
    pub fn run_row<W: Write>(
        &mut self,
        alloc: Global,
        row: &str,
        writer: &mut W,
    ) -> anyhow::Result<()> {
        if let Some(text) = row.strip_prefix("source ") {
            self.make(alloc, text, writer)?;
        } else if let Some(text) = row.strip_prefix("reply ") {
            self.set_reply(alloc, text, writer)?;
        } else {
            self.call_row(alloc, row, writer)?;
        }
        Ok(())
    }

    fn make<W: Write>(&mut self, alloc: Global, text: &str, writer: &mut W) -> io::Result<()> {
        match made_source(alloc, text) {
            Made::Source(source) => {
                self.source = Some(source);
                Ok(())
            }
            Made::Refused(error) => writeln!(writer, "{error}"),
            Made::NoSource => writeln!(writer, "?"),
        }
    }

    fn set_reply<W: Write>(&mut self, alloc: Global, text: &str, writer: &mut W) -> io::Result<()> {
        let mut words = text.splitn(3, ' ');
        let status = words.next().unwrap_or("");
        let media_type = words.next().unwrap_or("-");
        let body = words.next().unwrap_or("");
        if self.client.set_reply(alloc, status, media_type, body) {
            Ok(())
        } else {
            writeln!(writer, "?")
        }
    }

    fn call_row<W: Write>(&mut self, alloc: Global, row: &str, writer: &mut W) -> io::Result<()> {
        let Some(mut source) = self.source.take() else {
            return writeln!(writer, "?");
        };
        let written = self.call(alloc, &mut source, row, writer);
        self.source = Some(if row == "old" {
            source.use_old_keys()
        } else {
            source
        });
        written
    }

    fn call<W: Write>(
        &mut self,
        alloc: Global,
        source: &mut KeySource,
        row: &str,
        writer: &mut W,
    ) -> io::Result<()> {
        let (command, moment, text) = words_of(row);
        match (command, moment) {
            ("keys", Some(now)) => {
                write_answer(source.keys(alloc, now, &mut self.client), writer)?;
            }
            ("for", Some(now)) => {
                write_answer(source.keys_for(alloc, text, now, &mut self.client), writer)?;
            }
            ("verify", Some(now)) => self.verify(alloc, source, now, text, writer)?,
            ("kept", None) => match source.kept_keys() {
                Some(keys) => write_keys(keys, writer)?,
                None => write!(writer, "none")?,
            },
            ("request", None) => return self.show_request(writer),
            ("old", None) => return Ok(()),
            _ => return writeln!(writer, "?"),
        }
        writeln!(writer, "; sent {}", self.client.sent)
    }

    fn verify<W: Write>(
        &mut self,
        alloc: Global,
        source: &mut KeySource,
        now: Timestamp,
        text: &str,
        writer: &mut W,
    ) -> io::Result<()> {
        let Ok(token) = IdToken::from_text(alloc, text) else {
            return write!(writer, "no token");
        };
        let algorithm = SignatureAlgorithm::Rs256;
        let verified = source.verify(alloc, &token, algorithm, now, &mut self.client);
        write_verified(verified, writer)
    }

    fn show_request<W: Write>(&self, writer: &mut W) -> io::Result<()> {
        match &self.client.request {
            Some(request) => write_request(request, writer),
            None => writeln!(writer, "none"),
        }
    }
}
