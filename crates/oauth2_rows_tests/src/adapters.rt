//! The rows `adapters`.
//!
//! A row `adapter NAME WORD..` sets the adapter and its arguments, and a row `type TEXT` sets a
//! Content-Type. A row `text STATUS BODY` adapts a reply with that Content-Type, and prints the
//! adapted reply. A row `octets STATUS TYPES BODY` does so for any octets. They are written in hex,
//! with commas between the Content-Types, which are `-` if there is none. A row
//! `retry METHOD MOST FIRST MOST-WAIT ANSWERS` sends a request again, at most MOST times after the
//! first, with waits in milliseconds. The answers, with `|` between them, are `lost`, `unsent`, or
//! a status with or without a Retry-After.

mod retries;

use crate::replies::{add_field, reply_of};
use http::Request;
use http_header::{CONTENT_TYPE, HeaderMap};
use oauth2_adapters::{
    AdaptedClient, CommasInScopes, ErrorsAtStatus200, FormBodies, NumbersAsTexts, OtherMediaTypes,
    ReplyAdapter,
};
use oauth2_tests_support::OneReply;
use oauth2_wire::{AlwaysReady, HttpResponse};
use retries::write_retried;
use std::alloc::Global;
use std::io::{self, Write};

fn answered<C: AlwaysReady + Drop>(alloc: Global, mut client: C) -> Option<HttpResponse> {
    client.call(Request::new(alloc, Vec::new(alloc))).ok()
}

fn adapted<A: ReplyAdapter + Drop>(
    alloc: Global,
    adapter: A,
    reply: HttpResponse,
) -> Option<HttpResponse> {
    answered(
        alloc,
        AdaptedClient::new(alloc, OneReply::new(reply), adapter),
    )
}

// The reply after two adapters, one after the other, have changed it.
fn adapted_twice(alloc: Global, types: &[&str], reply: HttpResponse) -> Option<HttpResponse> {
    let typed = AdaptedClient::new(alloc, OneReply::new(reply), OtherMediaTypes::new(types));
    answered(alloc, AdaptedClient::new(alloc, typed, ErrorsAtStatus200))
}

// The reply after the adapter with this name has changed it.
fn adapted_by(
    alloc: Global,
    name: &str,
    listed: &[&str],
    reply: HttpResponse,
) -> Option<HttpResponse> {
    match name {
        "errors_at_200" => adapted(alloc, ErrorsAtStatus200, reply),
        "form_bodies" => adapted(alloc, FormBodies, reply),
        "commas_in_scopes" => adapted(alloc, CommasInScopes, reply),
        "numbers_as_texts" => adapted(alloc, NumbersAsTexts::new(listed), reply),
        "other_media_types" => adapted(alloc, OtherMediaTypes::new(listed), reply),
        "other_media_types_and_errors_at_200" => adapted_twice(alloc, listed, reply),
        _ => None,
    }
}

// The reply after the adapter of a row `adapter` has changed it.
fn adapted_row(
    alloc: Global,
    adapter: &str,
    reply: HttpResponse,
) -> io::Result<Option<HttpResponse>> {
    let mut words = adapter.split(' ');
    let name = words.next().unwrap_or("");
    let mut listed = Vec::new(alloc);
    for word in words {
        listed.push(word)?;
    }
    Ok(adapted_by(alloc, name, listed.as_slice(), reply))
}

fn write_text_of<W: Write>(reply: &HttpResponse, writer: &mut W) -> io::Result<()> {
    let media_type = match reply.headers().get(CONTENT_TYPE) {
        Some(value) => value.to_str().unwrap_or("?"),
        None => "-",
    };
    writeln!(
        writer,
        "{} {media_type}: {}",
        reply.status().as_u16(),
        std::str::from_utf8(reply.body().as_slice()).unwrap_or("?"),
    )
}

// The values of Content-Type in hex, with commas between them.
fn shown_types(alloc: Global, headers: &HeaderMap) -> io::Result<String> {
    let mut shown = String::new(alloc);
    let mut is_first = true;
    for value in headers.get_all(CONTENT_TYPE) {
        if !is_first {
            shown.push(',')?;
        }
        is_first = false;
        shown.push_str(hex::encode(alloc, value.as_bytes())?.as_str())?;
    }
    if is_first {
        shown.push('-')?;
    }
    Ok(shown)
}

fn write_octets_of<W: Write>(
    alloc: Global,
    reply: &HttpResponse,
    writer: &mut W,
) -> io::Result<()> {
    let types = shown_types(alloc, reply.headers())?;
    let body = hex::encode(alloc, reply.body().as_slice())?;
    writeln!(writer, "{} {types} {body}", reply.status().as_u16())
}

// The reply of a row `text`, before an adapter changes it; `None` if the row has none.
fn text_reply(alloc: Global, media_type: &str, words: &str) -> io::Result<Option<HttpResponse>> {
    let (status, text) = words.split_once(' ').unwrap_or((words, ""));
    let mut headers = HeaderMap::new(alloc);
    if !add_field(alloc, &mut headers, CONTENT_TYPE, media_type.as_bytes()) {
        return Ok(None);
    }
    Ok(reply_of(
        alloc,
        status,
        headers,
        Vec::from_slice(alloc, text.as_bytes())?,
    ))
}

// Reads values of Content-Type from hex with commas between them.
fn types_of(alloc: Global, words: &str) -> Option<HeaderMap> {
    let mut headers = HeaderMap::new(alloc);
    if words == "-" {
        return Some(headers);
    }
    for word in words.split(',') {
        let Ok(octets) = hex::decode(alloc, word) else {
            return None;
        };
        if !add_field(alloc, &mut headers, CONTENT_TYPE, octets.as_slice()) {
            return None;
        }
    }
    Some(headers)
}

// The reply of a row `octets`, before an adapter changes it; `None` if the row has none.
fn octets_reply(alloc: Global, words: &str) -> Option<HttpResponse> {
    let (status, rest) = words.split_once(' ')?;
    let (types, body) = rest.split_once(' ')?;
    let headers = types_of(alloc, types)?;
    match hex::decode(alloc, body) {
        Ok(body) => reply_of(alloc, status, headers, body),
        Err(_) => None,
    }
}

fn write_text<W: Write>(
    alloc: Global,
    adapter: &str,
    media_type: &str,
    words: &str,
    writer: &mut W,
) -> io::Result<()> {
    let Some(reply) = text_reply(alloc, media_type, words)? else {
        return writeln!(writer, "?");
    };
    match adapted_row(alloc, adapter, reply)? {
        Some(reply) => write_text_of(&reply, writer),
        None => writeln!(writer, "?"),
    }
}

fn write_octets<W: Write>(
    alloc: Global,
    adapter: &str,
    words: &str,
    writer: &mut W,
) -> io::Result<()> {
    let Some(reply) = octets_reply(alloc, words) else {
        return writeln!(writer, "?");
    };
    match adapted_row(alloc, adapter, reply)? {
        Some(reply) => write_octets_of(alloc, &reply, writer),
        None => writeln!(writer, "?"),
    }
}

/// The adapter and the Content-Type of the rows that follow.
pub struct Adapters {
    adapter: String,
    media_type: String,
}

impl Drop for Adapters {
    fn drop(self) {
        let Adapters {
            adapter: _,
            media_type: _,
        } = self;
    }
}

impl Adapters {
    /// No adapter, and an empty Content-Type.
    pub fn new(alloc: Global) -> Adapters {
        Adapters {
            adapter: String::new(alloc),
            media_type: String::new(alloc),
        }
    }

    /// Does what a row says.
    pub fn run_row<W: Write>(
        &mut self,
        alloc: Global,
        row: &str,
        writer: &mut W,
    ) -> anyhow::Result<()> {
        if let Some(words) = row.strip_prefix("adapter ") {
            self.adapter = String::from_str(alloc, words)?;
        } else if let Some(text) = row.strip_prefix("type ") {
            self.media_type = String::from_str(alloc, text)?;
        } else if let Some(words) = row.strip_prefix("text ") {
            write_text(alloc, &self.adapter, &self.media_type, words, writer)?;
        } else if let Some(words) = row.strip_prefix("octets ") {
            write_octets(alloc, &self.adapter, words, writer)?;
        } else if let Some(words) = row.strip_prefix("retry ") {
            write_retried(alloc, words, writer)?;
        } else {
            writeln!(writer, "?")?;
        }
        Ok(())
    }
}
