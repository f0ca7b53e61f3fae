//! The rows `introspection_cache`.
//!
//! A row `cache MOST LONGEST` makes a cache for so many answers, none of which is used that is so
//! many seconds old. A row `ask MOMENT TOKEN STATUS BODY` is a call at that second since 1970, with
//! the reply to its request if it makes one. It prints the answer or the error, and how many requests
//! the call made. A row `body MOMENT TOKEN` does the same without a reply, and prints the body of the
//! request. A row `accept AUDIENCE ISSUER TYPE SCOPES` says what the server accepts and which scopes,
//! between commas, a request needs; `-` for an audience, an issuer or scopes is none. A row
//! `authorize MOMENT TOKEN STATUS BODY` prints what is decided then. A row `forget TOKEN` forgets a
//! token, and a row `kept TOKEN` prints the answer that is kept, good or not. Both print then how
//! many answers are kept.

mod policy;

use crate::replies::reply_of;
use anyhow::anyhow;
use http_header::HeaderMap;
use jiff::Timestamp;
use oauth2::basic::BasicErrorResponse;
use oauth2::{AccessToken, Client, ClientId, IntrospectionUrl, TokenIntrospectionResponse};
use oauth2_introspection_cache::{
    BasicIntrospectionCache, ConfirmedIntrospectionResponse, NotAuthorized, ResourceServerClient,
};
use oauth2_tests_support::{NoReply, OneReply};
use policy::Policy;
use std::alloc::Global;
use std::io::Write;
use std::num::NonZeroUsize;
use std::time::Duration;

/// The client of a resource server.
pub fn resource_server(alloc: Global) -> anyhow::Result<ResourceServerClient> {
    let url = IntrospectionUrl::parse(alloc, "https://as.example/introspect")?;
    Ok(Client::new(ClientId::from_str(alloc, "rs")?).set_introspection_url(url))
}

// A cache as a row describes it.
fn made_cache<'a>(
    alloc: Global,
    client: &'a ResourceServerClient,
    words: &str,
) -> anyhow::Result<BasicIntrospectionCache<'a>> {
    let mut words = words.split(' ');
    let most = words.next().unwrap_or("").parse::<u32>()?;
    let longest = words.next().unwrap_or("").parse::<u32>()?;
    let most = NonZeroUsize::new(most as usize).unwrap_or(NonZeroUsize::MIN);
    let longest = Duration::from_secs(u64::from(longest));
    Ok(BasicIntrospectionCache::new(alloc, client, most, longest)?)
}

fn read_moment(text: &str) -> anyhow::Result<Timestamp> {
    Ok(Timestamp::from_second(text.parse::<i64>()?)?)
}

fn write_answer<W: Write>(
    answer: &ConfirmedIntrospectionResponse,
    writer: &mut W,
) -> anyhow::Result<()> {
    let user = answer.sub().unwrap_or("-");
    write!(writer, "active, user {user}")?;
    Ok(())
}

// A call, and how many requests it made.
fn ask<W: Write>(
    alloc: Global,
    cache: &mut BasicIntrospectionCache<'_>,
    token: &AccessToken,
    now: Timestamp,
    http_client: &mut OneReply,
    writer: &mut W,
) -> anyhow::Result<()> {
    match cache.introspect(alloc, token, now, http_client) {
        Ok(Some(answer)) => write_answer(answer, writer)?,
        Ok(None) => write!(writer, "not active")?,
        Err(error) => write!(writer, "{error}")?,
    }
    let sent = http_client.calls;
    writeln!(writer, "; sent {sent}")?;
    Ok(())
}

fn write_decision<W: Write>(
    decision: &Result<(), NotAuthorized<NoReply, BasicErrorResponse>>,
    writer: &mut W,
) -> anyhow::Result<()> {
    match decision {
        Ok(()) => write!(writer, "authorized")?,
        Err(NotAuthorized::Refused(refusal)) => {
            let (status, challenge) = (refusal.status(), refusal.challenge());
            write!(writer, "{status}, {challenge}: {refusal}")?;
        }
        Err(NotAuthorized::Unknown(error)) => write!(writer, "unknown: {error}")?,
    }
    Ok(())
}

fn show_kept<W: Write>(
    cache: &BasicIntrospectionCache<'_>,
    token: &AccessToken,
    writer: &mut W,
) -> anyhow::Result<()> {
    match cache.kept_answer(token) {
        Some(answer) => write_answer(answer, writer)?,
        None => write!(writer, "nothing")?,
    }
    let count = cache.len();
    writeln!(writer, "; kept {count}")?;
    Ok(())
}

fn made_client(alloc: Global, status: &str, body: &str) -> anyhow::Result<OneReply> {
    let body = String::from_str(alloc, body)?;
    match reply_of(alloc, status, HeaderMap::new(alloc), body.into_bytes()) {
        Some(reply) => Ok(OneReply::new(reply)),
        None => Err(anyhow!("a row has no status for its reply")),
    }
}

// The words of a row behind its first one; each is empty if it is missing.
#[derive(Clone, Copy)]
struct Words<'l> {
    first: &'l str,
    second: &'l str,
    status: &'l str,
    body: &'l str,
}

fn run_ask<W: Write>(
    alloc: Global,
    cache: &mut BasicIntrospectionCache<'_>,
    words: Words<'_>,
    writer: &mut W,
) -> anyhow::Result<()> {
    let now = read_moment(words.first)?;
    let token = AccessToken::from_str(alloc, words.second)?;
    let mut http_client = made_client(alloc, words.status, words.body)?;
    ask(alloc, cache, &token, now, &mut http_client, writer)
}

fn run_authorize<W: Write>(
    alloc: Global,
    cache: &mut BasicIntrospectionCache<'_>,
    policy: &Policy,
    words: Words<'_>,
    writer: &mut W,
) -> anyhow::Result<()> {
    let now = read_moment(words.first)?;
    let token = AccessToken::from_str(alloc, words.second)?;
    let needed = policy.needed(alloc)?;
    let mut http_client = made_client(alloc, words.status, words.body)?;
    let decision = cache.authorize(
        alloc,
        &token,
        &policy.accepted,
        needed.as_slice(),
        now,
        &mut http_client,
    );
    write_decision(&decision, writer)?;
    let sent = http_client.calls;
    writeln!(writer, "; sent {sent}")?;
    Ok(())
}

fn run_body<W: Write>(
    alloc: Global,
    cache: &mut BasicIntrospectionCache<'_>,
    words: Words<'_>,
    writer: &mut W,
) -> anyhow::Result<()> {
    let now = read_moment(words.first)?;
    let token = AccessToken::from_str(alloc, words.second)?;
    let mut http_client = made_client(alloc, "500", "")?;
    ask(alloc, cache, &token, now, &mut http_client, writer)?;
    write_body(alloc, &http_client, writer)
}

fn write_body<W: Write>(
    alloc: Global,
    http_client: &OneReply,
    writer: &mut W,
) -> anyhow::Result<()> {
    let sent = String::from_utf8_lossy(alloc, http_client.sent())?;
    writeln!(writer, "{sent}")?;
    Ok(())
}

fn run_kept<W: Write>(
    alloc: Global,
    cache: &mut BasicIntrospectionCache<'_>,
    token: &str,
    forgets: bool,
    writer: &mut W,
) -> anyhow::Result<()> {
    let token = AccessToken::from_str(alloc, token)?;
    if forgets {
        cache.forget(&token);
    }
    show_kept(cache, &token, writer)
}

fn say_unknown<W: Write>(writer: &mut W) -> anyhow::Result<()> {
    writeln!(writer, "?")?;
    Ok(())
}

fn run_call<W: Write>(
    alloc: Global,
    cache: &mut BasicIntrospectionCache<'_>,
    policy: &Policy,
    row: &str,
    writer: &mut W,
) -> anyhow::Result<()> {
    let mut rest = row.splitn(5, ' ');
    let command = rest.next().unwrap_or("");
    let words = Words {
        first: rest.next().unwrap_or(""),
        second: rest.next().unwrap_or(""),
        status: rest.next().unwrap_or(""),
        body: rest.next().unwrap_or(""),
    };
    match command {
        "ask" => run_ask(alloc, cache, words, writer),
        "authorize" => run_authorize(alloc, cache, policy, words, writer),
        "body" => run_body(alloc, cache, words, writer),
        "forget" => run_kept(alloc, cache, words.first, true, writer),
        "kept" => run_kept(alloc, cache, words.first, false, writer),
        _ => say_unknown(writer),
    }
}

/// The cache of a run, and what its server accepts.
pub struct CacheCalls<'a> {
    client: &'a ResourceServerClient,
    cache: BasicIntrospectionCache<'a>,
    policy: Policy,
}

impl Drop for CacheCalls<'_> {
    fn drop(self) {
        let CacheCalls {
            client: _,
            cache: _,
            policy: _,
        } = self;
    }
}

impl<'a> CacheCalls<'a> {
    /// A cache for one answer, which is never used again.
    pub fn new(alloc: Global, client: &'a ResourceServerClient) -> anyhow::Result<CacheCalls<'a>> {
        let cache = made_cache(alloc, client, "1 0")?;
        let policy = Policy::of_words(alloc, "- - bearer -")?;
        Ok(CacheCalls {
            client,
            cache,
            policy,
        })
    }

    /// Does what a row says.
    pub fn run_row<W: Write>(
        &mut self,
        alloc: Global,
        row: &str,
        writer: &mut W,
    ) -> anyhow::Result<()> {
        if let Some(sizes) = row.strip_prefix("cache ") {
            self.cache = made_cache(alloc, self.client, sizes)?;
        } else if let Some(accepted) = row.strip_prefix("accept ") {
            self.policy = Policy::of_words(alloc, accepted)?;
        } else {
            run_call(alloc, &mut self.cache, &self.policy, row, writer)?;
        }
        Ok(())
    }
}
