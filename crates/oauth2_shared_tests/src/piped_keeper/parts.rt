//! A store, a server and a world that ask by a line and read a line for an answer.

use crate::piped_keeper::contents::{content_text, read_value};
use crate::piped_keeper::text_token::TextToken;
use jiff::Timestamp;
use oauth2_shared_keeper::{
    Content, KeeperWorld, RefreshClient, Replaced, StoredValue, TokenStore,
};
use std::time::Duration;

/// No answer that says anything.
#[derive(Clone, Copy, Debug)]
pub struct Silence;

// Prints a line, and reads one.
fn ask(rt: &HostRuntime, request: &str) -> Option<String> {
    rt.println(request).ok()?;
    let mut answer = String::new(rt.alloc());
    rt.read_line(&mut answer).ok()?;
    Some(answer)
}

/// The store of the other side.
#[derive(Clone, Copy)]
pub struct PipeStore<'r> {
    pub rt: &'r HostRuntime,
}

impl<'r> PipeStore<'r> {
    fn loaded(&self, name: &str) -> Option<StoredValue<TextToken>> {
        let alloc = self.rt.alloc();
        let request = format!(in alloc; "load {name}").ok()?;
        let answer = ask(self.rt, request.as_str())?;
        read_value(alloc, answer.as_str())
    }

    fn replaced(&self, name: &str, version: u64, content: &Content<TextToken>) -> Option<Replaced> {
        let alloc = self.rt.alloc();
        let text = content_text(alloc, content)?;
        let request = format!(in alloc; "replace {name} {version} {text}").ok()?;
        let answer = ask(self.rt, request.as_str())?;
        match answer.as_str().trim() {
            "done" => Some(Replaced::Done),
            "refused" => Some(Replaced::Refused),
            _ => None,
        }
    }
}

impl<'r> TokenStore<TextToken> for PipeStore<'r> {
    type Error = Silence;

    fn load(&mut self, name: &str) -> Result<StoredValue<TextToken>, Silence> {
        self.loaded(name).ok_or(Silence)
    }

    fn replace_if(
        &mut self,
        name: &str,
        version: u64,
        content: &Content<TextToken>,
    ) -> Result<Replaced, Silence> {
        self.replaced(name, version, content).ok_or(Silence)
    }
}

/// The server of the other side.
#[derive(Clone, Copy)]
pub struct PipeServer<'r> {
    pub rt: &'r HostRuntime,
}

impl<'r> PipeServer<'r> {
    fn refreshed(&self, token: &TextToken) -> Option<TextToken> {
        let alloc = self.rt.alloc();
        let request = format!(in alloc; "refresh {}:{}", token.until, token.text).ok()?;
        let answer = ask(self.rt, request.as_str())?;
        let mut words = answer.as_str().split_whitespace();
        if words.next()? != "new" {
            return None;
        }
        TextToken::read(alloc, words.next()?)
    }
}

impl<'r> RefreshClient<TextToken> for PipeServer<'r> {
    type Error = Silence;

    fn refresh(&mut self, token: &TextToken) -> Result<TextToken, Silence> {
        self.refreshed(token).ok_or(Silence)
    }
}

/// The clock, the sleep and the random names of the other side.
#[derive(Clone, Copy)]
pub struct PipeWorld<'r> {
    pub rt: &'r HostRuntime,
}

impl<'r> PipeWorld<'r> {
    fn millisecond(&self) -> Option<Timestamp> {
        let answer = ask(self.rt, "now")?;
        Timestamp::from_millisecond(answer.as_str().trim().parse::<i64>().ok()?).ok()
    }

    fn slept(&self, duration: Duration) -> Option<()> {
        let request = format!(in self.rt.alloc(); "sleep {}", duration.as_millis()).ok()?;
        ask(self.rt, request.as_str())?;
        Some(())
    }

    fn drawn(&self) -> Option<u128> {
        ask(self.rt, "draw")?.as_str().trim().parse::<u128>().ok()
    }
}

impl<'r> KeeperWorld for PipeWorld<'r> {
    fn now(&mut self) -> Timestamp {
        self.millisecond().unwrap_or(Timestamp::UNIX_EPOCH)
    }

    fn sleep(&mut self, duration: Duration) {
        let _ = self.slept(duration);
    }

    fn draw(&mut self) -> u128 {
        self.drawn().unwrap_or(0)
    }
}
