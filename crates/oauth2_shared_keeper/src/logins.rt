//! Logins and logouts of a caller, over a token that many processes share.

ghost use Rattle.std.specs.Prelude.{◌≡◌};
ghost use Rattle.oauth2_shared_keeper.specs.Logins.{DropsAt, LogsIn, LogsOut, PutsAt};

use crate::calls::load;
use crate::logged_in::{LoggedIn, LoggedOut};
use crate::marking::into_token;
use crate::replaced::Replaced;
use crate::shared_keeper::SharedKeeper;
use crate::store::TokenStore;
use oauth2_shared_token::{Content, StoredValue};

impl<S, C> SharedKeeper<S, C> {
    /// Puts the token of a new login in the place of whatever the store has under this name. If
    /// somebody else is first, it looks again, at most as often as a renewal loads.
    pub fn log_in<T: Drop>(&mut self, name: &str, token: T) -> LoggedIn<T>
    where
        S: TokenStore<T>,
        requires { S.is_ready self.old.store }
        ensures login { LogsIn S.loads S.replaces name.now self.old.settings.limits.loads token
            self.old.store result self.new.store }
        ensures client { self.new.client ≡ self.old.client }
        ensures settings { self.new.settings ≡ self.old.settings }
        ensures ready { S.is_ready self.new.store }
    {
        log_in(&mut self.store, name, token, self.settings.limits.loads)
    }

    /// Answers for a mark: puts this token in the place of the version that the mark has, once.
    /// The token is that of a new login, or the old one, which may then be used again.
    pub fn answer<T: Drop>(&mut self, name: &str, version: u64, token: T) -> LoggedIn<T>
    where
        S: TokenStore<T>,
        requires { S.is_ready self.old.store }
        ensures answer { PutsAt S.replaces name.now version token
            self.old.store result self.new.store }
        ensures client { self.new.client ≡ self.old.client }
        ensures settings { self.new.settings ≡ self.old.settings }
        ensures ready { S.is_ready self.new.store }
    {
        put(&mut self.store, name, version, token)
    }

    /// Drops whatever the store has under this name, and hands it out. If somebody else is first,
    /// it looks again, at most as often as a renewal loads.
    pub fn log_out<T: Drop>(&mut self, name: &str) -> LoggedOut<T>
    where
        S: TokenStore<T>,
        requires { S.is_ready self.old.store }
        ensures logout { LogsOut S.loads S.replaces name.now self.old.settings.limits.loads
            self.old.store result self.new.store }
        ensures client { self.new.client ≡ self.old.client }
        ensures settings { self.new.settings ≡ self.old.settings }
        ensures ready { S.is_ready self.new.store }
    {
        log_out(&mut self.store, name, self.settings.limits.loads)
    }
}

// Puts a token in the place of this version, in one try.
fn put<T: Drop, S: TokenStore<T>>(store: &mut S, name: &str, version: u64, token: T) -> LoggedIn<T>
    requires { S.is_ready store.old }
    ensures puts { PutsAt S.replaces name.now version token store.old result store.new }
    ensures ready { S.is_ready store.new }
{
    if version == u64::MAX {
        return LoggedIn::NoNextVersion(token);
    }
    let content = Content::AtRest(token);
    match store.replace_if(name, version, &content) {
        Ok(Replaced::Done) => LoggedIn::Done,
        Ok(Replaced::Refused) => {
            let refused = into_token(content);
            LoggedIn::Refused(refused)
        }
        Err(_) => {
            let token = into_token(content);
            LoggedIn::Unclear { version, token }
        }
    }
}

// Puts a token in the place of whatever is stored, in so many tries.
fn log_in<T: Drop, S: TokenStore<T>>(store: &mut S, name: &str, token: T, tries: u64) -> LoggedIn<T>
    requires { S.is_ready store.old }
    ensures login { LogsIn S.loads S.replaces name.now tries token store.old result store.new }
    ensures ready { S.is_ready store.new }
{
    if tries == 0 {
        return LoggedIn::Refused(token);
    }
    let Some(value) = load(store, name) else {
        return LoggedIn::Unread(token);
    };
    let version = value.version;
    drop(value);
    match put(store, name, version, token) {
        LoggedIn::Refused(refused) => log_in(store, name, refused, tries - 1),
        told => told,
    }
}

// Asks the store once to empty this name if it still has `version`. `content` is what that version
// has, and is handed out.
fn drop_at<T: Drop, S: TokenStore<T>>(
    store: &mut S,
    name: &str,
    version: u64,
    content: Content<T>,
) -> LoggedOut<T>
    requires { S.is_ready store.old }
    ensures drops { DropsAt S.replaces name.now version content store.old result store.new }
    ensures ready { S.is_ready store.new }
{
    if version == u64::MAX {
        return LoggedOut::NoNextVersion(content);
    }
    match store.replace_if(name, version, &Content::Empty) {
        Ok(Replaced::Done) => LoggedOut::Done(content),
        Ok(Replaced::Refused) => LoggedOut::Refused,
        Err(_) => LoggedOut::Unclear { version, content },
    }
}

// Drops whatever is stored, in so many tries.
fn log_out<T: Drop, S: TokenStore<T>>(store: &mut S, name: &str, tries: u64) -> LoggedOut<T>
    requires { S.is_ready store.old }
    ensures logout { LogsOut S.loads S.replaces name.now tries store.old result store.new }
    ensures ready { S.is_ready store.new }
{
    if tries == 0 {
        return LoggedOut::Refused;
    }
    let Some(value) = load(store, name) else {
        return LoggedOut::Unread;
    };
    let StoredValue { version, content } = value;
    match drop_at(store, name, version, content) {
        LoggedOut::Refused => log_out(store, name, tries - 1),
        told => told,
    }
}
