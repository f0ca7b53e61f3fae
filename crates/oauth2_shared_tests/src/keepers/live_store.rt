//! A store that changes while the keeper sleeps.

use crate::keepers::memory_store::{MemoryStore, NoReply, Server};
use crate::keepers::timed_token::TimedToken;
use jiff::Timestamp;
use oauth2_shared_keeper::{
    Content, KeeperSettings, Limits, Replaced, SharedKeeper, StoredValue, TimedStore, TokenStore,
};
use std::process::Abort;
use std::time::Duration;

/// A store whose mark another renewal ends while the keeper sleeps for the first time. It writes
/// down what it is asked.
#[derive(Drop)]
struct LiveStore {
    memory: MemoryStore<TimedToken>,
    now: Timestamp,
    /// `l` of a load, `r` of a reading of the clock, `s` of a sleep.
    calls: String,
}

impl LiveStore {
    fn write_down(&mut self, call: char) {
        let _ = self.calls.push(call);
    }
}

impl TokenStore<TimedToken> for LiveStore {
    type Error = NoReply;

    fn load(&mut self, name: &str) -> Result<StoredValue<TimedToken>, NoReply> {
        self.write_down('l');
        self.memory.load(name)
    }

    fn replace_if(
        &mut self,
        name: &str,
        version: u64,
        content: &Content<TimedToken>,
    ) -> Result<Replaced, NoReply> {
        self.memory.replace_if(name, version, content)
    }
}

impl TimedStore<TimedToken> for LiveStore {
    fn now(&mut self) -> Timestamp {
        self.write_down('r');
        self.now
    }

    fn sleep(&mut self, _duration: Duration) {
        self.write_down('s');
        self.memory.version = self.memory.version.saturating_add(1);
        self.memory.content = Content::AtRest(TimedToken { until: 1100 });
    }

    fn draw(&mut self) -> u128 {
        1
    }
}

#[test]
fn a_keeper_loads_after_each_sleep(rt: HostRuntime) {
    let now = Timestamp::from_second(1000).expect(&rt, "a moment");
    let calls = String::new(rt.alloc());
    let mut keeper = SharedKeeper {
        store: LiveStore {
            memory: MemoryStore {
                version: 4,
                content: Content::Marked(TimedToken { until: 1000 }, 9),
                failing_loads: 0,
                lost_replies: 0,
                is_overtaken: false,
                kept_next: None,
            },
            now,
            calls,
        },
        client: Server {
            is_silent: true,
            times_sent: 0,
        },
        settings: KeeperSettings {
            margin: Duration::from_secs(60),
            old_margin: Duration::from_secs(10),
            wait: Duration::from_secs(2),
            rounds: 2,
            limits: Limits {
                loads: 1,
                repeats: 1,
            },
        },
    };
    let held = keeper.token("mail");
    let text = format!(in rt.alloc(); "{held:?}").expect(&rt, "a text");
    assert!(rt;
        text.as_str() == "Good(TimedToken { until: 1100 })",
        "{text}"
    );
    assert!(rt; keeper.store.calls.as_str() == "lrslr");
}
