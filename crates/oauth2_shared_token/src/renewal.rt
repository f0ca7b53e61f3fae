//! One renewal, as a machine over values: what it does next, by what it knows and is told.

ghost use Rattle.std.specs.Prelude.{◌≡◌};
ghost use Rattle.oauth2_shared_token.specs.Renewal.{
  after_asking,
  after_keeping,
  after_leaving,
  after_looking,
  after_returning,
  after_sending,
  next_turn,
  past_or_open,
  read_again,
  returned_if,
  sent_if,
};

/// What a version holds. `T` is the type of a token, here and below: this machine only passes it on.
#[derive(Debug, Drop)]
pub enum Content<T> {
    /// A token that no renewal uses.
    AtRest(T),
    /// A token whose refresh token the renewal of this name uses: its mark.
    Marked(T, u128),
    /// No token: somebody logged out.
    Empty,
}

/// What the store keeps under a name.
#[derive(Debug, Drop)]
pub struct StoredValue<T> {
    pub version: u64,
    pub content: Content<T>,
}

/// How far a renewal is, as it knows it.
#[derive(Drop)]
pub enum Phase<T> {
    /// It looks at what is stored.
    Looking,
    /// It asked to mark this version, which holds this token.
    Asking(u64, T),
    /// It asked to mark this version, which holds this token, and must not send anything.
    Leaving(u64, T),
    /// It sent the refresh token of this version.
    Sending(u64),
    /// It asked to keep this token in the place of its mark on this version.
    Keeping(u64, T),
    /// It asked to take its mark off this version, which holds this token.
    Returning(u64, T),
    /// It does nothing more.
    Over,
}

/// What a renewal is told.
#[derive(Drop)]
pub enum Told<T> {
    /// The store holds this, or held it.
    Stored(StoredValue<T>),
    /// The store did what it was asked.
    Done,
    /// The store refused, or it is not known whether it did what it was asked.
    Nothing,
    /// The server gave this token.
    Answer(T),
    /// The caller wants nothing to be sent any more.
    Stop,
}

/// What a renewal does next.
#[derive(Drop)]
pub enum Step<T> {
    /// Load what is stored.
    Look,
    /// Ask the store to mark this version.
    Mark(u64, T),
    /// Send the refresh token of this version to the server (RFC 6749, 6).
    Send(u64, T),
    /// Ask the store to put this token in the place of the mark on this version.
    Keep(u64, T),
    /// Ask the store to put the old token, unsent, in the place of the mark on this version.
    GiveBack(u64, T),
    /// Repeat the last request to the store.
    Repeat,
    /// The refresh token is in use by this renewal, or was and nobody ended that. The old token is
    /// handed out, whose access token may still be good.
    InUse(u128, T),
    /// Somebody logged out, so only a new login ends that.
    LoggedOut,
    /// The renewal is over.
    End,
}

/// How far a renewal is after it was told something, and what it does next.
#[derive(Drop)]
pub struct Turn<T> {
    pub phase: Phase<T>,
    pub step: Step<T>,
}

/// What a load says of a mark that was asked for.
#[derive(Clone, Copy)]
pub enum Learnt {
    /// The store took it.
    Taken,
    /// It can be taken no more: the store is past that version.
    Lost,
    /// It may still be taken.
    Open,
}

/// What is at rest is asked for.
fn after_looking<T: Copy + Drop>(told: Told<T>) -> Turn<T>
    ensures { result ≡ after_looking told }
{
    match told {
        Told::Stored(p) => match p.content {
            Content::AtRest(token) => Turn {
                phase: Phase::Asking(p.version, token),
                step: Step::Mark(p.version, token),
            },
            Content::Marked(token, other) => Turn {
                phase: Phase::Over,
                step: Step::InUse(other, token),
            },
            Content::Empty => Turn {
                phase: Phase::Over,
                step: Step::LoggedOut,
            },
        },
        Told::Stop => Turn {
            phase: Phase::Over,
            step: Step::End,
        },
        _ => Turn {
            phase: Phase::Looking,
            step: Step::Look,
        },
    }
}

fn past_or_open(is_past: bool) -> Learnt
    ensures { result ≡ past_or_open is_past }
{
    if is_past { Learnt::Lost } else { Learnt::Open }
}

/// What this value says of the mark of this renewal on that version.
pub fn read_again<T>(name: u128, version: u64, p: &StoredValue<T>) -> Learnt
    ensures { result ≡ read_again name version p.now }
{
    let is_past = version < p.version;
    match &p.content {
        Content::Marked(_, other) => {
            if *other == name {
                Learnt::Taken
            } else {
                past_or_open(is_past)
            }
        }
        _ => past_or_open(is_past),
    }
}

fn sent_if<T: Copy + Drop>(version: u64, token: T, learnt: Learnt) -> Turn<T>
    ensures { result ≡ sent_if version token learnt }
{
    match learnt {
        Learnt::Taken => Turn {
            phase: Phase::Sending(version),
            step: Step::Send(version, token),
        },
        Learnt::Lost => Turn {
            phase: Phase::Over,
            step: Step::End,
        },
        Learnt::Open => Turn {
            phase: Phase::Asking(version, token),
            step: Step::Look,
        },
    }
}

/// It sends once it is told that the store took its mark, or reads its own mark.
fn after_asking<T: Copy + Drop>(name: u128, version: u64, token: T, told: Told<T>) -> Turn<T>
    ensures { result ≡ after_asking name version token told }
{
    match told {
        Told::Stored(p) => sent_if(version, token, read_again(name, version, &p)),
        Told::Done => sent_if(version, token, Learnt::Taken),
        Told::Stop => Turn {
            phase: Phase::Leaving(version, token),
            step: Step::Look,
        },
        _ => sent_if(version, token, Learnt::Open),
    }
}

fn returned_if<T: Copy + Drop>(version: u64, token: T, learnt: Learnt) -> Turn<T>
    ensures { result ≡ returned_if version token learnt }
{
    match learnt {
        Learnt::Taken => Turn {
            phase: Phase::Returning(version, token),
            step: Step::GiveBack(version, token),
        },
        Learnt::Lost => Turn {
            phase: Phase::Over,
            step: Step::End,
        },
        Learnt::Open => Turn {
            phase: Phase::Leaving(version, token),
            step: Step::Look,
        },
    }
}

/// In the place of sending it gives its mark back.
fn after_leaving<T: Copy + Drop>(name: u128, version: u64, token: T, told: Told<T>) -> Turn<T>
    ensures { result ≡ after_leaving name version token told }
{
    match told {
        Told::Stored(p) => returned_if(version, token, read_again(name, version, &p)),
        Told::Done => returned_if(version, token, Learnt::Taken),
        _ => returned_if(version, token, Learnt::Open),
    }
}

/// It keeps what it was given, and sends no more.
fn after_sending<T: Copy + Drop>(version: u64, told: Told<T>) -> Turn<T>
    ensures { result ≡ after_sending version told }
{
    match told {
        Told::Answer(new) => Turn {
            phase: Phase::Keeping(version, new),
            step: Step::Keep(version, new),
        },
        _ => Turn {
            phase: Phase::Over,
            step: Step::End,
        },
    }
}

/// It asks again while it is told nothing.
fn after_keeping<T: Copy + Drop>(version: u64, new: T, told: Told<T>) -> Turn<T>
    ensures { result ≡ after_keeping version new told }
{
    match told {
        Told::Nothing => Turn {
            phase: Phase::Keeping(version, new),
            step: Step::Repeat,
        },
        _ => Turn {
            phase: Phase::Over,
            step: Step::End,
        },
    }
}

/// Here too.
fn after_returning<T: Copy + Drop>(version: u64, token: T, told: Told<T>) -> Turn<T>
    ensures { result ≡ after_returning version token told }
{
    match told {
        Told::Nothing => Turn {
            phase: Phase::Returning(version, token),
            step: Step::Repeat,
        },
        _ => Turn {
            phase: Phase::Over,
            step: Step::End,
        },
    }
}

/// What the renewal of this name does next.
pub fn next_turn<T: Copy + Drop>(name: u128, phase: Phase<T>, told: Told<T>) -> Turn<T>
    ensures { result ≡ next_turn name phase told }
{
    match phase {
        Phase::Looking => after_looking(told),
        Phase::Asking(version, token) => after_asking(name, version, token, told),
        Phase::Leaving(version, token) => after_leaving(name, version, token, told),
        Phase::Sending(version) => after_sending(version, told),
        Phase::Keeping(version, new) => after_keeping(version, new, told),
        Phase::Returning(version, token) => after_returning(version, token, told),
        Phase::Over => Turn {
            phase: Phase::Over,
            step: Step::End,
        },
    }
}
