//! The events of a run.

ghost use Rattle.std.specs.Prelude.{◌≡◌, ◌++◌, ◌∷◌, [], OnOk};
ghost use Rattle.oauth2_world.specs.Events.{event_of};

use oauth2_json::ParseFault;
use oauth2_script::{HttpReply, ScriptFault};
use oauth2_wire::HttpRequest;
use std::alloc::{AllocError, Global};
use std::marker::Model;
use std::time::Duration;

/// What a fault is, for programs. docs/SCRIPT.md has the word and the meaning of each.
#[derive(Clone, Copy, Debug, PartialEq, Eq)]
pub enum FaultKind {
    /// The client has no URL for the endpoint of the command.
    MissingEndpoint,
    /// The URL of the endpoint is not `https`.
    InsecureEndpoint,
    /// The call of the client failed.
    RequestFailed,
    /// The server returned an error response (RFC 6749, section 5.2).
    ErrorResponse,
    /// The body of the reply cannot be read.
    UnreadReply,
    /// The server gave a token of a type that the caller can't use (RFC 6749, section 7.1).
    OtherTokenType,
    /// Another fault of a request, which its text tells.
    OtherError,
    /// Memory ran out inside a call of the client.
    OutOfMemory,
    /// The redirect has no code for this login (RFC 6749, section 4.1.2).
    RefusedRedirect,
    /// The login began with another client identifier than the client's.
    OtherClient,
    /// The login began at another token endpoint than the client's (RFC 9700, section 4.4).
    OtherTokenEndpoint,
    /// The redirect came to another URL than the login's redirect URI (RFC 9700, section 2.1).
    OtherRedirectUri,
    /// The reply to a request for metadata has another status than 200.
    OtherStatus,
    /// The metadata has an endpoint that a client must not call.
    BadMetadata,
    /// The metadata names another issuer (RFC 8414, section 3.3).
    OtherIssuer,
    /// The text is no issuer's URL (RFC 8414, section 2).
    BadIssuer,
    /// The text is no token that can be read.
    BadToken,
    /// A claim of the ID token breaks a rule.
    BadClaims,
    /// The signature of the ID token is not good.
    BadSignature,
    /// No signature of the registered algorithm is checked.
    UncheckedSignature,
    /// The keys are no key set (RFC 7517, section 5).
    BadKeys,
    /// The JWT access token breaks a rule (RFC 9068, section 4).
    BadAccessToken,
    /// An extra parameter has a name that the request itself sends.
    TakenParameter,
    /// The authorization request cannot be pushed (RFC 9126, section 2.1).
    BadPush,
}

/// The members of an error response (RFC 6749, section 5.2).
#[derive(Drop)]
pub struct ErrorMembers {
    pub error: String,
    pub description: Option<String>,
    pub uri: Option<String>,
}

/// What is known of a fault beside its text.
#[derive(Drop)]
pub enum FaultDetails {
    None,
    /// The members of the error response of the server.
    Refused(ErrorMembers),
    /// Which member of the body could not be read, and why.
    Unread(ParseFault),
}

/// Why a command has no answer.
#[derive(Drop)]
pub struct Fault {
    pub kind: FaultKind,
    /// The text of the fault, for people.
    pub text: String,
    pub details: FaultDetails,
}

/// An event of a run.
#[derive(Drop)]
pub enum Event {
    /// The client sent a request; there is no reply if the call failed.
    Exchange(HttpRequest, Option<HttpReply>),
    /// A device waited.
    Sleep(Duration),
    /// The URL that the user is sent to.
    Url(String),
    /// An answer, as JSON.
    Answer(String),
    /// A fault.
    Fault(Fault),
    /// A keeper makes no request before this second since 1970.
    Wait(Option<i64>),
    /// A keeper of a shared token, by its number, and what it did.
    Step(u8, String),
    /// The input is not a script: its first bad member, and why.
    BadScript(ScriptFault),
}

/// The events of a run, in order.
#[derive(Drop)]
pub struct Events {
    list: Vec<Event>,
}

impl Model for Events {
    ghost use Rattle.std.specs.Prelude.{List, map};
    ghost use Rattle.oauth2_world.specs.Events.{Event, event_of};

    ghost Value = { List Event };

    ghost view = { λ events. map event_of events.list.items };
}

impl Events {
    ghost use Rattle.std.specs.Prelude.{◌≡◌, [], map};
    ghost use Rattle.oauth2_world.specs.Events.{event_of};

    /// No events.
    pub fn new(alloc: Global) -> Events
        ensures { result ≡ [] }
    {
        Events {
            list: Vec::new(alloc),
        }
    }

    /// Adds an event behind the others.
    pub fn push(&mut self, event: Event) -> Result<(), AllocError>
        ensures { OnOk result (self.new ≡ self.old ++ event_of event ∷ []) }
    {
        self.list.push(event)?;
        Ok(())
    }

    /// The events, in order.
    pub fn as_slice(&self) -> &[Event]
        ensures { map event_of result.now ≡ self.now }
    {
        self.list.as_slice()
    }
}
