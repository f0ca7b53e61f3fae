//! Why a run has no answer, and what it prints then.

ghost use Rattle.std.specs.Prelude.{◌≡◌};
ghost use Rattle.oauth2_examples.specs.Fault.{fault_exit_status};

use oauth2::{ParseCause, ReadError, RequestTokenError, ToJson, WriteError};
use serde_json::{Value, json};
use std::alloc::{AllocError, AllocFailed, Global};
use std::fmt::Display;

/// Why a run has no answer.
#[derive(Drop)]
pub enum Fault {
    /// A setting is wrong.
    Setting(ReadError),
    /// The file or the variable with this name, or the file that this setting names, cannot be
    /// read.
    Unreadable(String),
    /// The file with this name cannot be written.
    Unwritable(String),
    /// The request got no answer. The members of this object tell why.
    Unanswered(Value),
    /// Memory ran out.
    Memory,
}

impl From<AllocError> for Fault {
    fn from(_: AllocError) -> Fault {
        Fault::Memory
    }
}

impl<T: Drop> From<AllocFailed<T>> for Fault {
    fn from(_: AllocFailed<T>) -> Fault {
        Fault::Memory
    }
}

impl From<ReadError> for Fault {
    fn from(error: ReadError) -> Fault {
        match error {
            ReadError::Memory => Fault::Memory,
            error => Fault::Setting(error),
        }
    }
}

impl Fault {
    /// The setting with this name is wrong.
    pub fn setting(alloc: Global, name: &str, cause: ParseCause) -> Fault {
        Fault::from(ReadError::at(alloc, name, cause))
    }

    /// The file or the variable with this name, or the file that this setting names, cannot be
    /// read.
    pub fn unreadable(alloc: Global, name: &str) -> Fault {
        match String::from_str(alloc, name) {
            Ok(name) => Fault::Unreadable(name),
            Err(AllocError) => Fault::Memory,
        }
    }

    /// The file with this name cannot be written.
    pub fn unwritable(alloc: Global, name: &str) -> Fault {
        match String::from_str(alloc, name) {
            Ok(name) => Fault::Unwritable(name),
            Err(AllocError) => Fault::Memory,
        }
    }

    /// The request got no answer. The text of `error` is the member `error` of the object.
    pub fn unanswered<E: Display>(alloc: Global, error: &E) -> Fault {
        Fault::told(error_value(alloc, error))
    }

    /// The request got no answer. The object also has the cause and the reply where the text of the
    /// error leaves them out.
    pub fn of_request<E: Display, R: Display + ToJson>(
        alloc: Global,
        error: &RequestTokenError<E, R>,
    ) -> Fault {
        Fault::told(request_value(alloc, error))
    }

    fn told(value: Result<Value, AllocError>) -> Fault {
        match value {
            Ok(value) => Fault::Unanswered(value),
            Err(AllocError) => Fault::Memory,
        }
    }

    /// The exit status: 2 if a setting is wrong or cannot be read, otherwise 1.
    pub fn status(&self) -> u8
        ensures { result ≡ fault_exit_status self.now }
    {
        match self {
            Fault::Setting(_) | Fault::Unreadable(_) => 2,
            Fault::Unwritable(_) | Fault::Unanswered(_) | Fault::Memory => 1,
        }
    }

    /// The line of JSON to print for the fault.
    pub fn line(&self, alloc: Global) -> Result<String, AllocError> {
        match self {
            Fault::Setting(error) => error_value(alloc, error)?.to_string(alloc),
            Fault::Unreadable(name) => {
                let error = format!(in alloc; "{name}: cannot be read")?;
                json!(in alloc; {"error": error})?.to_string(alloc)
            }
            Fault::Unwritable(name) => {
                let error = format!(in alloc; "{name}: cannot be written")?;
                json!(in alloc; {"error": error})?.to_string(alloc)
            }
            Fault::Unanswered(value) => value.to_string(alloc),
            Fault::Memory => Err(AllocError),
        }
    }
}

// An object whose member `error` is the text of an error.
fn error_value<E: Display>(alloc: Global, error: &E) -> Result<Value, AllocError> {
    let text = error.to_string(alloc)?;
    json!(in alloc; {"error": text})
}

// An object with the text of an error, and its cause and the server's reply where the text leaves
// them out. Of a reply that cannot be written as JSON it has the reason.
fn request_value<E: Display, R: Display + ToJson>(
    alloc: Global,
    error: &RequestTokenError<E, R>,
) -> Result<Value, AllocError> {
    let text = error.to_string(alloc)?;
    match error {
        RequestTokenError::Request(cause) => {
            let cause = cause.to_string(alloc)?;
            json!(in alloc; {"error": text, "cause": cause})
        }
        RequestTokenError::Parse(cause, body) => {
            let cause = cause.to_string(alloc)?;
            let reply = String::from_utf8_lossy(alloc, body)?;
            json!(in alloc; {"error": text, "cause": cause, "reply": reply})
        }
        RequestTokenError::ServerResponse(response) => match response.to_json(alloc) {
            Ok(reply) => json!(in alloc; {"error": text, "reply": reply}),
            Err(WriteError::Memory) => Err(AllocError),
            Err(unwritten) => {
                let cause = unwritten.to_string(alloc)?;
                json!(in alloc; {"error": text, "cause": cause})
            }
        },
        _ => json!(in alloc; {"error": text}),
    }
}
