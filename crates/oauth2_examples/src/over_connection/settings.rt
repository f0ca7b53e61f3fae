//! The settings of a run: the members of a JSON file, each read by its name.

ghost use Rattle.std.specs.Prelude.{option_map};
ghost use Rattle.serde_json.specs.Find.{get_member};
ghost use Rattle.serde_json.specs.View.{members_view};
ghost use Rattle.oauth2_json.specs.Reading.{ReadsAs};
ghost use Rattle.oauth2_json.specs.Members.{needed_member, optional_member};

use crate::over_connection::fault::Fault;
use oauth2::basic::BasicClient;
use oauth2::{
    AuthType, ClientSecret, EndpointNotSet, FromJson, ParseCause, ReadError, ResourceOwnerPassword,
    Scope, members,
};
use oauth2_http1::Bounds;
use serde_json::{Map, Value};
use std::alloc::Global;
use std::env::VarError;
use std::{env, fs};

/// A client with no endpoint yet.
pub type PlainClient = BasicClient<
    EndpointNotSet,
    EndpointNotSet,
    EndpointNotSet,
    EndpointNotSet,
    EndpointNotSet,
>;

/// The members of a settings file that were not read yet, and the runtime that reads the secrets.
#[derive(Drop)]
pub struct Settings<'a> {
    rt: &'a HostRuntime,
    members: Map<String, Value>,
}

impl<'a> Settings<'a> {
    /// Reads a file, which has to hold one JSON object.
    pub fn read(rt: &'a HostRuntime, path: &str) -> Result<Settings<'a>, Fault> {
        let alloc = rt.alloc();
        let Ok(text) = fs::read_to_string(rt, path) else {
            return Err(Fault::unreadable(alloc, path));
        };
        match Value::from_str(alloc, text.as_str()) {
            Ok(value) => Ok(Settings {
                rt,
                members: members::of_object(alloc, value)?,
            }),
            Err(error) => if error.is_memory() {
                Err(Fault::Memory)
            } else {
                Err(Fault::setting(alloc, path, ParseCause::NotJson))
            },
        }
    }

    /// The allocator of the run.
    pub fn alloc(&self) -> Global {
        self.rt.alloc()
    }

    /// Reads a required member, and removes it from the settings.
    pub fn needed<T: FromJson>(&mut self, name: &str) -> Result<T, ReadError>
        ensures { ReadsAs T.meaning result (needed_member T.reading name.now
            (get_member name.now (members_view self.old.members.entries))) }
    {
        let found = members::take(&mut self.members, name);
        members::needed(self.rt.alloc(), name, found)
    }

    /// Reads a member that may be absent or null, and removes it from the settings.
    pub fn optional<T: FromJson>(&mut self, name: &str) -> Result<Option<T>, ReadError>
        ensures { ReadsAs (option_map T.meaning) result (optional_member T.reading name.now
            (get_member name.now (members_view self.old.members.entries))) }
    {
        let found = members::take(&mut self.members, name);
        members::optional(self.rt.alloc(), name, found)
    }

    fn number_or(&mut self, name: &str, default: u64) -> Result<u64, ReadError> {
        let found = members::take(&mut self.members, name);
        members::number_or(self.rt.alloc(), name, default, found)
    }

    /// Reads a list of texts, which is empty if the member is absent.
    pub fn texts(&mut self, name: &str) -> Result<Vec<String>, Fault> {
        let alloc = self.rt.alloc();
        let found = members::take(&mut self.members, name);
        match members::optional_texts(alloc, name, found)? {
            Some(texts) => Ok(texts),
            None => Ok(Vec::new(alloc)),
        }
    }

    /// Reads the setting `scopes`, which is empty if it is absent.
    pub fn scopes(&mut self) -> Result<Vec<Scope>, Fault> {
        let mut scopes = Vec::new(self.rt.alloc());
        for text in self.texts("scopes")? {
            scopes.push(Scope::new(text))?;
        }
        Ok(scopes)
    }

    /// Reads a secret: the first line of the file that the member `name` names; without that
    /// member, the environment variable `variable`. `None` if neither is set.
    pub fn secret(&mut self, name: &str, variable: &str) -> Result<Option<String>, Fault> {
        let alloc = self.rt.alloc();
        let Some(path) = self.optional::<String>(name)? else {
            return self.variable(variable);
        };
        let Ok(text) = fs::read_to_string(self.rt, path.as_str()) else {
            return Err(Fault::unreadable(alloc, name));
        };
        let line = text.as_str().lines().next().unwrap_or("");
        Ok(Some(String::from_str(alloc, line)?))
    }

    fn variable(&self, name: &str) -> Result<Option<String>, Fault> {
        match env::var(self.rt, name) {
            Ok(text) => Ok(Some(text)),
            Err(VarError::NotPresent) => Ok(None),
            Err(VarError::NotUnicode) => Err(Fault::unreadable(self.rt.alloc(), name)),
            Err(VarError::OutOfMemory) => Err(Fault::Memory),
        }
    }

    /// The user's password, from the file `password_file` or the variable `OAUTH2_PASSWORD`.
    pub fn password(&mut self) -> Result<ResourceOwnerPassword, Fault> {
        match self.secret("password_file", "OAUTH2_PASSWORD")? {
            Some(password) => Ok(ResourceOwnerPassword::new(password)),
            None => Err(Fault::setting(self.rt.alloc(), "password_file", ParseCause::Missing)),
        }
    }

    // How the client sends its secret: in a header, unless the setting `auth` is `body`.
    fn auth_type(&mut self) -> Result<AuthType, Fault> {
        let Some(auth) = self.optional::<String>("auth")? else {
            return Ok(AuthType::BasicAuth);
        };
        match auth.as_str() {
            "basic" => Ok(AuthType::BasicAuth),
            "body" => Ok(AuthType::RequestBody),
            _ => Err(Fault::setting(self.rt.alloc(), "auth", ParseCause::Refused)),
        }
    }

    /// The client, with its secret if there is one.
    pub fn client(&mut self) -> Result<PlainClient, Fault> {
        let mut client = PlainClient::new(self.needed("client_id")?);
        client = client.set_auth_type(self.auth_type()?);
        if let Some(secret) = self.secret("client_secret_file", "OAUTH2_CLIENT_SECRET")? {
            client = client.set_client_secret(ClientSecret::new(secret));
        }
        if let Some(redirect) = self.optional("redirect")? {
            client = client.set_redirect_uri(redirect);
        }
        Ok(client)
    }

    /// The limits on a reply: `max_head` and `max_body` in bytes, and `max_reads`, the number of
    /// reads.
    pub fn bounds(&mut self) -> Result<Bounds, Fault> {
        let default = Bounds::default();
        let max_head = self.number_or("max_head", default.limits.max_head_len as u64)?;
        let max_body = self.number_or("max_body", default.max_body as u64)?;
        let max_reads = self.number_or("max_reads", default.max_reads as u64)?;
        let Ok(max_reads) = u32::try_from(max_reads) else {
            return Err(Fault::setting(self.rt.alloc(), "max_reads", ParseCause::OutOfRange));
        };
        Ok(
            default
                .set_max_head(max_head as usize)
                .set_max_body(max_body as usize)
                .set_max_reads(max_reads),
        )
    }
}
