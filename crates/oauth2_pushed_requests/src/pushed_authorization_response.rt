//! The response to a pushed authorization request (RFC 9126, section 2.2).

ghost use Rattle.std.specs.Prelude.{◌≡◌, ◌↔◌, ◌*◌, codes, string_bytes, Err, IfErr, IfOk, Ok, Some};
ghost use Rattle.std.specs.Duration.{as_nanos};
ghost use Rattle.std.specs.Fmt.{DisplaysOnOk, WritesStyledOnOk};
ghost use Rattle.serde_json.specs.View.{view};
ghost use Rattle.url.specs.Parser.{IsOutOfRoom};
ghost use Rattle.url.specs.Setters.{append_query_pairs};
ghost use Rattle.oauth2_form.specs.Query.{ExtendsQuery};
ghost use Rattle.oauth2_json.specs.Reading.{ReadsAs};
ghost use Rattle.oauth2_json.specs.Writing.{WritesAs};
ghost use Rattle.oauth2_requests.specs.Authorization.{IsTooLong};
ghost use Rattle.oauth2_pushed_requests.specs.Pushed.{reference_pairs};
ghost use Rattle.oauth2_pushed_requests.specs.Response.{
  PushedAuthorization,
  pushed_authorization,
  pushed_reading,
  pushed_writing,
  whole_response,
};

use crate::reference_url::reference_url;
use oauth2_json::{FromJson, ParseCause, ReadError, ToJson, WriteError};
use oauth2_member_rows::{Member, Needed, NeededNumber, object_of, read_object};
use oauth2_types::ClientId;
use oauth2_urls::AuthUrl;
use serde_json::Value;
use std::alloc::Global;
use std::fmt;
use std::marker::{Model, PhantomData};
use std::time::Duration;
use url::{ParseError, Url};

// The members of the response.
const ROWS: (Member<Needed<String>>, (Member<NeededNumber>, ())) = (
    Member("request_uri", PhantomData),
    (Member("expires_in", PhantomData), ()),
);

/// The response to a pushed authorization request. There is no constructor: it is read from JSON.
pub struct PushedAuthorizationResponse {
    request_uri: String,
    expires_in: u64,
}

impl Drop for PushedAuthorizationResponse {
    fn drop(self) {
        let PushedAuthorizationResponse {
            request_uri: _,
            expires_in: _,
        } = self;
    }
}

impl Model for PushedAuthorizationResponse {
    ghost use Rattle.std.specs.Prelude.{◌≡◌, ◌==◌, [], bytes_eq, false, string_bytes};
    ghost use Rattle.oauth2_pushed_requests.specs.Response.{
      PushedAuthorization,
      pushed_authorization,
    };

    ghost Value = { PushedAuthorization };

    ghost view = { λ r. pushed_authorization (string_bytes r.request_uri) r.expires_in };

    ghost invariant = { λ r. (bytes_eq (string_bytes r.request_uri) [] ≡ false)
        × ((r.expires_in == 0) ≡ false) };
}

impl PushedAuthorizationResponse {
    /// The text that names the request at the authorization endpoint. Whoever knows it can start
    /// this login once, so do not log it.
    pub fn request_uri(&self) -> &str
        ensures { result.now ≡ self.now.request_uri }
    {
        self.request_uri.as_str()
    }

    /// For how long the request can be started.
    pub fn expires_in(&self) -> Duration
        ensures { as_nanos result ≡ self.now.expires_in * 1_000_000_000 }
    {
        Duration::from_secs(self.expires_in)
    }

    /// The URL to send the user to: that of the authorization endpoint, with `client_id` and
    /// `request_uri` after its own query (RFC 9126, section 4). The error is `OutOfMemory`, or
    /// `Overflow` if the URL would be longer than a `Url` can be.
    pub fn authorization_url(
        &self,
        alloc: Global,
        auth_url: &AuthUrl,
        client_id: &ClientId,
    ) -> Result<Url, ParseError>
        ensures ok { let pairs = reference_pairs client_id.now self.now.request_uri in
            IfOk result (λ url. ExtendsQuery auth_url.now.url url pairs) }
        ensures refusal { IfErr result IsOutOfRoom }
        ensures overflow { let pairs = reference_pairs client_id.now self.now.request_uri in
            result ≡ Err ParseError.Overflow
            ↔ IsTooLong (append_query_pairs auth_url.now.url pairs) }
    {
        reference_url(
            alloc,
            auth_url.url(),
            client_id.as_str(),
            self.request_uri(),
        )
    }
}

// The response of these two values, if the text is not empty and the lifetime not zero.
fn whole_response(
    alloc: Global,
    request_uri: String,
    expires_in: u64,
) -> Result<PushedAuthorizationResponse, ReadError>
    ensures { ReadsAs (λ r. r) result
        (whole_response (pushed_authorization (string_bytes request_uri) expires_in)) }
{
    if request_uri.is_empty() {
        return Err(ReadError::at(alloc, "request_uri", ParseCause::Missing));
    }
    if expires_in == 0 {
        return Err(ReadError::at(alloc, "expires_in", ParseCause::OutOfRange));
    }
    Ok(PushedAuthorizationResponse {
        request_uri,
        expires_in,
    })
}

impl FromJson for PushedAuthorizationResponse {
    ghost Meaning = { PushedAuthorization };

    ghost meaning = { λ r. r };

    ghost reading = { pushed_reading };

    fn from_json(alloc: Global, value: Value) -> Result<PushedAuthorizationResponse, ReadError> {
        let (request_uri, (expires_in, ())) = read_object(&ROWS, alloc, value)?;
        whole_response(alloc, request_uri, expires_in)
    }
}

impl ToJson for PushedAuthorizationResponse {
    ghost writing = { pushed_writing };

    fn to_json(&self, alloc: Global) -> Result<Value, WriteError>
        ensures written { WritesAs result (pushed_writing self.now) }
        ensures reads_back { IfOk result (λ v. pushed_reading (view v) ≡ Ok self.now) }
    {
        let values = (&self.request_uri, (&self.expires_in, ()));
        Ok(object_of(&ROWS, alloc, values)?)
    }
}

impl fmt::Debug for PushedAuthorizationResponse {
    ghost debug_output = { λ _. Some (codes "PushedAuthorizationResponse([redacted])") };

    fn fmt<W: fmt::Write>(&self, f: &mut fmt::Formatter<W>) -> fmt::Result
        ensures writes { DisplaysOnOk W.write_str_gives f.old result
            (Some (codes "PushedAuthorizationResponse([redacted])")) f.new }
        // Holds for all formatter options, also for `{:#?}`.
        ensures styled { WritesStyledOnOk W.write_str_gives f.old result
            (codes "PushedAuthorizationResponse([redacted])") f.new }
    {
        f.write_str("PushedAuthorizationResponse([redacted])")
    }
}
