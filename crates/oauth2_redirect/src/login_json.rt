//! A login as JSON, for the store of a session.

ghost use Rattle.std.specs.Prelude.{◌≡◌, Ok, Some, IfOk, option_map};
ghost use Rattle.serde_json.specs.Data.{boolean, string};
ghost use Rattle.serde_json.specs.View.{view};
ghost use Rattle.oauth2_json.specs.Writing.{WritesAs};
ghost use Rattle.oauth2_redirect.specs.Redirect.{IssuerExpectation, expectation_of};
ghost use Rattle.oauth2_redirect.specs.Login.{
  IsReadFromText,
  LoginView,
  is_required,
  issuer_reading,
  issuer_text,
  login_reading,
  login_writing,
};

use crate::issuer::LoginIssuer;
use crate::login::{Login, LoginServer};
use oauth2_json::{FromJson, ReadError, ToJson, WriteError, members};
use oauth2_member_rows::{
    Member, MemberPair, Needed, ReadPairKind, WritePairKind, object_of, read_object,
};
use oauth2_types::{ClientId, CsrfToken, PkceCodeVerifier};
use oauth2_urls::RedirectUrl;
use serde_json::Value;
use std::alloc::{AllocError, Global};
use std::marker::PhantomData;

// The members of a login.
const ROWS: (
    Member<Needed<CsrfToken>>,
    (
        Member<Needed<PkceCodeVerifier>>,
        (
            Member<Needed<RedirectUrl>>,
            (
                MemberPair<Issuer>,
                (Member<Needed<ClientId>>, (Member<Needed<String>>, ())),
            ),
        ),
    ),
) = (
    Member("state", PhantomData),
    (
        Member("verifier", PhantomData),
        (
            Member("redirect_uri", PhantomData),
            (
                MemberPair("issuer", "issuer_in_each_redirect", PhantomData),
                (
                    Member("client_id", PhantomData),
                    (Member("token_url", PhantomData), ()),
                ),
            ),
        ),
    ),
);

// The issuer of a login, and whether each redirect must name it.
struct Issuer;

impl ReadPairKind for Issuer {
    type Value = LoginIssuer;

    ghost Meaning = { IssuerExpectation };

    ghost meaning = { expectation_of };

    ghost reading = { issuer_reading };

    fn read(
        alloc: Global,
        name: &str,
        other: &str,
        found: Option<Value>,
        found_other: Option<Value>,
    ) -> Result<LoginIssuer, ReadError> {
        if members::needed_flag(alloc, other, found_other)? {
            let issuer = members::needed::<String>(alloc, name, found)?;
            return Ok(LoginIssuer::InEachRedirect(issuer));
        }
        let issuer = members::optional::<String>(alloc, name, found)?;
        Ok(LoginIssuer::OwnRedirectUri(issuer))
    }
}

impl WritePairKind for Issuer {
    type Value = LoginIssuer;

    ghost written = { λ i. option_map string (issuer_text (expectation_of i)) };

    ghost written_other = { λ i. Some (boolean (is_required (expectation_of i))) };

    fn write(alloc: Global, value: &LoginIssuer) -> Result<Option<Value>, AllocError> {
        match value {
            LoginIssuer::InEachRedirect(issuer) => {
                Ok(Some(Value::try_from_str(alloc, issuer.as_str())?))
            }
            LoginIssuer::OwnRedirectUri(issuer) => members::text_value(alloc, issuer),
        }
    }

    fn write_other(_alloc: Global, value: &LoginIssuer) -> Result<Option<Value>, AllocError> {
        Ok(Some(Value::Bool(matches!(value, LoginIssuer::InEachRedirect(_)))))
    }
}

impl FromJson for Login {
    ghost Meaning = { LoginView };

    ghost meaning = { λ l. l };

    ghost reading = { login_reading };

    fn from_json(alloc: Global, value: Value) -> Result<Login, ReadError> {
        let (state, (verifier, (redirect_uri, rest))) = read_object(&ROWS, alloc, value)?;
        let (issuer, (client_id, (token_url, ()))) = rest;
        let server = LoginServer {
            issuer,
            client_id,
            token_url,
        };
        Ok(Login::new(state, verifier, redirect_uri, server))
    }
}

impl ToJson for Login {
    ghost writing = { login_writing };

    fn to_json(&self, alloc: Global) -> Result<Value, WriteError>
        ensures written { WritesAs result (login_writing self.now) }
        ensures reads_back { IfOk result (λ v.
            IsReadFromText self.now.redirect_uri → login_reading (view v) ≡ Ok self.now) }
    {
        let server = &self.server;
        let rest = (&server.issuer, (&server.client_id, (&server.token_url, ())));
        let values = (&self.state, (&self.verifier, (&self.redirect_uri, rest)));
        Ok(object_of(&ROWS, alloc, values)?)
    }
}
