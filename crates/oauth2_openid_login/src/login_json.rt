//! A login with OpenID Connect as JSON, for the store of a session.

ghost use Rattle.std.specs.Prelude.{◌≡◌, Ok, IfOk};
ghost use Rattle.serde_json.specs.View.{view};
ghost use Rattle.oauth2_json.specs.Writing.{WritesAs};
ghost use Rattle.oauth2_redirect.specs.Login.{IsReadFromText};
ghost use Rattle.oauth2_openid_login.specs.Login.{
  OpenIdKept,
  openid_login_reading,
  openid_login_writing,
};

use crate::login::OpenIdLogin;
use oauth2_json::{FromJson, ReadError, ToJson, WriteError};
use oauth2_member_rows::{Member, Needed, OptionalNumber, object_with, read_value_after};
use oauth2_openid::Nonce;
use serde_json::Value;
use std::alloc::Global;
use std::marker::PhantomData;

// The members of a login besides those of the login by a code.
const ROWS: (Member<Needed<String>>, (Member<OptionalNumber>, ())) = (
    Member("nonce", PhantomData),
    (Member("max_age", PhantomData), ()),
);

impl FromJson for OpenIdLogin {
    ghost Meaning = { OpenIdKept };

    ghost meaning = { λ l. l };

    ghost reading = { openid_login_reading };

    fn from_json(alloc: Global, value: Value) -> Result<OpenIdLogin, ReadError> {
        let (login, (nonce, (max_age, ()))) = read_value_after(&ROWS, alloc, value)?;
        Ok(OpenIdLogin::new(login, Nonce::new(nonce), max_age))
    }
}

impl ToJson for OpenIdLogin {
    ghost writing = { openid_login_writing };

    fn to_json(&self, alloc: Global) -> Result<Value, WriteError>
        ensures written { WritesAs result (openid_login_writing self.now) }
        ensures reads_back { IfOk result (λ v. IsReadFromText self.now.login.redirect_uri
            → openid_login_reading (view v) ≡ Ok self.now) }
    {
        let values = (self.nonce.secret(), (&self.max_age, ()));
        object_with(&ROWS, alloc, values, &self.login)
    }
}
