//! The claims of a logout token (OpenID Connect Back-Channel Logout 1.0, section 2.4).

ghost use Rattle.serde_json.specs.View.{view};
ghost use Rattle.oauth2_openid.specs.Token.{WithOthers, with_others};
ghost use Rattle.oauth2_signed_tokens.specs.logout_tokens.LogoutToken.{LogoutClaims};
ghost use Rattle.oauth2_signed_tokens.specs.logout_tokens.Reading.{claims_reading};

use jiff::Timestamp;
use oauth2_json::{FromJson, ReadError};
use oauth2_member_rows::{Member, Needed, NeededTexts, Optional, read_value_and_others};
use oauth2_openid::NumericDate;
use serde_json::Value;
use std::alloc::Global;
use std::marker::{Model, PhantomData};

// The claims of a logout token except `events`, which is kept as JSON among the other claims.
pub(crate) struct LogoutTokenClaims {
    pub(crate) issuer: String,
    pub(crate) subject: Option<String>,
    pub(crate) audience: Vec<String>,
    pub(crate) issued_at: Timestamp,
    pub(crate) expires_at: Timestamp,
    pub(crate) token_id: String,
    pub(crate) session_id: Option<String>,
}

impl Drop for LogoutTokenClaims {
    fn drop(self) {
        let LogoutTokenClaims {
            issuer: _,
            subject: _,
            audience: _,
            issued_at: _,
            expires_at: _,
            token_id: _,
            session_id: _,
        } = self;
    }
}

impl Model for LogoutTokenClaims {
    ghost use Rattle.std.specs.Prelude.{map, option_map, string_bytes};
    ghost use Rattle.oauth2_signed_tokens.specs.logout_tokens.LogoutToken.{LogoutClaims};

    ghost Value = { LogoutClaims };

    ghost view = { λ c. record {
      issuer = string_bytes c.issuer;
      subject = option_map string_bytes c.subject;
      audience = map string_bytes c.audience.items;
      issued_at = c.issued_at.nanosecond;
      expires_at = c.expires_at.nanosecond;
      token_id = string_bytes c.token_id;
      session_id = option_map string_bytes c.session_id;
    } };
}

// Who issued the token, about whom, and for whom.
type ClaimRows = (
    Member<Needed<String>>,
    (Member<Optional<String>>, (Member<NeededTexts>, EventRows)),
);

// When the token counts, its identifier, and the session.
type EventRows = (
    Member<Needed<NumericDate>>,
    (
        Member<Needed<NumericDate>>,
        (Member<Needed<String>>, (Member<Optional<String>>, ())),
    ),
);

const ROWS: ClaimRows = (
    Member("iss", PhantomData),
    (
        Member("sub", PhantomData),
        (Member("aud", PhantomData), EVENT_ROWS),
    ),
);

const EVENT_ROWS: EventRows = (
    Member("iat", PhantomData),
    (
        Member("exp", PhantomData),
        (Member("jti", PhantomData), (Member("sid", PhantomData), ())),
    ),
);

// The claims, and the object of the other claims.
#[derive(Drop)]
pub(crate) struct AllClaims {
    pub(crate) claims: LogoutTokenClaims,
    pub(crate) others: Value,
}

impl FromJson for AllClaims {
    ghost Meaning = { WithOthers LogoutClaims };

    ghost meaning = { λ c. with_others c.claims (view c.others) };

    ghost reading = { claims_reading };

    fn from_json(alloc: Global, value: Value) -> Result<AllClaims, ReadError> {
        let (read, others) = read_value_and_others(&ROWS, alloc, value)?;
        let (issuer, (subject, (audience, (issued_at, (expires_at, identifiers))))) = read;
        let (token_id, (session_id, ())) = identifiers;
        let claims = LogoutTokenClaims {
            issuer,
            subject,
            audience,
            issued_at: issued_at.0,
            expires_at: expires_at.0,
            token_id,
            session_id,
        };
        Ok(AllClaims { claims, others })
    }
}
