//! The claims of an ID token as a JSON object.

ghost use Rattle.serde_json.specs.View.{view};
ghost use Rattle.oauth2_openid.specs.Claims.{Claims};
ghost use Rattle.oauth2_openid.specs.Token.{WithOthers, with_others};
ghost use Rattle.oauth2_openid.specs.Reading.{claims_reading};

use crate::claims::IdTokenClaims;
use crate::nonce::Nonce;
use crate::numeric_date::NumericDate;
use crate::unneeded::{UnneededText, UnneededTexts, UnneededTime, put_back};
use oauth2_json::{FromJson, ReadError};
use oauth2_member_rows::{Member, Needed, NeededTexts, Optional, read_value_and_others};
use serde_json::Value;
use std::alloc::Global;
use std::marker::PhantomData;

// Who issued the token about whom, for whom, and when.
type ClaimRows = (
    Member<Needed<String>>,
    (
        Member<Needed<String>>,
        (
            Member<NeededTexts>,
            (
                Member<Needed<NumericDate>>,
                (Member<Needed<NumericDate>>, LoginRows),
            ),
        ),
    ),
);

// How the user logged in, and what the token is bound to.
type LoginRows = (
    Member<UnneededTime>,
    (
        Member<Optional<Nonce>>,
        (
            Member<UnneededText>,
            (
                Member<UnneededTexts>,
                (Member<Optional<String>>, (Member<Optional<String>>, ())),
            ),
        ),
    ),
);

const ROWS: ClaimRows = (
    Member("iss", PhantomData),
    (
        Member("sub", PhantomData),
        (
            Member("aud", PhantomData),
            (
                Member("exp", PhantomData),
                (Member("iat", PhantomData), LOGIN_ROWS),
            ),
        ),
    ),
);

const LOGIN_ROWS: LoginRows = (
    Member("auth_time", PhantomData),
    (
        Member("nonce", PhantomData),
        (
            Member("acr", PhantomData),
            (
                Member("amr", PhantomData),
                (
                    Member("azp", PhantomData),
                    (Member("at_hash", PhantomData), ()),
                ),
            ),
        ),
    ),
);

// The claims, and the object of the other members.
#[derive(Drop)]
pub(crate) struct AllClaims {
    pub(crate) claims: IdTokenClaims,
    pub(crate) others: Value,
}

impl FromJson for AllClaims {
    ghost Meaning = { WithOthers Claims };

    ghost meaning = { λ c. with_others c.claims (view c.others) };

    ghost reading = { claims_reading };

    // The claims that no rule needs and that can't be read are put back among the others.
    fn from_json(alloc: Global, value: Value) -> Result<AllClaims, ReadError> {
        let (read, others) = read_value_and_others(&ROWS, alloc, value)?;
        let (issuer, (subject, (audience, (expires_at, (issued_at, login))))) = read;
        let (auth_time, (nonce, (class, (methods, (authorized_party, bound))))) = login;
        let (access_token_hash, ()) = bound;
        let others = put_back(alloc, others, "amr", methods.left)?;
        let others = put_back(alloc, others, "acr", class.left)?;
        let others = put_back(alloc, others, "auth_time", auth_time.left)?;
        let claims = IdTokenClaims {
            issuer,
            subject,
            audience,
            expires_at: expires_at.0,
            issued_at: issued_at.0,
            auth_time: auth_time.said,
            nonce,
            authentication_context_class: class.said,
            authentication_methods: methods.said,
            authorized_party,
            access_token_hash,
        };
        Ok(AllClaims { claims, others })
    }
}
