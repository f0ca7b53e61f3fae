//! The member `authorization_details` of a token response (RFC 9396, section 7).

ghost use Rattle.std.specs.Prelude.{codes};
ghost use Rattle.serde_json.specs.Data.{Data};
ghost use Rattle.oauth2_grants.specs.authorization_details.Details.{details_reading};
ghost use Rattle.oauth2_grants.specs.authorization_details.Shown.{details_of};
ghost use Rattle.oauth2_grants.specs.authorization_details.private.ReadBack.{details_read_back};

use crate::authorization_details::authorization_details::AuthorizationDetails;
use oauth2_extra_fields::{MemberValue, NamedMember, WithMember};
use oauth2_json::{FromJson, ParseCause, ReadError, members};
use oauth2_replies::EmptyExtraTokenFields;
use serde_json::Value;
use std::alloc::{AllocError, Global};

/// The extra fields of a token response that may tell which details were granted:
/// `StandardTokenResponse<AuthorizationDetailsFields, BasicTokenType>`.
pub type AuthorizationDetailsFields = WithMember<AuthorizationDetailsMember, EmptyExtraTokenFields>;

/// The member `authorization_details`.
pub struct AuthorizationDetailsMember;

impl NamedMember for AuthorizationDetailsMember {
    type Value = AuthorizationDetails;

    ghost name = { codes "authorization_details" };

    fn name() -> &'static str {
        "authorization_details"
    }
}

/// An array of objects with a text under `type`; any other value is `Refused`.
impl FromJson for AuthorizationDetails {
    ghost Meaning = { Data };

    ghost meaning = { details_of };

    ghost reading = { details_reading };

    #[tactic(auto, using(crate::proofs::authorization_details::Judged::read_whole, crate::proofs::authorization_details::Judged::refused))]
    fn from_json(alloc: Global, value: Value) -> Result<AuthorizationDetails, ReadError> {
        match AuthorizationDetails::from_value(value) {
            Ok(details) => Ok(details),
            Err(_) => Err(ReadError::whole(alloc, ParseCause::Refused)),
        }
    }
}

impl MemberValue for AuthorizationDetails {
    ghost Meaning = { Data };

    ghost meaning = { details_of };

    ghost reading = { details_reading };

    ghost written = { details_of };

    ghost reads_back = { details_read_back };

    fn read_member(
        alloc: Global,
        name: &str,
        found: Option<Value>,
    ) -> Result<Option<AuthorizationDetails>, ReadError> {
        members::optional(alloc, name, found)
    }

    fn member_value(
        _alloc: Global,
        details: &Option<AuthorizationDetails>,
    ) -> Result<Option<Value>, AllocError> {
        match details {
            Some(details) => Ok(Some(details.as_value().clone()?)),
            None => Ok(None),
        }
    }

    fn try_copy(&self, _alloc: Global) -> Result<AuthorizationDetails, AllocError> {
        self.copy()
    }
}
