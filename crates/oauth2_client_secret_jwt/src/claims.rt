//! The claims of an assertion (RFC 7523, section 3; OpenID Connect Core 1.0, section 9).

ghost use Rattle.std.specs.Prelude.{◌≡◌, ◌+◌, ◌<◌, ◌^◌, IfOk, IfSome, string_bytes};
ghost use Rattle.serde_json.specs.View.{view};
ghost use Rattle.oauth2_client_secret_jwt.specs.Assertion.{claims_data, claims_text};
ghost use Rattle.oauth2_client_secret_jwt.specs.Assertion.{second_since_1970};

use jiff::Timestamp;
use serde_json::{Value, json};
use std::alloc::{AllocError, Global};

// The whole seconds of a time since 1970; none if it is before that.
pub(crate) fn second_since_1970(moment: Timestamp) -> Option<u64>
    ensures value { result ≡ second_since_1970 moment.nanosecond }
    ensures fits { IfSome result (λ second. second < 2 ^ 40) }
{
    match u128::try_from(moment.as_nanosecond()) {
        Ok(nanosecond) => Some((nanosecond / 1_000_000_000) as u64),
        Err(_) => None,
    }
}

fn claims_value(
    alloc: Global,
    client_id: &str,
    audience: &str,
    identifier: &str,
    issued_at: u64,
    expires_at: u64,
) -> Result<Value, AllocError>
    ensures { IfOk result (λ v. view v
        ≡ claims_data client_id.now audience.now identifier.now issued_at expires_at) }
{
    json!(in alloc; {
        "aud": audience,
        "exp": expires_at,
        "iat": issued_at,
        "iss": client_id,
        "jti": identifier,
        "sub": client_id
    })
}

// The claims as a compact JSON text.
#[tactic(auto, unfolding(crate::specs::Assertion::claims_text))]
pub(crate) fn claims_text(
    alloc: Global,
    client_id: &str,
    audience: &str,
    identifier: &str,
    issued_at: u64,
    lifetime: u32,
) -> Result<String, AllocError>
    requires { issued_at < 2 ^ 40 }
    ensures { IfOk result (λ text. string_bytes text
        ≡ claims_text client_id.now audience.now identifier.now issued_at (issued_at + lifetime)) }
{
    let expires_at = issued_at + u64::from(lifetime);
    let value = claims_value(
        alloc, client_id, audience, identifier, issued_at, expires_at,
    )?;
    value.to_string(alloc)
}
