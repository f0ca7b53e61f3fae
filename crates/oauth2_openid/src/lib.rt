//! The ID token of OpenID Connect Core 1.0: what it says, and whether its claims are those that a
//! client expects. Its signature is not checked here.

#![tactic(auto)]

mod access_token_hash;
mod claims;
mod claims_error;
mod claims_json;
mod compact;
mod compact_token;
mod expected;
mod fields;
mod header;
mod id_token;
mod issuer_rule;
pub mod kinds;
mod law;
mod nonce;
mod numeric_date;
mod read_error;
pub mod texts;
mod unneeded;

pub use access_token_hash::AccessTokenHash;
pub use claims::IdTokenClaims;
pub use claims_error::ClaimsError;
pub use compact_token::CompactToken;
pub use expected::Expected;
pub use fields::{IdTokenFields, IdTokenMember, IdTokenText};
pub use header::IdTokenHeader;
pub use id_token::IdToken;
pub use issuer_rule::IssuerRule;
pub use law::{base64url_alone_reads_to_its_bytes, parts_are_between_dots};
pub use nonce::Nonce;
pub use numeric_date::NumericDate;
pub use read_error::{IdTokenReadError, TokenPart};
