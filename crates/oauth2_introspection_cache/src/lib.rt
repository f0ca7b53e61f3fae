//! Answers of an introspection endpoint, kept for the tokens that a resource server was sent (RFC
//! 7662, 4), and what it decides by them about a request.

#![tactic(auto)]

mod accepted;
mod confirmation;
mod introspection_cache;
mod kept_answer;
mod laws;
mod refusal;

pub use accepted::{AcceptedAudience, AcceptedIssuer, AcceptedTokens, SenderConstraint};
pub use confirmation::{
    Confirmation, ConfirmationFields, ConfirmedIntrospectionResponse, ResourceServerClient,
    TellsConfirmation,
};
pub use introspection_cache::{BasicIntrospectionCache, IntrospectionCache};
pub use laws::{
    each_answer_was_told, each_forgotten_token_is_asked_about, each_outcome_is_kept,
    lent_answer_is_a_call,
};
pub use refusal::{NotAuthorized, TokenRefusal, decision};
