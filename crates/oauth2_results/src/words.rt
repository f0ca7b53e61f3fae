//! The words for kinds and causes of faults.

ghost use Rattle.std.specs.Prelude.{◌≡◌};
ghost use Rattle.std.specs.List.{Contains};
ghost use Rattle.oauth2_world.specs.declared.event.FaultKind.{FaultKind as Kind};
ghost use Rattle.oauth2_results.specs.Words as spec;

use oauth2_json::ParseCause;
use oauth2_world::FaultKind;

/// The word for a kind of fault in the JSON result.
pub fn kind_word(kind: FaultKind) -> &'static str
    ensures { result.now ≡ spec.kind_word kind }
{
    match kind {
        FaultKind::MissingEndpoint => "missing_endpoint",
        FaultKind::InsecureEndpoint => "insecure_endpoint",
        FaultKind::RequestFailed => "request_failed",
        FaultKind::ErrorResponse => "error_response",
        FaultKind::UnreadReply => "unread_reply",
        FaultKind::OtherTokenType => "other_token_type",
        FaultKind::OtherError => "other_error",
        FaultKind::OutOfMemory => "out_of_memory",
        FaultKind::RefusedRedirect => "refused_redirect",
        FaultKind::OtherClient => "other_client",
        FaultKind::OtherTokenEndpoint => "other_token_endpoint",
        FaultKind::OtherRedirectUri => "other_redirect_uri",
        FaultKind::OtherStatus => "other_status",
        FaultKind::BadMetadata => "bad_metadata",
        FaultKind::OtherIssuer => "other_issuer",
        FaultKind::BadIssuer => "bad_issuer",
        FaultKind::BadToken => "bad_token",
        FaultKind::BadClaims => "bad_claims",
        FaultKind::BadSignature => "bad_signature",
        FaultKind::UncheckedSignature => "unchecked_signature",
        FaultKind::BadKeys => "bad_keys",
        FaultKind::BadAccessToken => "bad_access_token",
        FaultKind::TakenParameter => "taken_parameter",
        FaultKind::BadPush => "bad_push",
    }
}

/// The words for all kinds of faults, each with a newline behind it.
pub fn kinds_text() -> &'static str
    ensures text { result.now ≡ spec.kinds_text }
    ensures all { (kind : Kind) → Contains spec.kinds kind }
{
    "missing_endpoint\n\
     insecure_endpoint\n\
     request_failed\n\
     error_response\n\
     unread_reply\n\
     other_token_type\n\
     other_error\n\
     out_of_memory\n\
     refused_redirect\n\
     other_client\n\
     other_token_endpoint\n\
     other_redirect_uri\n\
     other_status\n\
     bad_metadata\n\
     other_issuer\n\
     bad_issuer\n\
     bad_token\n\
     bad_claims\n\
     bad_signature\n\
     unchecked_signature\n\
     bad_keys\n\
     bad_access_token\n\
     taken_parameter\n\
     bad_push\n"
}

/// The name of the cause why a body could not be read.
pub fn cause_name(cause: ParseCause) -> &'static str
    ensures { result.now ≡ spec.cause_name cause }
{
    match cause {
        ParseCause::NotJson => "NotJson",
        ParseCause::NotObject => "NotObject",
        ParseCause::Missing => "Missing",
        ParseCause::WrongType => "WrongType",
        ParseCause::NotWhole => "NotWhole",
        ParseCause::OutOfRange => "OutOfRange",
        ParseCause::BadUrl => "BadUrl",
        ParseCause::BothNames => "BothNames",
        ParseCause::Refused => "Refused",
    }
}
