//! What a reply means to a device that polls (RFC 8628, section 3.5).

ghost use Rattle.oauth2_wire.specs.Reply.{Answer, ShowsAnswer};
ghost use Rattle.oauth2_device.specs.Poll.{DeviceError, SaysExpired, device_error};
ghost use Rattle.oauth2_device.specs.private.Round.{IsVerdict, OrMemory};

use oauth2_codes::{DeviceCodeErrorResponse, DeviceCodeErrorResponseType};
use oauth2_poll::PollAnswer;
use oauth2_replies::TokenResponse;
use oauth2_wire::RequestTokenError;
use std::alloc::{AllocError, Global};

// The error of a poll.
pub(crate) type PollError<RE> = RequestTokenError<RE, DeviceCodeErrorResponse>;

// What the result of a request means to a poll: it goes on, or it ends with this result.
pub(crate) enum Verdict<TR, RE> {
    Again(PollAnswer),
    Decided(Result<TR, PollError<RE>>),
}

// What a reply that was read means to a poll.
pub(crate) fn judge_answer<RE, TR: TokenResponse>(
    answer: Result<TR, PollError<RE>>,
) -> Verdict<TR, RE>
    ensures { (said : Answer TR.Meaning DeviceError)
        → ShowsAnswer TR.meaning device_error said answer → IsVerdict TR.meaning said result }
{
    match answer {
        Err(RequestTokenError::ServerResponse(error)) => match error.error() {
            DeviceCodeErrorResponseType::AuthorizationPending => {
                Verdict::Again(PollAnswer::Pending)
            }
            DeviceCodeErrorResponseType::SlowDown => Verdict::Again(PollAnswer::SlowDown),
            _ => Verdict::Decided(Err(RequestTokenError::ServerResponse(error))),
        },
        answer => Verdict::Decided(answer),
    }
}

// The error after the deadline: `ServerResponse` with the code `ExpiredToken`, or `Memory { sent }`
// if memory runs out.
pub(crate) fn expired_token_error<RE>(alloc: Global, sent: bool) -> PollError<RE>
    ensures { OrMemory SaysExpired sent result }
{
    match String::from_str(alloc, "This device code has expired.") {
        Ok(description) => RequestTokenError::ServerResponse(DeviceCodeErrorResponse::new(
            DeviceCodeErrorResponseType::ExpiredToken,
            Some(description),
            None,
        )),
        Err(AllocError) => RequestTokenError::Memory { sent },
    }
}
