//! The laws, each as the contract of a function.

ghost use Rattle.oauth2_login_laws.specs.Finish.{EachFinishIsAnEvent};
ghost use Rattle.oauth2_login_laws.specs.Laws.{
  EachAnswerIsTaken,
  EachCodeGoesToItsServer,
  EachLoginAsksOnce,
  EachLoginFinishesOnce,
  EachRequestHasItsNumber,
  EachRequestIsItsLogins,
  EachStateNamesOneLogin,
  EachTokenAnswersItsRequest,
  EndedLoginIsNotUsed,
  NothingIsSentForOthers,
};

use oauth2::{ErrorResponse, SyncHttpClient, TokenResponse};

/// What `finish` of a `Login` does is an event of these runs, so each law holds of it.
pub fn each_finish_is_an_event<C, TE, TR>()
where
    C: SyncHttpClient,
    TE: ErrorResponse,
    TR: TokenResponse,
    ensures { EachFinishIsAnEvent TR.meaning TE.meaning TR.reading TE.reading C.is_ready C.step }
{}

/// A request is sent only for a login that began, on a redirect that answers it, and it is that
/// login's.
pub fn each_request_is_its_logins()
    ensures { EachRequestIsItsLogins }
{}

/// If no two logins have one state, it is the only login that the redirect's state names.
pub fn each_state_names_one_login()
    ensures { EachStateNamesOneLogin }
{}

/// A redirect that answers a login, and has a code, is not refused.
pub fn each_answer_is_taken()
    ensures { EachAnswerIsTaken }
{}

/// A login asks at most once.
pub fn each_login_asks_once()
    ensures { EachLoginAsksOnce }
{}

/// A login hands out a token at most once.
pub fn each_login_finishes_once()
    ensures { EachLoginFinishesOnce }
{}

/// A code is sent to the server that it came from, if at all (RFC 9700, section 4.4).
pub fn each_code_goes_to_its_server()
    ensures { EachCodeGoesToItsServer }
{}

/// Nothing is sent for a redirect that answers no login.
pub fn nothing_is_sent_for_others()
    ensures { NothingIsSentForOthers }
{}

/// A token that a login ends with is the reply to its own request.
pub fn each_token_answers_its_request()
    ensures { EachTokenAnswersItsRequest }
{}

/// A number names one request.
pub fn each_request_has_its_number()
    ensures { EachRequestHasItsNumber }
{}

/// A login that ended is not used again.
pub fn ended_login_is_not_used()
    ensures { EndedLoginIsNotUsed }
{}
