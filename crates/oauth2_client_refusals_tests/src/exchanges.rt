//! The exchange of a code, from the call to its result.

ghost use Rattle.std.specs.Prelude.{◌≡◌, IfOk, Some};
ghost use Rattle.oauth2_wire.specs.Reply.{HttpResponse, accepted, answer_of, reply_of};
ghost use Rattle.oauth2_client_refusals_tests.specs.Counted.{TellsCalls};

use crate::clients::RowClient;
use crate::counting_client::{CountingClient, NoReply};
use crate::replies::{ReplyTexts, ready_reply};
use crate::show::show_answer;
use oauth2::basic::{BasicErrorResponse, BasicRequestTokenError, BasicTokenResponse};
use oauth2::{AuthorizationCode, FromJson};
use oauth2_refusals_support::{Ended, text};
use std::alloc::Global;
use std::io::Write;

/// Exchanges a code for a token, by an HTTP client that was not called before.
pub fn exchange(
    alloc: Global,
    client: &RowClient,
    code: AuthorizationCode,
    http_client: &mut CountingClient,
) -> Result<BasicTokenResponse, BasicRequestTokenError<NoReply>>
    requires { http_client.old.calls ≡ 0 }
    ensures token { IfOk result (λ token. (reply : HttpResponse)
        × (http_client.old.reply ≡ Some reply)
        × (answer_of client.now.reply_rule ⟦<BasicTokenResponse as FromJson>⟧.reading
        ⟦<BasicErrorResponse as FromJson>⟧.reading (reply_of reply)
        ≡ accepted (⟦<BasicTokenResponse as FromJson>⟧.meaning token))) }
    ensures calls { TellsCalls result http_client.new }
{
    client
        .exchange_code(alloc, code)
        .request(alloc, http_client)
}

/// Exchanges the code `ccc` by an HTTP client that returns this reply, and prints the result.
pub fn show_exchange<W: Write>(
    alloc: Global,
    client: &RowClient,
    reply: ReplyTexts<'_>,
    out: &mut W,
) -> Result<(), Ended> {
    let code = AuthorizationCode::new(text(alloc, "ccc")?);
    let mut http_client = CountingClient::new(ready_reply(alloc, reply)?);
    let answer = exchange(alloc, client, code, &mut http_client);
    show_exchanged(out, http_client.calls, &answer)
}

// Prints how often the HTTP client was called, and the token.
fn show_exchanged<W: Write>(
    out: &mut W,
    calls: u64,
    answer: &Result<BasicTokenResponse, BasicRequestTokenError<NoReply>>,
) -> Result<(), Ended> {
    writeln!(out, "calls {calls}")?;
    show_answer(out, answer)
}
