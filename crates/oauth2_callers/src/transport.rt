//! A function that sends requests, in place of an HTTP client.

ghost use Rattle.std.specs.Prelude.{◌≡◌, ◌⊎◌, Some, Err};
ghost use Rattle.http_uri.specs.Uri.{SpellsNone};
ghost use Rattle.url.specs.Parts.{serialize};
ghost use Rattle.oauth2_urls.specs.Addressed.{Addressed};
ghost use Rattle.oauth2_wire.specs.Reply.{HttpResponse, ShowsAnswer, answer_of, reply_of};
ghost use Rattle.oauth2_wire.specs.Request.{HttpRequest, IsRequestOf, view_of};
ghost use Rattle.oauth2_requests.specs.Code.{code_configuration};
ghost use Rattle.oauth2.specs.NewRequest.{new_code_request};
ghost use Rattle.oauth2_wire.specs.declared.error.RequestTokenError.TheVariants.{Request};

use crate::client::CodeClient;
use oauth2::basic::{BasicErrorResponse, BasicRequestTokenError, BasicTokenResponse};
use oauth2::{
    AuthorizationCode, FromJson, HttpRequest, HttpResponse, RequestFault, endpoint_response_with,
};
use std::alloc::Global;

/// Exchanges a code for a token, by a function that returns a reply to each request. The result is
/// what the reply to this request says, or why no request could be made.
pub fn token_over<F: FnOnce(HttpRequest) -> HttpResponse>(
    alloc: Global,
    client: &CodeClient,
    code: AuthorizationCode,
    round_trip: F,
) -> Result<BasicTokenResponse, BasicRequestTokenError<RequestFault>>
    requires { F.IsAlwaysCallable round_trip }
    ensures { (endpoint : Addressed) × (client.now.token_url ≡ Some endpoint)
        × (((request : HttpRequest)
        × IsRequestOf (code_configuration (new_code_request client.now endpoint code))
        (serialize endpoint.url) (view_of request)
        × (reply : HttpResponse) × F.post round_trip request reply
        × ShowsAnswer ⟦<BasicTokenResponse as FromJson>⟧.meaning
        ⟦<BasicErrorResponse as FromJson>⟧.meaning
        (answer_of client.now.reply_rule ⟦<BasicTokenResponse as FromJson>⟧.reading
        ⟦<BasicErrorResponse as FromJson>⟧.reading (reply_of reply)) result)
        ⊎ ((result ≡ Err (Request RequestFault.NotHttp)) × SpellsNone (serialize endpoint.url))
        ⊎ (result ≡ Err (Request RequestFault.Memory))) }
{
    let request = client.exchange_code(alloc, code).prepare_request(alloc)?;
    let reply = round_trip(request);
    endpoint_response_with(alloc, client.reply_rule(), reply)
}
