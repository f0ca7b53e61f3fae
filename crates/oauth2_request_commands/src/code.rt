//! The command `code`: an authorization code is exchanged for a token.

ghost use Rattle.std.specs.Prelude.{◌≡◌, false, IfOk, refl};
ghost use Rattle.oauth2_request_commands.specs.Code as spec;
ghost use Rattle.oauth2_request_commands.specs.Out.{Adds};
ghost use Rattle.oauth2_world.specs.Replay.{client_replies};
ghost use Rattle.oauth2_script.specs.Views.{code_view};
ghost use Rattle.oauth2_request_commands.specs.Client.{given_or};

use crate::answer::{show_configuration_error, show_token};
use crate::client::ScriptClient;
use crate::extra::{Extensible, with_extra};
use crate::status::RunStatus;
use oauth2::basic::{BasicErrorResponse, BasicTokenResponse};
use oauth2::{CodeTokenRequest, ParamText, PkceCodeVerifier, RedirectRef, RedirectUrl};
use oauth2_script::CodeParams;
use oauth2_world::ScriptedClient;
use std::alloc::{AllocError, Global};

type CodeRequest<'a> = CodeTokenRequest<'a, BasicErrorResponse, BasicTokenResponse>;

impl<'a> Extensible<'a> for CodeRequest<'a> {
    ghost with_params = { λ r f. record r {
      base = record r.base { extra_params = f r.base.extra_params };
    } };

    ghost laws = { λ r f g. (refl, refl) };

    fn with_pair(self, name: &'a str, value: &'a str) -> Result<Self, AllocError> {
        self.add_extra_param(ParamText::Borrowed(name), ParamText::Borrowed(value))
    }
}

fn with_verifier<'a>(
    request: CodeRequest<'a>,
    verifier: Option<PkceCodeVerifier>,
) -> CodeRequest<'a>
    ensures { result ≡ record request.entry {
      pkce_verifier = given_or verifier request.entry.pkce_verifier;
    } }
{
    match verifier {
        Some(verifier) => request.set_pkce_verifier(verifier),
        None => request,
    }
}

fn with_redirect<'a>(request: CodeRequest<'a>, redirect: Option<RedirectUrl>) -> CodeRequest<'a>
    ensures { result ≡ record request.entry {
      redirect_url = given_or redirect request.entry.redirect_url;
    } }
{
    match redirect {
        Some(redirect) => request.set_redirect_uri(RedirectRef::Owned(redirect)),
        None => request,
    }
}

/// Exchanges a code for a token, and shows the request and its result (RFC 6749, section 4.1.3).
pub fn run_code(
    alloc: Global,
    client: &ScriptClient,
    params: CodeParams,
    http_client: &mut ScriptedClient,
) -> Result<RunStatus, AllocError>
    ensures { IfOk result (λ status. http_client.new.is_starved ≡ false
        → Adds http_client.old.events http_client.new.events status
        (spec.IsCodeOutput client.now (code_view params) (client_replies http_client.old))) }
{
    match client.exchange_code(alloc, params.code) {
        Ok(request) => {
            let verified = with_verifier(request, params.verifier);
            let redirected = with_redirect(verified, params.redirect);
            let asked = with_extra(redirected, params.extra_params.as_slice())?;
            let end = asked.request(alloc, http_client);
            show_token(alloc, http_client, &end)
        }
        Err(error) => show_configuration_error(alloc, &mut http_client.events, &error),
    }
}
