//! The command `refresh`: a refresh token is exchanged for a token.

ghost use Rattle.std.specs.Prelude.{◌≡◌, false, IfOk, refl};
ghost use Rattle.oauth2_request_commands.specs.Refresh as spec;
ghost use Rattle.oauth2_request_commands.specs.Out.{Adds};
ghost use Rattle.oauth2_world.specs.Replay.{client_replies};
ghost use Rattle.oauth2_script.specs.Views.{refresh_view};

use crate::answer::{show_configuration_error, show_token};
use crate::client::ScriptClient;
use crate::extra::{Extensible, with_extra};
use crate::status::RunStatus;
use oauth2::basic::{BasicErrorResponse, BasicTokenResponse};
use oauth2::{ParamText, RefreshTokenRequest};
use oauth2_script::RefreshParams;
use oauth2_world::ScriptedClient;
use std::alloc::{AllocError, Global};

type RefreshRequest<'a> = RefreshTokenRequest<'a, BasicErrorResponse, BasicTokenResponse>;

impl<'a> Extensible<'a> for RefreshRequest<'a> {
    ghost with_params = { λ r f. record r {
      base = record r.base { extra_params = f r.base.extra_params };
    } };

    ghost laws = { λ r f g. (refl, refl) };

    fn with_pair(self, name: &'a str, value: &'a str) -> Result<Self, AllocError> {
        self.add_extra_param(ParamText::Borrowed(name), ParamText::Borrowed(value))
    }
}

/// Asks for a token, and shows the request and its result (RFC 6749, section 6).
pub fn run_refresh(
    alloc: Global,
    client: &ScriptClient,
    params: RefreshParams,
    http_client: &mut ScriptedClient,
) -> Result<RunStatus, AllocError>
    ensures { IfOk result (λ status. http_client.new.is_starved ≡ false
        → Adds http_client.old.events http_client.new.events status
        (spec.IsRefreshOutput client.now (refresh_view params) (client_replies http_client.old))) }
{
    let refresh_token = params.refresh_token;
    match client.exchange_refresh_token(alloc, &refresh_token) {
        Ok(request) => {
            let scoped = request.add_scopes(params.scopes)?;
            let asked = with_extra(scoped, params.extra_params.as_slice())?;
            let end = asked.request(alloc, http_client);
            show_token(alloc, http_client, &end)
        }
        Err(error) => show_configuration_error(alloc, &mut http_client.events, &error),
    }
}
