//! The command `introspect`: the client asks the server whether a token is active.

ghost use Rattle.std.specs.Prelude.{◌≡◌, false, option_map, string_bytes, IfOk, refl};
ghost use Rattle.oauth2_request_commands.specs.Client.{given_or};
ghost use Rattle.oauth2_request_commands.specs.Introspect as spec;
ghost use Rattle.oauth2_request_commands.specs.Out.{Adds};
ghost use Rattle.oauth2_world.specs.Replay.{client_replies};
ghost use Rattle.oauth2_script.specs.Views.{introspect_view};

use crate::answer::{show_configuration_error, show_end};
use crate::client::ScriptClient;
use crate::extra::{Extensible, with_extra};
use crate::status::RunStatus;
use oauth2::basic::{BasicErrorResponse, BasicTokenIntrospectionResponse};
use oauth2::{IntrospectionRequest, ParamText};
use oauth2_script::IntrospectParams;
use oauth2_world::ScriptedClient;
use std::alloc::{AllocError, Global};

type Introspection<'a> = IntrospectionRequest<
    'a,
    BasicErrorResponse,
    BasicTokenIntrospectionResponse,
>;

impl<'a> Extensible<'a> for Introspection<'a> {
    ghost with_params = { λ r f. record r {
      base = record r.base { extra_params = f r.base.extra_params };
    } };

    ghost laws = { λ r f g. (refl, refl) };

    fn with_pair(self, name: &'a str, value: &'a str) -> Result<Self, AllocError> {
        self.add_extra_param(ParamText::Borrowed(name), ParamText::Borrowed(value))
    }
}

fn with_hint<'a>(request: Introspection<'a>, hint: Option<String>) -> Introspection<'a>
    ensures { result ≡ record request.entry {
      token_type_hint = given_or (option_map string_bytes hint) request.entry.token_type_hint;
    } }
{
    match hint {
        Some(hint) => request.set_token_type_hint(ParamText::Owned(hint)),
        None => request,
    }
}

/// Asks whether a token is active, and shows the request and its result (RFC 7662, section 2.1).
pub fn run_introspect(
    alloc: Global,
    client: &ScriptClient,
    params: IntrospectParams,
    http_client: &mut ScriptedClient,
) -> Result<RunStatus, AllocError>
    ensures { IfOk result (λ status. http_client.new.is_starved ≡ false
        → Adds http_client.old.events http_client.new.events status
        (spec.IsIntrospectOutput client.now (introspect_view params)
        (client_replies http_client.old))) }
{
    let token = params.token;
    match client.introspect(alloc, &token) {
        Ok(request) => {
            let hinted = with_hint(request, params.hint);
            let asked = with_extra(hinted, params.extra_params.as_slice())?;
            let end = asked.request(alloc, http_client);
            show_end(alloc, &mut http_client.events, &end)
        }
        Err(error) => show_configuration_error(alloc, &mut http_client.events, &error),
    }
}
