//! The client of a script.

ghost use Rattle.std.specs.Prelude.{◌≡◌};
ghost use Rattle.oauth2_request_commands.specs.Client.{settings_of};
ghost use Rattle.oauth2_script.specs.Views.{client_view};

use oauth2::EndpointMaybeSet;
use oauth2::basic::BasicClient;
use oauth2_script::{ClientEndpoints, ClientPart};

/// A client of a script: each of its endpoints may be set or not.
pub type ScriptClient = BasicClient<
    EndpointMaybeSet,
    EndpointMaybeSet,
    EndpointMaybeSet,
    EndpointMaybeSet,
    EndpointMaybeSet,
>;

/// The client that the member `client` of a script describes.
pub fn client_of(part: ClientPart) -> ScriptClient
    ensures { result ≡ settings_of (client_view part) }
{
    let ClientPart {
        id,
        secret,
        auth_type,
        reply_rule,
        redirect,
        endpoints,
        adapters: _,
    } = part;
    let ClientEndpoints {
        auth,
        token,
        device,
        introspection,
        revocation,
        push: _,
    } = endpoints;
    let mut client = BasicClient::new(id)
        .set_auth_type(auth_type)
        .set_reply_rule(reply_rule)
        .set_auth_uri_option(auth)
        .set_token_uri_option(token)
        .set_device_authorization_url_option(device)
        .set_introspection_url_option(introspection)
        .set_revocation_url_option(revocation);
    if let Some(secret) = secret {
        client = client.set_client_secret(secret);
    }
    if let Some(redirect) = redirect {
        client = client.set_redirect_uri(redirect);
    }
    client
}
