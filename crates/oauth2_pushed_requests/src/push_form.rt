//! The POST that pushes the parameters of an authorization URL.

ghost use Rattle.std.specs.Prelude.{◌≡◌, ◌++◌, Err, IfOk, None, map};
ghost use Rattle.form_urlencoded.specs.Form.{pair_text};
ghost use Rattle.http_uri.specs.Uri.{SpellsNone};
ghost use Rattle.url.specs.Parts.{serialize};
ghost use Rattle.oauth2_wire.specs.Expected.{basic_credentials};
ghost use Rattle.oauth2_wire.specs.Request.{IsRequestOf, view_of};
ghost use Rattle.oauth2_pushed_requests.specs.Pushed.{
  after_name,
  before_name,
  front_pairs,
  identifier,
  pushed_configuration,
};
ghost use Rattle.oauth2_pushed_requests.specs.private.Read.{pair_texts};

use crate::pushing_client::PushingClient;
use crate::query_pairs::is_named;
use oauth2_form::ParamBuffer;
use oauth2_wire::{AuthType, HttpRequest, RequestFault, endpoint_request_encoded};
use std::alloc::{AllocError, Global};

const CLIENT_ID: &str = "client_id";

// Builds the POST of these parameters to the endpoint of the client.
pub(crate) fn push_form(
    alloc: Global,
    client: &PushingClient<'_>,
    pairs: &[(String, String)],
) -> Result<HttpRequest, RequestFault>
    ensures ok { IfOk result (λ r. IsRequestOf
        (pushed_configuration (record { client = client.now; pairs = map pair_texts pairs.now }))
        (serialize client.now.endpoint) (view_of r)) }
    ensures not_http { result ≡ Err RequestFault.NotHttp → SpellsNone (serialize client.now.endpoint) }
{
    let params = params_of(alloc, after_name(pairs, CLIENT_ID))?;
    match front_pairs(alloc, client, pairs) {
        Ok(own) => endpoint_request_encoded(
            alloc,
            client.auth_type,
            client.client_id,
            client.client_secret,
            &params,
            None,
            client.endpoint,
            own.as_slice(),
        ),
        Err(AllocError) => Err(RequestFault::Memory),
    }
}

// The parameters up to `client_id`.
fn front_pairs<'p>(
    alloc: Global,
    client: &'p PushingClient<'_>,
    pairs: &'p [(String, String)],
) -> Result<Vec<(&'p str, &'p str)>, AllocError>
    ensures { IfOk result (λ front. map pair_text front.items
        ≡ front_pairs client.now (map pair_texts pairs.now)) }
{
    let before = before_name(alloc, pairs, CLIENT_ID)?;
    with_identifier(before, client)
}

// The parameters with `client_id` at the end, if the client's credentials go by the header.
fn with_identifier<'p>(
    pairs: Vec<(&'p str, &'p str)>,
    client: &'p PushingClient<'_>,
) -> Result<Vec<(&'p str, &'p str)>, AllocError>
    ensures { let c = client.now in
        let credentials = basic_credentials c.auth_type c.client_id c.client_secret in
        IfOk result (λ all. map pair_text all.items
        ≡ map pair_text pairs.entry.items ++ identifier credentials c.client_id) }
{
    match (client.auth_type, client.client_secret) {
        (AuthType::BasicAuth, Some(_)) => {
            let mut all = pairs;
            all.push((CLIENT_ID, client.client_id.as_str()))?;
            Ok(all)
        }
        _ => Ok(pairs),
    }
}

// The parameters before the first one with this name.
fn before_name<'p>(
    alloc: Global,
    pairs: &'p [(String, String)],
    name: &str,
) -> Result<Vec<(&'p str, &'p str)>, AllocError>
    ensures { IfOk result (λ before. map pair_text before.items
        ≡ before_name name.now (map pair_texts pairs.now)) }
{
    let mut before = Vec::new(alloc);
    for pair in pairs {
        if is_named(pair, name) {
            return Ok(before);
        }
        before.push((pair.0.as_str(), pair.1.as_str()))?;
    }
    Ok(before)
}

// The parameters after the first one with this name.
fn after_name<'p>(pairs: &'p [(String, String)], name: &str) -> &'p [(String, String)]
    ensures { map pair_texts result.now ≡ after_name name.now (map pair_texts pairs.now) }
{
    let mut rest = pairs;
    while let [pair, others @ ..] = rest {
        if is_named(pair, name) {
            return others;
        }
        rest = others;
    }
    rest
}

// The parameters as those of a request, in order.
fn params_of(alloc: Global, pairs: &[(String, String)]) -> Result<ParamBuffer, AllocError>
    ensures { IfOk result (λ params. params ≡ record {
      scope = None;
      extra_params = map pair_texts pairs.now;
    }) }
{
    let mut params = ParamBuffer::new(alloc);
    for pair in pairs {
        params.add_extra(pair.0.as_str(), pair.1.as_str())?;
    }
    Ok(params)
}
