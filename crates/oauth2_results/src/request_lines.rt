//! The lines of a request.

ghost use Rattle.std.specs.Prelude.{◌≡◌, ◌++◌, string_bytes, OnOk};
ghost use Rattle.std.specs.Prelude.{map, option_map, option_copied};
ghost use Rattle.oauth2_wire.specs.Request.{view_of};
ghost use Rattle.oauth2_wire.specs.ServerView.{pair_texts};
ghost use Rattle.oauth2_results.specs.RequestLines as spec;

use crate::decoded::decode;
use http_header::{AUTHORIZATION, HeaderValue};
use oauth2_wire::HttpRequest;
use oauth2_world::quoted;
use std::alloc::{AllocError, Global};

#[tactic(auto, unfolding(crate::specs::RequestLines::request_line))]
fn print_target(lines: &mut String, method: &str, target: &str) -> Result<(), AllocError>
    ensures { OnOk result (string_bytes lines.new ≡ string_bytes lines.old
        ++ spec.request_line method.now target.now) }
{
    writeln!(lines, "request {method} {target}")
}

#[tactic(auto, unfolding(crate::specs::RequestLines::authorization_line))]
fn print_authorization(
    alloc: Global,
    lines: &mut String,
    value: Option<&HeaderValue>,
) -> Result<(), AllocError>
    ensures { OnOk result (string_bytes lines.new ≡ string_bytes lines.old
        ++ spec.authorization_line (option_map (λ v. v.bytes) (option_copied value.entry))) }
{
    match value {
        None => writeln!(lines, "authorization none"),
        Some(value) => {
            let text = String::from_utf8_lossy(alloc, value.as_bytes())?;
            writeln!(lines, "authorization {text}")
        }
    }
}

#[tactic(auto, unfolding(crate::specs::RequestLines::body_line))]
fn print_body(alloc: Global, lines: &mut String, body: &[u8]) -> Result<(), AllocError>
    ensures { OnOk result (string_bytes lines.new ≡ string_bytes lines.old
        ++ spec.body_line body.now) }
{
    let text = String::from_utf8_lossy(alloc, body)?;
    let text = quoted(alloc, text.as_str())?;
    writeln!(lines, "body {text}")
}

#[tactic(auto, unfolding(crate::specs::RequestLines::basic_line))]
fn print_no_basic(lines: &mut String) -> Result<(), AllocError>
    ensures { OnOk result (string_bytes lines.new ≡ string_bytes lines.old
        ++ spec.basic_line None) }
{
    writeln!(lines, "basic none")
}

#[tactic(auto, unfolding(crate::specs::RequestLines::basic_line))]
fn print_basic(alloc: Global, lines: &mut String, id: &str, secret: &str) -> Result<(), AllocError>
    ensures { OnOk result (string_bytes lines.new ≡ string_bytes lines.old
        ++ spec.basic_line (Some (id.now, secret.now))) }
{
    let id = quoted(alloc, id)?;
    let secret = quoted(alloc, secret)?;
    writeln!(lines, "basic {id} {secret}")
}

#[tactic(auto, unfolding(crate::specs::RequestLines::pair_line))]
fn print_pair(alloc: Global, lines: &mut String, name: &str, value: &str) -> Result<(), AllocError>
    ensures { OnOk result (string_bytes lines.new ≡ string_bytes lines.old
        ++ spec.pair_line (name.now, value.now)) }
{
    let name = quoted(alloc, name)?;
    let value = quoted(alloc, value)?;
    writeln!(lines, "pair {name} {value}")
}

fn print_pairs(
    alloc: Global,
    lines: &mut String,
    pairs: &[(String, String)],
) -> Result<(), AllocError>
    ensures { OnOk result (string_bytes lines.new ≡ string_bytes lines.old
        ++ spec.pair_lines (map pair_texts pairs.now)) }
{
    for (name, value) in pairs {
        print_pair(alloc, lines, name.as_str(), value.as_str())?;
    }
    Ok(())
}

fn print_credentials(
    alloc: Global,
    lines: &mut String,
    credentials: &Option<(String, String)>,
) -> Result<(), AllocError>
    ensures { OnOk result (string_bytes lines.new ≡ string_bytes lines.old
        ++ spec.basic_line (option_map pair_texts credentials.now)) }
{
    match credentials {
        None => print_no_basic(lines),
        Some((id, secret)) => print_basic(alloc, lines, id.as_str(), secret.as_str()),
    }
}

// The lines of what a server reads that does nothing but decode the header and the form.
fn print_decoded(alloc: Global, lines: &mut String, request: &HttpRequest) -> Result<(), AllocError>
    ensures { OnOk result (string_bytes lines.new ≡ string_bytes lines.old
        ++ spec.decoded_lines (view_of request.now)) }
{
    let decoded = decode(alloc, request)?;
    print_credentials(alloc, lines, &decoded.basic)?;
    print_pairs(alloc, lines, decoded.pairs.as_slice())?;
    Ok(())
}

/// Adds the lines of a request, from `request` to the last `pair`.
#[tactic(auto, unfolding(crate::specs::RequestLines::request_lines))]
pub fn print_request(
    alloc: Global,
    lines: &mut String,
    request: &HttpRequest,
) -> Result<(), AllocError>
    ensures { OnOk result (string_bytes lines.new ≡ string_bytes lines.old
        ++ spec.request_lines (view_of request.now)) }
{
    let target = request.uri().to_string(alloc)?;
    print_target(lines, request.method().as_str(), target.as_str())?;
    print_authorization(alloc, lines, request.headers().get(AUTHORIZATION))?;
    print_body(alloc, lines, request.body())?;
    print_decoded(alloc, lines, request)?;
    Ok(())
}
