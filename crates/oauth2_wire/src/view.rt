//! A request as a server reads it that does nothing but decode it.

ghost use Rattle.std.specs.Prelude.{◌≡◌, ◌<◌, ◌==◌, length, position, map, string_bytes};
ghost use Rattle.std.specs.Prelude.{None, Some, IfSome, option_map, Err, IfOk};
ghost use Rattle.std.specs.Str.Lossy.{utf8_lossy};
ghost use Rattle.form_urlencoded.specs.Form.{decode as decoded};
ghost use Rattle.oauth2_form.specs.Pairs.{form};
ghost use Rattle.oauth2_form.specs.Basic.{basic, colon, pair_of_text};
ghost use Rattle.oauth2_wire.specs.Request.{view_of};
ghost use Rattle.oauth2_wire.specs.ServerView.{pair_texts, shown_pair, IsServerView, IsBadBasic};

use crate::request::HttpRequest;
use base64::DecodeAllocError;
use base64::engine::general_purpose::STANDARD;
use form_urlencoded::{decode, raw_pairs};
use http_header::AUTHORIZATION;
use std::alloc::{AllocError, Global};
use std::fmt;

/// What a server reads from a request by decoding it.
#[derive(Debug, PartialEq, Eq, Drop)]
pub struct ServerView {
    /// The method.
    pub method: String,
    /// The target: scheme, `://`, authority and path, then `?` and the query if there is one.
    pub target: String,
    /// The identifier and the secret of the first Authorization header; `None` if there is no such
    /// header.
    pub basic: Option<(String, String)>,
    /// The parameters of the body, decoded, in order.
    pub form: Vec<(String, String)>,
}

/// Why a request cannot be read.
#[derive(Clone, Copy, Debug, PartialEq, Eq)]
pub enum ViewError {
    /// The Authorization header holds no identifier and secret.
    BadBasic,
    /// Memory ran out.
    Memory,
}

impl fmt::Display for ViewError {
    ghost use Rattle.oauth2_wire.specs.Display.{view_error_text};

    ghost output = { view_error_text };

    ghost styled_output = { λ error _. view_error_text error };

    fn fmt<W: fmt::Write>(&self, f: &mut fmt::Formatter<W>) -> fmt::Result {
        match self {
            ViewError::BadBasic => {
                f.write_str("Authorization header holds no identifier and secret")
            }
            ViewError::Memory => f.write_str("Out of memory"),
        }
    }
}

impl std::error::Error for ViewError {}

impl From<AllocError> for ViewError {
    ghost use Rattle.std.specs.Prelude.{◌≡◌};
    ghost use Rattle.oauth2_wire.specs.declared.view.ViewError.TheVariants.{Memory};

    ghost from_gives = { λ _ e. e ≡ Memory };

    fn from(_: AllocError) -> ViewError {
        ViewError::Memory
    }
}

// The decoded text of a name or a value, with U+FFFD in place of what is not UTF-8.
fn decode_text(alloc: Global, encoded: &[u8]) -> Result<String, AllocError>
    ensures { IfOk result (λ text. string_bytes text ≡ utf8_lossy (decoded encoded.now)) }
{
    decode(alloc, encoded)?.into_owned(alloc)
}

// The decoded pairs of a body.
fn read_form(alloc: Global, body: &[u8]) -> Result<Vec<(String, String)>, AllocError>
    ensures { IfOk result (λ pairs. map pair_texts pairs.items ≡ map shown_pair (form body.now)) }
{
    let mut pairs = Vec::new(alloc);
    for (name, value) in raw_pairs(body) {
        pairs.push((decode_text(alloc, name)?, decode_text(alloc, value)?))?;
    }
    Ok(pairs)
}

// The index of the first colon.
fn first_colon(text: &[u8]) -> Option<usize>
    ensures place { result ≡ position (λ b. b == colon) text.now }
    ensures inside { IfSome result (λ i. i < length text.now) }
{
    text.iter().position(|&b| b == b':')
}

// The two halves of a text split at its first colon, decoded.
#[tactic(auto, unfolding(oauth2_form::specs::Basic::pair_of_text))]
fn read_pair(alloc: Global, text: &[u8]) -> Result<Option<(String, String)>, AllocError>
    ensures { IfOk result (λ pair. option_map pair_texts pair
        ≡ option_map shown_pair (pair_of_text text.now)) }
{
    match first_colon(text) {
        Some(i) => Ok(Some((
            decode_text(alloc, &text[..i])?,
            decode_text(alloc, &text[i + 1..])?,
        ))),
        None => Ok(None),
    }
}

// The identifier and the secret of an Authorization value, if it holds any.
#[tactic(auto, unfolding(oauth2_form::specs::Basic::basic))]
fn read_basic(alloc: Global, value: &[u8]) -> Result<Option<(String, String)>, AllocError>
    ensures { IfOk result (λ pair. option_map pair_texts pair
        ≡ option_map shown_pair (basic value.now)) }
{
    let Some(encoded) = value.strip_prefix(b"Basic ".as_slice()) else {
        return Ok(None);
    };
    match STANDARD.decode(alloc, encoded) {
        Ok(text) => Ok(read_pair(alloc, &text)?),
        Err(DecodeAllocError::DecodeError(_)) => Ok(None),
        Err(DecodeAllocError::OutOfMemory) => Err(AllocError),
    }
}

/// Reads a request as a server does that only decodes it. Bytes that are not UTF-8 are read as
/// U+FFFD.
pub fn server_view(alloc: Global, request: &HttpRequest) -> Result<ServerView, ViewError>
    ensures view { IfOk result (IsServerView (view_of request.now)) }
    ensures bad { result ≡ Err ViewError.BadBasic → IsBadBasic (view_of request.now) }
{
    let basic = match request.headers().get(AUTHORIZATION) {
        None => None,
        Some(value) => match read_basic(alloc, value.as_bytes())? {
            None => return Err(ViewError::BadBasic),
            Some(pair) => Some(pair),
        },
    };
    Ok(ServerView {
        method: String::from_str(alloc, request.method().as_str())?,
        target: request.uri().to_string(alloc)?,
        basic,
        form: read_form(alloc, request.body())?,
    })
}
