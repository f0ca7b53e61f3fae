//! Tests of how a form encodes each byte (URL Standard, section 5.2).

use oauth2::{AuthType, ClientId, HttpRequest, ParamText, endpoint_request};
use oauth2_tests_support::{check_equal, text, url};
use std::alloc::{AllocError, Global};
use std::test::Fail;

// A request with these extra parameters.
fn request_of(
    alloc: Global,
    extra: &[(ParamText<'_>, ParamText<'_>)],
) -> Result<HttpRequest, Fail> {
    let url = url(alloc, "https://example.com/token")?;
    let id = ClientId::new(text(alloc, "a")?);
    let auth = AuthType::RequestBody;
    Ok(endpoint_request(alloc, &auth, &id, None, extra, None, None, &url, &[])?)
}

// Checks the body of a request with one extra parameter, whose name is the text.
fn check_sent(alloc: Global, name: &str, body: &[u8]) -> Result<(), Fail> {
    let extra = [(ParamText::from(name), ParamText::from(""))];
    let request = request_of(alloc, extra.as_slice())?;
    check_equal(request.body().as_slice(), body)
}

// Whether a byte is written as it is: the ASCII letters and digits, `*`, `-`, `.` and `_` are.
fn is_unescaped(byte: u8) -> bool {
    byte.is_ascii_alphanumeric() || matches!(byte, b'*' | b'-' | b'.' | b'_')
}

// Appends `+` for a space, an unescaped byte, or the escape of two upper-case hexadecimal digits.
fn append_encoded(alloc: Global, body: &mut String, byte: u8) -> Result<(), AllocError> {
    if is_unescaped(byte) {
        body.push(char::from(byte))
    } else if byte == b' ' {
        body.push('+')
    } else {
        body.push_str(format!(in alloc; "%{byte:02X}")?.as_str())
    }
}

// The body of a request whose extra parameter's name is the text.
fn body_of(alloc: Global, name: &str) -> Result<String, AllocError> {
    let mut body = text(alloc, "client_id=a&")?;
    for &byte in name.as_bytes() {
        append_encoded(alloc, &mut body, byte)?;
    }
    body.push('=')?;
    Ok(body)
}

// Appends the character, if there is one of this code.
fn push_code(characters: &mut String, code: u32) -> Result<(), AllocError> {
    match char::from_u32(code) {
        Some(c) => characters.push(c),
        None => Ok(()),
    }
}

// A character for each first byte of three and of four (RFC 3629, section 3).
const LONG: [u32; 21] = [
    0x800, 0x1000, 0x2000, 0x3000, 0x4000, 0x5000, 0x6000, 0x7000, 0x8000, 0x9000, 0xA000, 0xB000,
    0xC000, 0xD000, 0xE000, 0xF000, 0x1_0000, 0x4_0000, 0x8_0000, 0xC_0000, 0x10_0000,
];

// Characters whose encodings hold every byte that UTF-8 has.
fn every_byte(alloc: Global) -> Result<String, AllocError> {
    let mut characters = text(alloc, "")?;
    for code in 0..0x800u32 {
        push_code(&mut characters, code)?;
    }
    for code in LONG {
        push_code(&mut characters, code)?;
    }
    Ok(characters)
}

#[test]
fn every_byte_of_utf8(rt: HostRuntime) -> Result<(), Fail> {
    let name = every_byte(rt.alloc())?;
    let body = body_of(rt.alloc(), name.as_str())?;
    check_sent(rt.alloc(), name.as_str(), body.as_bytes())
}
