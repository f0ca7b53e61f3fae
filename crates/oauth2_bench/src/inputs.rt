//! The inputs of the operations.

use std::alloc::{AllocError, Global};

const INTROSPECTION: &str =
    "{\"active\":true,\"scope\":\"email profile openid offline_access read write admin\",\
    \"client_id\":\"s6BhdRkqt3\",\"username\":\"jdoe\",\"token_type\":\"Bearer\",\
    \"exp\":1604073517,\"iat\":1604073217,\"nbf\":1604073317,\"sub\":\"Z5O3upPC88QrAjx00dis\",\
    \"aud\":[\"https://protected.example.net/resource\",\"https://other.example.net/\"],\
    \"iss\":\"https://server.example.com/\",\"jti\":\"2b7a4a2e-8d6e-4f0c-9c2a-0f6b7c1d5e11\"";

/// A token response without a lifetime, scopes or a refresh token.
pub fn short_token(alloc: Global) -> Result<String, AllocError> {
    String::from_str(
        alloc,
        "{\"access_token\": \"12/34\", \"token_type\": \"BEARER\"}",
    )
}

/// A token response whose access token has this many bytes. The token is made first and dropped, as
/// in the Rust benchmark.
pub fn long_token(alloc: Global, size: u32) -> Result<String, AllocError> {
    let mut token = String::new(alloc);
    for i in 0..size {
        token.push((b'a' + (i % 26) as u8) as char)?;
    }
    let mut body = format!(in alloc;
        "{{\"access_token\":\"{token}\",\"token_type\":\"bearer\",\"expires_in\":3600,\
         \"refresh_token\":\"r1\",\"scope\":\"read write\"}}"
    )?;
    // The body is in memory while the operation runs, so it takes no more room than it needs.
    body.shrink_to_fit();
    Ok(body)
}

/// An introspection response of about 1 KB: every member of RFC 7662, and twelve more.
pub fn introspection(alloc: Global) -> Result<String, AllocError> {
    let mut body = String::from_str(alloc, INTROSPECTION)?;
    for k in 0..12u8 {
        let member = format!(in alloc;
            ",\"extension_field_{k}\":\"value number {k} of the extension\""
        )?;
        body.push_str(member.as_str())?;
    }
    body.push('}')?;
    Ok(body)
}

/// Five scopes.
pub fn scopes(alloc: Global) -> Result<Vec<String>, AllocError> {
    let mut scopes = Vec::new(alloc);
    for scope in &["read", "write", "profile", "email", "offline_access"] {
        scopes.push(String::from_str(alloc, scope)?)?;
    }
    Ok(scopes)
}

/// This many extra parameters.
pub fn params(alloc: Global, number: u32) -> Result<Vec<(String, String)>, AllocError> {
    let mut params = Vec::new(alloc);
    for i in 0..number {
        let name = format!(in alloc; "param_{i}")?;
        let value = format!(in alloc; "value number {i} & more")?;
        params.push((name, value))?;
    }
    Ok(params)
}
