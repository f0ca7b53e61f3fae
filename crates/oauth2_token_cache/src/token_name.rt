//! What a token is for.

/// What a token is for. A text is empty where there is none.
#[derive(Debug, PartialEq, Eq, Hash, Drop)]
pub struct TokenName {
    /// Its scopes, as the request has them (RFC 6749, 3.3). Texts with another order are other
    /// names.
    pub scopes: String,
    /// The service that accepts it (RFC 8707, 2; RFC 8693, 2.1).
    pub audience: String,
    /// The user whom it is for.
    pub subject: String,
}
