//! Tests of the URL of an issuer's metadata, and of what a program reads from the metadata.

mod documents;
mod places;
