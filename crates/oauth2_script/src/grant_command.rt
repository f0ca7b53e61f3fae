//! The commands of a script for further grants and for pushed requests.

use crate::assertion_params::AssertionParams;
use crate::exchange_token_params::ExchangeTokenParams;
use crate::extension_params::ExtensionParams;
use crate::push_params::PushParams;

/// A command for a grant that is a URI, or for a pushed request, with its parameters.
#[derive(Drop)]
pub enum GrantCommand {
    Extension(ExtensionParams),
    ExchangeToken(ExchangeTokenParams),
    Assertion(AssertionParams),
    Push(PushParams),
}
