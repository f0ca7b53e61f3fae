//! Tests of logins with OpenID Connect.

#![tactic(auto)]

#[cfg(test)]
mod ends;
#[cfg(test)]
mod providers;
#[cfg(test)]
mod starts;
#[cfg(test)]
mod support;
