//! Tests of the queries of redirects, of error codes, of the place of a redirect, and of logins from
//! their URL to their token, also by two servers at once.

#![tactic(auto)]

#[cfg(test)]
mod logins;
#[cfg(test)]
mod mix_up;
#[cfg(test)]
mod places;
#[cfg(test)]
mod redirects;
