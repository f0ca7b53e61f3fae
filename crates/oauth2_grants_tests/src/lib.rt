//! Tests of grants that are named by a URI, and of what a request may ask for beside its grant:
//! resources, authorization details, and a push. `checks` has what several modules share. Each of the
//! others tests the library, or the module of one, that has its name.

#![tactic(auto)]

#[cfg(test)]
mod authorization_details;
#[cfg(test)]
mod checks;
#[cfg(test)]
mod grants;
#[cfg(test)]
mod pushed_requests;
#[cfg(test)]
mod resource_indicators;
