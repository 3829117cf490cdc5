//! Tests of `lagsystem`, `dataplane` and `lagscript`: they make public calls, and compare the results with values from IEEE
//! 802.1AX-2014 and docs/PROFILE.md. They are a crate of their own, so that those need not be proved again together with their tests.
#![tactic(auto)]

#[cfg(test)]
mod comparing;
#[cfg(test)]
mod hosts;
#[cfg(test)]
mod scripts;
#[cfg(test)]
mod systems;
