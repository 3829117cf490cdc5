//! Tests of `lagprogress`: they play rounds, and compare what comes of them with values from IEEE 802.1AX-2014 and docs/PROFILE.md.
//! They are a crate of their own, so that `lagprogress` need not be proved again together with its tests, and apart from
//! `tests_world`, which need not wait for `lagprogress`.
#![tactic(auto)]

#[cfg(test)]
mod bundles;
#[cfg(test)]
mod comparing;
#[cfg(test)]
mod given;
#[cfg(test)]
mod hosts;
#[cfg(test)]
mod playing;
#[cfg(test)]
mod rounds;
