//! Tests of `lagworld`: they make public calls, and compare the results with values from IEEE 802.1AX-2014 and
//! docs/PROFILE.md. They are a crate of their own, so that it need not be proved again together with its tests.
#![tactic(auto)]

#[cfg(test)]
mod comparing;
#[cfg(test)]
mod worlds;
