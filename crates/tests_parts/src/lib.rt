//! Tests of the crates below `lagsystem`: they make public calls, and compare the results with values from IEEE 802.1AX-2014
//! and docs/PROFILE.md. They are a crate of their own, so that those need not be proved again together with their tests.
#![tactic(auto)]

#[cfg(test)]
mod comparing;
#[cfg(test)]
mod of_cables;
#[cfg(test)]
mod of_collector;
#[cfg(test)]
mod of_distributor;
#[cfg(test)]
mod of_lagtypes;
#[cfg(test)]
mod of_portmachines;
#[cfg(test)]
mod of_selection;
#[cfg(test)]
mod of_slowpdu;
