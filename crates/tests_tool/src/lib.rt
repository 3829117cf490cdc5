//! Tests of `lagstreams` and `lagtool_jobs`: they make public calls, and compare the results with values from IEEE 802.1AX-2014,
//! docs/PROFILE.md and docs/COMMAND.md. They are a crate of their own, so that those need not be proved again together with
//! their tests.
#![tactic(auto)]

#[cfg(test)]
mod answers;
#[cfg(test)]
mod checks;
#[cfg(test)]
mod comparing;
#[cfg(test)]
mod conversations;
#[cfg(test)]
mod explained;
#[cfg(test)]
mod faults;
#[cfg(test)]
mod memory;
#[cfg(test)]
mod pieces;
#[cfg(test)]
mod replays;
#[cfg(test)]
mod slow;
#[cfg(test)]
mod streams;
#[cfg(test)]
mod texts;
#[cfg(test)]
mod watching;
#[cfg(test)]
mod wrong_answers;
