//! A run that meets the premises of the laws of `lagprogress`: two systems can come up with each other. The function of this crate does nothing
//! when it runs: its contract is a proved theorem.
//!
//! In comments, numbers such as 6.4.15 are sections of IEEE 802.1AX-2014.
#![tactic(auto)]

ghost use Rattle.lagworld.specs.Sound.{both_algorithms};
ghost use Rattle.law_can_come_up.specs.Together.{TwoComeUp};

// promise: **two systems can come up:** events from two new systems lead to a bundle, and 356 late rounds of it are there, after which both
//    ends of its cable distribute
// contract: `two_systems_come_up` (`TwoComeUp`)
/// There are two systems in their first states, joined by one cable, events that lead to a bundle with a healthy cable, and so many late rounds
/// of it as `each_link_comes_up_by_clocks` asks; behind them both ends distribute (6.4.12 to 6.4.16).
pub fn two_systems_come_up<F: Fn(u16, usize) -> usize>()
    ensures { (one two : F) → TwoComeUp (both_algorithms (F.post one) (F.post two)) }
{}
