ghost use Rattle.std.specs.Prelude.{true, ◌≡◌, ◌<◌, ℕ, IfSome, Some};
ghost use Rattle.distributor.specs.Chains.{is_in_chain, slot_state};
ghost use Rattle.distributor.specs.Slots.{AreChained, AreFlagged};
ghost use Rattle.distributor.specs.Waiting.{is_by, sooner, soonest_below, ticks_until_wanted};

use super::{CHAINS, Slots};
use crate::assignment::Assignment;
use crate::change::MARKER_TICKS;

impl Assignment {
    /// In how many ticks the conversation is Wanted again; None if it is not Flushing.
    fn ticks_until_wanted(&self) -> Option<u8>
        ensures { result ≡ ticks_until_wanted self.now }
    {
        match *self {
            Assignment::Flushing { age, .. } => Some(MARKER_TICKS.saturating_sub(age)),
            Assignment::Free { .. } | Assignment::On(_) | Assignment::Wanted { .. } => None,
        }
    }
}

/// The sooner of two numbers of ticks; None is never.
fn sooner(one: Option<u8>, other: Option<u8>) -> Option<u8>
    ensures { result ≡ sooner one other }
{
    match (one, other) {
        (Some(ticks), Some(others)) => Some(ticks.min(others)),
        (Some(ticks), None) | (None, Some(ticks)) => Some(ticks),
        (None, None) => None,
    }
}

impl Slots {
    /// In how many ticks the next conversation is Wanted again; None if none is Flushing. Only chains with a flag for
    /// Flushing are read.
    pub(crate) fn ticks_until_next_wanted(&self) -> Option<u8>
        requires chained { AreChained self.now }
        requires flagged { AreFlagged self.now }
        ensures { result ≡ soonest_below (λ k. ticks_until_wanted (slot_state self.now.states.items k)) self.now.count }
    {
        let mut soonest = None;
        for chain in 0..CHAINS {
            if self.may_flush[chain as usize] {
                soonest = sooner(soonest, self.ticks_in_chain(chain));
            }
        }
        soonest
    }

    /// In how many ticks the next conversation in this chain is Wanted again; None if none in it is Flushing.
    fn ticks_in_chain(&self, chain: u32) -> Option<u8>
        requires chained { AreChained self.now }
        requires below { chain < 64 }
        ensures taken { IfSome result (λ ticks. (k : ℕ) × (k < self.now.count)
            × (ticks_until_wanted (slot_state self.now.states.items k) ≡ Some ticks)) }
        ensures soonest { (k : ℕ) → is_in_chain chain (slot_state self.now.states.items k) ≡ true
            → is_by result (ticks_until_wanted (slot_state self.now.states.items k)) ≡ true }
    {
        let end = self.count + chain;
        let mut at = self.next[end as usize];
        let mut soonest = None;
        while at != end {
            soonest = sooner(soonest, self.states[at as usize].ticks_until_wanted());
            at = self.next[at as usize];
        }
        soonest
    }
}
