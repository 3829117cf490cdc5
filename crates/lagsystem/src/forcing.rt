ghost use Rattle.std.specs.Prelude.{◌≡◌, ◌<◌, ◌≤◌, IfOk, true};
ghost use Rattle.distributor.specs.Calls.{PicksIndexes};
ghost use Rattle.lagsystem.specs.Forcing.{ForcesIfHeld, ForcesIn, ForcesPort, FreesHeld, NoneIsHeldOn, count_held_on};
ghost use Rattle.lagsystem.specs.Offers.{has_aggregator};

use crate::calls::System;
use crate::fault::SystemFault;
use lagtypes::AggId;

impl<F: Fn(u16, usize) -> usize + Drop> System<F> {
    // promise: `force_port` is a `force` for just those conversations that are Wanted or Flushing on the port, ascending, each a
    //    `CallPromise`. The answer is how many, or `NoPort`, and nothing changes
    // contract: `force_port` (`forced`: `ForcesPort`)
    // not said: that their frames keep their order
    // promise: afterwards none is held there; each that was is free and prefers what it preferred; nothing else changes
    // contract: `force_port` (`none`, `frees`, `counts`)
    /// Forces each conversation that is held on a port, Wanted or Flushing there, exactly as `force` of each would, by
    /// aggregator and number ascending; returns how many were held. Each of them is free afterwards, and prefers the port that
    /// it was to move to; nothing else changes. Frames of these conversations may be reordered. `NoPort` if there is no such
    /// port (profile).
    pub fn force_port(&mut self, port: u16) -> Result<u32, SystemFault>
        ensures forced { ForcesPort (F.post self.old.algorithm) port self.old.state result self.new.state }
        ensures frees { IfOk result (λ count. FreesHeld port self.old.state self.new.state) }
        ensures none { IfOk result (λ count. NoneIsHeldOn port self.new.state) }
        ensures counts { IfOk result (λ count. count ≡ count_held_on port self.old.state) }
        ensures algorithm { self.new.algorithm ≡ self.old.algorithm }
    {
        self.inner.port_index(port)?;
        if self.inner.distributor.held(port) == 0 {
            return Ok(0);
        }
        let mut forced = 0;
        for before in 0..self.inner.aggregators.count() {
            forced += self.force_held_in(AggId(before as u16 + 1), port);
        }
        Ok(forced)
    }

    /// Forces each conversation of one aggregator that is held on a port; returns how many were held.
    fn force_held_in(&mut self, agg: AggId, port: u16) -> u32
        requires there { has_aggregator self.old.state agg ≡ true }
        ensures forced { ForcesIn (F.post self.old.algorithm) port agg self.old.state.conversations self.old.state result self.new.state }
        ensures keys { self.new.state.keys ≡ self.old.state.keys }
        ensures few { result ≤ 65535 }
        ensures algorithm { self.new.algorithm ≡ self.old.algorithm }
    {
        let mut forced = 0;
        for conv in 0..self.inner.distributor.conversations() {
            if self.force_if_held(agg, conv, port) {
                forced += 1;
            }
        }
        forced
    }

    /// Forces a conversation if it is held on this port, and returns true; returns false if it is not held there.
    fn force_if_held(&mut self, agg: AggId, conv: u16, port: u16) -> bool
        requires there { has_aggregator self.old.state agg ≡ true }
        requires within { conv < self.old.state.conversations }
        ensures forced { ForcesIfHeld (F.post self.old.algorithm) port agg conv self.old.state result self.new.state }
        ensures keys { self.new.state.keys ≡ self.old.state.keys }
        ensures conversations { self.new.state.conversations ≡ self.old.state.conversations }
        ensures algorithm { self.new.algorithm ≡ self.old.algorithm }
    {
        if !self.inner.distributor.state(agg, conv).is_held_on(port) {
            return false;
        }
        let _forced = self.force(agg, conv);
        true
    }
}
