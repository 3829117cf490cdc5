ghost use Rattle.std.specs.Prelude.{◌≡◌, ◌≢◌, None, Some, MatchOption, length, map};
ghost use Rattle.lagworld.specs.declared.agreement.Agreement.TheVariants.{Differ};
ghost use Rattle.lagworld.specs.Agreement.{agreement_at};
ghost use Rattle.lagworld.specs.Events.{side_of};
ghost use Rattle.lagworld.specs.WorldCalls.{world_state};
ghost use Rattle.lagworld.specs.Inner.{flow_value};
ghost use Rattle.lagworld.specs.Readers.{ends_of_cable, flow_of_system, system_at};
ghost use Rattle.lagworld.specs.State.{collected_in, forced_in, sent_in, flow_at};

use crate::agreement::Agreement;
use crate::histories::Flow;
use crate::inner::Inner;
use crate::link::link_status;
use crate::world::World;
use cables::Cable;
use lagsystem::System;
use lagtypes::AggId;

/// The record of a conversation of an aggregator.
fn flow_at(flows: &[Vec<Flow>], agg: AggId, conv: u16) -> Option<&Flow>
    ensures { MatchOption result (flow_at (map (λ xs. map flow_value xs.items) flows.now) agg.0 conv ≡ None)
        (λ flow. flow_at (map (λ xs. map flow_value xs.items) flows.now) agg.0 conv ≡ Some (flow_value flow.now)) }
{
    let index = match usize::from(agg.0).checked_sub(1) {
        Some(index) => index,
        None => return None,
    };
    if index >= flows.len() {
        return None;
    }
    let conversations = &flows[index];
    let conv = usize::from(conv);
    if conv >= conversations.len() {
        return None;
    }
    Some(&conversations[conv])
}

impl<C: Cable, F: Fn(u16, usize) -> usize + Drop> Inner<C, F> {
    /// The record of a conversation of an aggregator of a system.
    fn flow(&self, system: u8, agg: AggId, conv: u16) -> Option<&Flow>
        ensures { MatchOption result (flow_of_system (side_of system) agg.0 conv (world_state C.items C.limit self.now) ≡ None)
            (λ flow. flow_of_system (side_of system) agg.0 conv (world_state C.items C.limit self.now) ≡ Some (flow_value flow.now)) }
    {
        if system == 1 {
            return flow_at(&self.one.flows, agg, conv);
        }
        if system == 2 {
            return flow_at(&self.two.flows, agg, conv);
        }
        None
    }

    /// The ports that a cable joins.
    fn ends(&self, cable: u16) -> Option<(u16, u16)>
        ensures { result ≡ ends_of_cable cable (world_state C.items C.limit self.now) }
    {
        if !self.has_cable(Some(cable)) {
            return None;
        }
        let status = link_status(&self.links, self.link_index_of(cable));
        Some((status.one, status.two))
    }
}

impl<C: Cable, F: Fn(u16, usize) -> usize + Drop> World<C, F> {
    /// How many cables there are. Their numbers are 1 to this (profile).
    pub fn cables(&self) -> usize
        ensures { result ≡ length self.now.state.links }
    {
        self.inner.links.len()
    }

    /// The ports that a cable joins, first that of system 1; None if there is no such cable (profile).
    pub fn ends(&self, cable: u16) -> Option<(u16, u16)>
        ensures { result ≡ ends_of_cable cable self.now.state }
    {
        self.inner.ends(cable)
    }

    // promise: `agreement` is the first of its five answers that holds, and never `Differ`
    // contract: `agreement` (`exact`, `never`)
    /// How the two ends of a cable stand to each other; None if there is no such cable. It is never `Differ` (6.3.6;
    /// profile).
    pub fn agreement(&self, cable: u16) -> Option<Agreement>
        ensures exact { result ≡ agreement_at self.now.state cable }
        ensures never { result ≢ Some Differ }
    {
        self.inner.agreement(cable)
    }

    // promise: each reader is exact; of what does not exist it is empty, false or None
    // contract: `sent`, `collected`, `forced`, `system`, `cables`, `ends`
    /// The serial numbers of the frames that a conversation of a system sent, lost ones too: 0, 1, 2 and so on. Empty
    /// if there is no such system, aggregator or conversation (profile).
    pub fn sent(&self, system: u8, agg: AggId, conv: u16) -> &[u64]
        ensures { result.now ≡ sent_in (flow_of_system (side_of system) agg.0 conv self.now.state) }
    {
        match self.inner.flow(system, agg, conv) {
            Some(flow) => &flow.sent,
            None => &[],
        }
    }

    /// The serial numbers of this conversation's frames that the other system handed up, in that order. Empty if there
    /// is no such system, aggregator or conversation (profile).
    pub fn collected(&self, system: u8, agg: AggId, conv: u16) -> &[u64]
        ensures { result.now ≡ collected_in (flow_of_system (side_of system) agg.0 conv self.now.state) }
    {
        match self.inner.flow(system, agg, conv) {
            Some(flow) => &flow.collected,
            None => &[],
        }
    }

    /// Whether a `Force` event for the conversation was ever accepted. False if there is no such system, aggregator or
    /// conversation (profile).
    pub fn forced(&self, system: u8, agg: AggId, conv: u16) -> bool
        ensures { result ≡ forced_in (flow_of_system (side_of system) agg.0 conv self.now.state) }
    {
        match self.inner.flow(system, agg, conv) {
            Some(flow) => flow.forced,
            None => false,
        }
    }

    /// The system with this number, 1 or 2; None for any other number (profile).
    pub fn system(&self, system: u8) -> Option<&System<F>>
        ensures { MatchOption result (system_at (side_of system) self.now ≡ None)
            (λ found. system_at (side_of system) self.now ≡ Some found.now) }
    {
        match system {
            1 => Some(&self.inner.one.system),
            2 => Some(&self.inner.two.system),
            _ => None,
        }
    }
}
