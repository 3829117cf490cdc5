ghost use Rattle.std.specs.Prelude.{true, ◌≡◌, ◌<◌, ℕ, List};
ghost use Rattle.distributor.specs.Calls.{PicksIndexes};
ghost use Rattle.lagsystem.specs.Assigning.{OffersConversation, TakesPort};
ghost use Rattle.lagsystem.specs.Calls.{Call};
ghost use Rattle.lagsystem.specs.Inner.{inner_state};
ghost use Rattle.lagsystem.specs.Offers.{MayBeOffered, has_aggregator};
ghost use Rattle.lagsystem.specs.Readers.{conversation_count, number_of_conversation};
ghost use Rattle.lagsystem.specs.Sound.{CallPromise, IsSound};
ghost use Rattle.lagsystem.specs.declared.drive.Reply.{Reply};

use crate::calls::System;
use crate::distributing_ports::distributing;
use crate::fault::SystemFault;
use crate::inner::Inner;
use distributor::Assignment;
use lagtypes::AggId;

impl<F: Fn(u16, usize) -> usize + Drop> Inner<F> {
    /// The port for a frame of a conversation that exists. The conversation is On that port afterwards; an Err changes nothing.
    pub(crate) fn take_port(&mut self, agg: AggId, conv: u16) -> Result<u16, SystemFault>
        requires usable { PicksIndexes (F.pre self.old.distributor.algorithm) (F.post self.old.distributor.algorithm) }
        requires sound { IsSound (inner_state self.old) }
        requires there { has_aggregator (inner_state self.old) agg ≡ true }
        requires within { conv < conversation_count (inner_state self.old) }
        ensures takes { TakesPort (F.post self.old.distributor.algorithm) agg conv (inner_state self.old) result (inner_state self.new) }
        ensures algorithm { self.new.distributor.algorithm ≡ self.old.distributor.algorithm }
    {
        // A conversation stays on its port, so no port is looked at.
        if let Assignment::On(port) = self.distributor.state(agg, conv) {
            return Ok(port);
        }
        let ports = distributing(&self.system_ports, agg);
        let port = self.distributor.assign(agg, conv, ports.as_slice())?;
        Ok(port)
    }

    /// As `System::offer_conversation`.
    fn offer_conversation(&mut self, agg: AggId, conv: u16) -> Result<u16, SystemFault>
        requires usable { PicksIndexes (F.pre self.old.distributor.algorithm) (F.post self.old.distributor.algorithm) }
        requires sound { IsSound (inner_state self.old) }
        ensures offers { OffersConversation (F.post self.old.distributor.algorithm) agg conv (inner_state self.old) result
            (inner_state self.new) }
        ensures algorithm { self.new.distributor.algorithm ≡ self.old.distributor.algorithm }
    {
        if !self.has_aggregator(agg) {
            return Err(SystemFault::NoAggregator);
        }
        if conv >= self.distributor.conversations() {
            return Err(SystemFault::NotAssigned);
        }
        self.take_port(agg, conv)
    }
}

impl<F: Fn(u16, usize) -> usize + Drop> System<F> {
    // promise: `offer_conversation` is, for each frame with this number, the call `offer`, and each number has such a frame. It refuses
    //    `NoAggregator`, `NotAssigned`, then as the distributor
    // contract: `offer_conversation` (`offers`, `answers`); `each_conversation_has_a_frame` (`frame`, `octets`)
    /// Returns the number of the port to send a client's frame of this conversation on, and puts the conversation on that
    /// port, whatever the octets of the frame are: what `offer` answers and does for a frame of the conversation. The frames
    /// of one flow keep their order if the host gives the flow one number for ever. Refused in this order: `NoAggregator`;
    /// `NotAssigned` if there is no conversation of this number; `Held` while it is Wanted or Flushing; `NoneDistributing` if
    /// it is free and no port distributes in the aggregator (6.2.4; profile).
    pub fn offer_conversation(&mut self, agg: AggId, conv: u16) -> Result<u16, SystemFault>
        requires usable { PicksIndexes (F.pre self.old.algorithm) (F.post self.old.algorithm) }
        ensures offers { OffersConversation (F.post self.old.algorithm) agg conv self.old.state result self.new.state }
        ensures answers { (octets : List ℕ) → MayBeOffered octets → number_of_conversation self.old.state octets ≡ conv
            → CallPromise (F.post self.old.algorithm) self.old.state (Call.Offer agg octets) (Reply.Offer result) self.new.state }
        ensures algorithm { self.new.algorithm ≡ self.old.algorithm }
    {
        self.inner.offer_conversation(agg, conv)
    }
}
