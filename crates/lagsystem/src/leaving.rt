ghost use Rattle.std.specs.Prelude.{◌≡◌, [], IfOk, Ok};
ghost use Rattle.distributor.specs.Calls.{PicksIndexes};
ghost use Rattle.lagmodel.specs.View.{ModelCall};
ghost use Rattle.lagsystem.specs.Calls.{Call};
ghost use Rattle.lagsystem.specs.Inner.{inner_state};
ghost use Rattle.lagsystem.specs.Leaving.{system_leave_result, system_rest_result};
ghost use Rattle.lagsystem.specs.Offers.{GivesOrRefuses};
ghost use Rattle.lagsystem.specs.Promises.{TablePromise};
ghost use Rattle.lagsystem.specs.Sound.{CallPromise, IsSound};
ghost use Rattle.lagsystem.specs.declared.drive.Reply.{Reply};

use crate::calls::System;
use crate::fault::SystemFault;
use crate::inner::Inner;
use lagtypes::AggId;

impl<F: Fn(u16, usize) -> usize + Drop> Inner<F> {
    /// As `System::leave_conversation`.
    fn leave_conversation(&mut self, agg: AggId, conv: u16) -> Result<(), SystemFault>
        requires { IsSound (inner_state self.old) }
        ensures gives { GivesOrRefuses agg conv (system_leave_result (inner_state self.old) agg conv) (inner_state self.old) result
            (inner_state self.new) }
        ensures algorithm { self.new.distributor.algorithm ≡ self.old.distributor.algorithm }
    {
        if !self.has_aggregator(agg) {
            return Err(SystemFault::NoAggregator);
        }
        self.distributor.leave_conversation(agg, conv)?;
        Ok(())
    }

    /// As `System::rest`.
    fn rest(&mut self, agg: AggId, conv: u16) -> Result<(), SystemFault>
        requires { IsSound (inner_state self.old) }
        ensures gives { GivesOrRefuses agg conv (system_rest_result (inner_state self.old) agg conv) (inner_state self.old) result
            (inner_state self.new) }
        ensures algorithm { self.new.distributor.algorithm ≡ self.old.distributor.algorithm }
    {
        if !self.has_aggregator(agg) {
            return Err(SystemFault::NoAggregator);
        }
        self.distributor.rest(agg, conv)?;
        Ok(())
    }
}

impl<F: Fn(u16, usize) -> usize + Drop> System<F> {
    // promise: `leave_conversation`: what is On a port is Wanted there, without preference. It refuses `NoAggregator`, `NotAssigned`,
    //    `Held`, `MarkersSpent`. Its moves are lawful, without a visible act
    // contract: `leave_conversation` (`gives`: `system_leave_result`; `promise`: `TablePromise`)
    /// Takes a conversation of an aggregator off its port, without another to go to: it becomes Wanted there and prefers no
    /// port. A marker is wanted on its port, and its frames are held until the response, `force`, or that port's link going
    /// down frees it. Refused in this order: `NoAggregator`; `NotAssigned` if the conversation is free or there is none of
    /// this number; `Held` while it is Wanted or Flushing; `MarkersSpent` if no marker identifier is left (6.2.5; profile).
    pub fn leave_conversation(&mut self, agg: AggId, conv: u16) -> Result<(), SystemFault>
        ensures gives { GivesOrRefuses agg conv (system_leave_result self.old.state agg conv) self.old.state result self.new.state }
        ensures promise { TablePromise ModelCall.Move_conversation [] self.old.state self.new.state }
        ensures algorithm { self.new.algorithm ≡ self.old.algorithm }
    {
        self.inner.leave_conversation(agg, conv)
    }

    // promise: `rest` frees what is On a port, without preference; it refuses `NoAggregator`, `NotAssigned`, `Held`. Where it frees, it is
    //    the call `force`
    // contract: `rest` (`gives`: `system_rest_result`; `forces`)
    // not said: that nothing is on its way: it counts as forced
    /// Frees a conversation that is On a port, on the host's word that none of its frames is on its way: its next frame may go
    /// on any port. To the law of two systems it is `force`: if the host is wrong, frames may be reordered. Refused in this
    /// order: `NoAggregator`; `NotAssigned` if the conversation is free or there is none of this number; `Held` while it is
    /// Wanted or Flushing (profile).
    pub fn rest(&mut self, agg: AggId, conv: u16) -> Result<(), SystemFault>
        ensures gives { GivesOrRefuses agg conv (system_rest_result self.old.state agg conv) self.old.state result self.new.state }
        ensures forces { IfOk result (λ done. CallPromise (F.post self.old.algorithm) self.old.state (Call.Force agg conv) (Reply.Force (Ok tt))
            self.new.state) }
        ensures algorithm { self.new.algorithm ≡ self.old.algorithm }
    {
        self.inner.rest(agg, conv)
    }
}
