ghost use Rattle.std.specs.Prelude.{◌≡◌, IfOk, OnErr, map};
ghost use Rattle.distributor.specs.Calls.{PicksIndexes};
ghost use Rattle.lagsystem.specs.Drives.{Drives, call_of};
ghost use Rattle.lagsystem.specs.HostCalls.{HasConversations, HostPromise};
ghost use Rattle.lagsystem.specs.Sound.{CallPromise};
ghost use Rattle.lagsystem.specs.Windows.{KeepsTransmitLimit, EachAtMostThreeAges};

use crate::calls::System;
use crate::config::PortChange;
use crate::fault::SystemFault;
use crate::received::Received;
use lagtypes::{AggId, NoMemory};
use std::alloc::Global;

/// A call of a system, with its arguments (profile).
#[derive(Debug, Drop)]
pub enum Call {
    /// `receive`: the port, and the octets of the frame.
    Receive(u16, Vec<u8>),
    /// `tick`.
    Tick,
    /// `set_link`: the port, and whether its link is up.
    SetLink(u16, bool),
    /// `configure`: the port, and its new values.
    Configure(u16, PortChange),
    /// `restart`.
    Restart,
    /// `transmit`: the port.
    Transmit(u16),
    /// `offer`: the aggregator, and the frame.
    Offer(AggId, Vec<u8>),
    /// `move_conversation`: the aggregator, the conversation, and the port to move to.
    MoveConversation(AggId, u16, u16),
    /// `force`: the aggregator, and the conversation.
    Force(AggId, u16),
}

/// The result of a call (profile).
#[derive(Clone, Copy, Debug, PartialEq, Eq)]
pub enum Reply {
    /// Of `receive`.
    Receive(Result<Received, SystemFault>),
    /// Of `tick`, which returns nothing.
    Tick,
    /// Of `set_link`.
    SetLink(Result<(), SystemFault>),
    /// Of `configure`.
    Configure(Result<bool, SystemFault>),
    /// Of `restart`, which returns nothing.
    Restart,
    /// Of `transmit`.
    Transmit(Result<Option<[u8; 124]>, SystemFault>),
    /// Of `offer`.
    Offer(Result<u16, SystemFault>),
    /// Of `move_conversation`.
    MoveConversation(Result<(), SystemFault>),
    /// Of `force`.
    Force(Result<(), SystemFault>),
}

/// A call of a host with a data plane, with its arguments: one of `Call`, or one of five that change the conversations alone
/// (profile).
#[derive(Debug, Drop)]
pub enum HostCall {
    /// One of `Call`.
    Call(Call),
    /// `offer_conversation`: the aggregator, and the conversation.
    OfferConversation(AggId, u16),
    /// `leave_conversation`: the aggregator, and the conversation.
    LeaveConversation(AggId, u16),
    /// `probe`: the port.
    Probe(u16),
    /// `rest`: the aggregator, and the conversation.
    Rest(AggId, u16),
    /// `force_port`: the port.
    ForcePort(u16),
}

/// The result of a call of a host (profile).
#[derive(Clone, Copy, Debug, PartialEq, Eq)]
pub enum HostReply {
    /// Of one of `Call`.
    Call(Reply),
    /// Of `offer_conversation`.
    OfferConversation(Result<u16, SystemFault>),
    /// Of `leave_conversation`.
    LeaveConversation(Result<(), SystemFault>),
    /// Of `probe`.
    Probe(Result<Option<[u8; 124]>, SystemFault>),
    /// Of `rest`.
    Rest(Result<(), SystemFault>),
    /// Of `force_port`.
    ForcePort(Result<u32, SystemFault>),
}

impl<F: Fn(u16, usize) -> usize + Drop> System<F> {
    // promise: `call` and `host_call` make the call that their argument names
    // contract: `call` (`answers`), `host_call` (`promise`: `HostPromise`)
    /// Makes a call that stands as a value, and returns its result (profile).
    pub fn call(&mut self, call: &Call) -> Reply
        requires usable { PicksIndexes (F.pre self.old.algorithm) (F.post self.old.algorithm) }
        ensures answers { CallPromise (F.post self.old.algorithm) self.old.state (call_of call.now) result self.new.state }
        ensures algorithm { self.new.algorithm ≡ self.old.algorithm }
    {
        match call {
            Call::Receive(port, octets) => Reply::Receive(self.receive(*port, octets)),
            Call::Tick => {
                self.tick();
                Reply::Tick
            }
            Call::SetLink(port, up) => Reply::SetLink(self.set_link(*port, *up)),
            Call::Configure(port, change) => Reply::Configure(self.configure(*port, *change)),
            Call::Restart => {
                self.restart();
                Reply::Restart
            }
            Call::Transmit(port) => Reply::Transmit(self.transmit(*port)),
            Call::Offer(agg, octets) => Reply::Offer(self.offer(*agg, octets)),
            Call::MoveConversation(agg, conv, port) => {
                Reply::MoveConversation(self.move_conversation(*agg, *conv, *port))
            }
            Call::Force(agg, conv) => Reply::Force(self.force(*agg, *conv)),
        }
    }

    /// Makes a call of a host that stands as a value, and returns its result (profile).
    pub fn host_call(&mut self, call: &HostCall) -> HostReply
        requires usable { PicksIndexes (F.pre self.old.algorithm) (F.post self.old.algorithm) }
        ensures promise { HostPromise (F.post self.old.algorithm) self.old.state call.now result self.new.state }
        ensures algorithm { self.new.algorithm ≡ self.old.algorithm }
    {
        self.open_invariant();
        match call {
            HostCall::Call(call) => HostReply::Call(self.call(call)),
            HostCall::OfferConversation(agg, conv) => {
                HostReply::OfferConversation(self.offer_conversation(*agg, *conv))
            }
            HostCall::LeaveConversation(agg, conv) => {
                HostReply::LeaveConversation(self.leave_conversation(*agg, *conv))
            }
            HostCall::Probe(port) => HostReply::Probe(self.probe(*port)),
            HostCall::Rest(agg, conv) => HostReply::Rest(self.rest(*agg, *conv)),
            HostCall::ForcePort(port) => HostReply::ForcePort(self.force_port(*port)),
        }
    }

    // promise: **one whole system**: `drive` gives one reply for each call, in order; each is what a call promises (`CallPromise`); the
    //    window holds; refused memory changes nothing
    // contract: `drive` (`driven`, `window`, `refused`; `Drives`)
    // not said: cables, the other end, the order in which frames arrive
    /// Makes these calls in order and returns their results, one for each. `NoMemory` if memory for the results is
    /// refused; then no call was made (profile).
    pub fn drive(&mut self, alloc: Global, calls: &[Call]) -> Result<Vec<Reply>, NoMemory>
        requires usable { PicksIndexes (F.pre self.old.algorithm) (F.post self.old.algorithm) }
        ensures driven { IfOk result (λ replies. Drives (F.post self.old.algorithm) self.old.state
            (map call_of calls.now) replies.items self.new.state) }
        ensures window { IfOk result (λ replies. KeepsTransmitLimit self.old.state (map call_of calls.now) replies.items) }
        ensures refused { OnErr result (self.new ≡ self.old) }
        ensures algorithm { self.new.algorithm ≡ self.old.algorithm }
    {
        self.open_invariant();
        let mut replies = Vec::with_capacity(alloc, calls.len())?;
        for call in calls {
            let reply = self.call(call);
            replies.push_reserved(reply);
        }
        Ok(replies)
    }

    /// Does nothing when it runs. The prover knows the invariant of `System` (at most three ages a port, and the conversations
    /// of its configuration) only where `inner` is read, and `drive` and `host_call` need it.
    fn open_invariant(&self)
        ensures ages { EachAtMostThreeAges self.now.state }
        ensures conversations { HasConversations self.now.state }
    {
        let _inner = &self.inner;
    }
}
