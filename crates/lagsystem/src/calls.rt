ghost use Rattle.std.specs.Prelude.{◌≡◌, ◌<◌, IfErr, IfOk, None};
ghost use Rattle.distributor.specs.Calls.{PicksIndexes};
ghost use Rattle.lagsystem.specs.Calls.{Call};
ghost use Rattle.lagsystem.specs.First.{IsConfigured, IsFirst, fault_or_no_memory, config_refusal};
ghost use Rattle.lagsystem.specs.Readers.{number_of_conversation, conversation_count};
ghost use Rattle.lagsystem.specs.ModelView.{model_setup, model_view};
ghost use Rattle.lagsystem.specs.Sound.{PortsAgree, CallPromise};
ghost use Rattle.lagsystem.specs.declared.drive.Reply.{Reply};
ghost use Rattle.lagmodel.specs.View.{first_view};

use crate::config::{Config, PortChange};
use crate::fault::SystemFault;
use crate::inner::Inner;
use crate::received::Received;
use lagtypes::AggId;
use std::alloc::Global;
use std::marker::Model;

/// One system (6.2): its ports, aggregators and conversations, and a distribution algorithm. Octets and ticks of 100 ms
/// go in, frames come out; it has no clock and no network interface of its own.
///
/// `algorithm(conversation, count)` returns the index, below `count`, of the port that a conversation goes on, in the
/// list of the ports that distribute. `count` is 0 to 64; for 0 any result will do.
#[derive(Drop)]
pub struct System<F> {
    pub(crate) inner: Inner<F>,
}

impl<F> Model for System<F> {
    ghost use Rattle.lagsystem.specs.Inner.{inner_state, inner_value};
    ghost use Rattle.lagsystem.specs.Sound.{IsSound};
    ghost use Rattle.lagsystem.specs.State.{SystemValue};

    ghost Value = { SystemValue F };

    ghost view = { λ s. inner_value s.inner };

    ghost invariant = { λ s. IsSound (inner_state s.inner) };
}

impl<F: Fn(u16, usize) -> usize + Drop> System<F> {
    // promise: `new` returns the first reason to refuse: ports, aggregators, port number, limit of links, conversations
    // contract: `System::new` (`refused`, `accepted`); `Config::refusal` knows it without a system
    // promise: else, memory aside, it makes the first state: the start rows of each port, one settling, all links down, every conversation
    //    free; the limit and the count are the configured ones
    // contract: `new` (`first`, `configured`, `algorithm`)
    // promise: each call, whatever octets it brings, is its own effect; a settling follows a tick, a `set_link`, an LACPDU that is
    //    processed and a `configure` that changes something, and no other
    // contract: `step`
    // promise: `PortsAgree` holds: the members of an aggregator have its key and one group, not individual where they are two or more;
    //    ports that distribute in one aggregator name one partner system and key; no aggregator has more members than the limit; a port
    //    distributes exactly if its mux machine is in COLLECTING_DISTRIBUTING; the ports are those of an accepted configuration, each
    //    receive machine is at rest, each port keeps at most three ages
    // contract: `agrees` of `new`, `answers` (`agrees`) of each call
    // promise: the first state shows the law's first view
    // contract: `new` (`shows`)
    /// Makes a system with all links down. Every port starts (BEGIN), one settling follows, and every conversation is
    /// free. Refused in this order: `BadConfig(Ports)` if there are not 1 to 64 ports, `BadConfig(Aggregators)` if
    /// there are not 1 to 64 aggregators, `BadConfig(PortNumber)` if the port numbers do not ascend from 1 or more,
    /// `BadConfig(MaxLinks)` if there is a limit of links that is not 1 to 64, `BadConfig(Conversations)` if there are
    /// not 1, 256 or 4096 conversations, `NoMemory` if memory is refused (profile).
    pub fn new(alloc: Global, config: Config, algorithm: F) -> Result<System<F>, SystemFault>
        requires usable { PicksIndexes (F.pre algorithm) (F.post algorithm) }
        ensures first { IfOk result (λ s. IsFirst s.state) }
        ensures accepted { IfOk result (λ s. config_refusal config ≡ None) }
        ensures configured { IfOk result (λ s. IsConfigured config s.state) }
        ensures algorithm { IfOk result (λ s. s.algorithm ≡ algorithm) }
        ensures refused { IfErr result (λ fault. fault ≡ fault_or_no_memory (config_refusal config)) }
        ensures shows { IfOk result (λ s. model_view s.state ≡ first_view (model_setup s.state)) }
        ensures agrees { IfOk result (λ s. PortsAgree s.state) }
    {
        let inner = Inner::new(alloc, config, algorithm)?;
        Ok(System { inner })
    }

    // promise: a response frees what waits for it only if it names this system's address and the port where it comes; the answer is how
    //    many
    // contract: `step` of `receive` (`Releases`)
    /// Takes a frame that came on a port, of any octets, and returns what became of it: `Disabled` while the link is
    /// down; `Dropped` if it has fewer than 14 octets; for a data frame `Up`, or `Dropped` if the port is not
    /// Collecting; and for a control frame (EtherType 0x8809) `Ignored` with the fault of its payload, `TookLacpdu`,
    /// `Respond` for a Marker PDU, or `Released` for a Marker Response. After an LACPDU one settling follows. A
    /// response that names this system and the port on which it came frees the conversations that wait for it. Nothing
    /// else changes the system. `NoPort` if there is no such port (6.2.3, 6.4.12, 6.5.4).
    pub fn receive(&mut self, port: u16, frame: &[u8]) -> Result<Received, SystemFault>
        ensures answers { CallPromise (F.post self.old.algorithm) self.old.state (Call.Receive port frame.now)
            (Reply.Receive result) self.new.state }
        ensures algorithm { self.new.algorithm ≡ self.old.algorithm }
    {
        self.inner.receive(port, frame)
    }

    /// One tick, 100 ms. Every timer of every port counts down, and a receive machine whose current_while expired
    /// changes its state. A conversation whose marker was sent 30 ticks ago is Wanted again. One settling follows
    /// (6.4.10; profile).
    pub fn tick(&mut self)
        ensures answers { CallPromise (F.post self.old.algorithm) self.old.state Call.Tick Reply.Tick self.new.state }
        ensures algorithm { self.new.algorithm ≡ self.old.algorithm }
    {
        self.inner.tick();
    }

    // promise: a port whose link goes down under a limit is UNSELECTED before the settling; without a limit Selected stays
    // contract: `step` of `set_link` (`SetsPortEnabled`)
    /// Sets port_enabled: the link of a port is up or down now. Its receive machine runs; if the link is down now,
    /// every conversation of the port is free, and with a limit of links the port is UNSELECTED; one settling follows.
    /// `NoPort` if there is no such port (6.4.7, 6.4.12; profile).
    pub fn set_link(&mut self, port: u16, up: bool) -> Result<(), SystemFault>
        ensures answers { CallPromise (F.post self.old.algorithm) self.old.state (Call.Set_link port up)
            (Reply.SetLink result) self.new.state }
        ensures algorithm { self.new.algorithm ≡ self.old.algorithm }
    {
        self.inner.set_link(port, up)
    }

    /// Gives a port another key, priority or Aggregation bit. Its receive and mux machines start again (BEGIN), and one
    /// settling follows. Returns false, and changes nothing, if the port has these values already. `NoPort` if there is
    /// no such port (profile).
    pub fn configure(&mut self, port: u16, change: PortChange) -> Result<bool, SystemFault>
        ensures answers { CallPromise (F.post self.old.algorithm) self.old.state (Call.Configure port change)
            (Reply.Configure result) self.new.state }
        ensures algorithm { self.new.algorithm ≡ self.old.algorithm }
    {
        self.inner.configure(port, change)
    }

    // promise: after `restart` the system is as `new` left it, but for a limit of links and a CollectorMaxDelay set since; a configuration has
    //    at most one first state
    // contract: `restart` (`answers`: `IsFirst`; `shows`), `first_state_is_one`
    // promise: no `Call` changes what a restart goes back to: identifier, keys, ports, first marker, count of conversations, limit of
    //    links, CollectorMaxDelay; a setting only the last two
    // contract: `answers` (`step`, `configured`, `conversations`, `max_links`); of a setting `promise` (`configured`, `ports`, `conversations`)
    /// Goes back to the state that `new` made: all links down, every conversation free, the first marker identifier
    /// next. What `configure`, `hold_port` and `set_mode` changed is undone; a limit of links and a CollectorMaxDelay that
    /// were set stay. Takes no memory (profile).
    pub fn restart(&mut self)
        ensures answers { CallPromise (F.post self.old.algorithm) self.old.state Call.Restart Reply.Restart self.new.state }
        ensures shows { model_view self.new.state ≡ first_view (model_setup self.old.state) }
        ensures algorithm { self.new.algorithm ≡ self.old.algorithm }
    {
        self.inner.restart();
    }

    /// Returns the frame that is due on a port, a control frame of 124 octets from the port's MAC address; None while
    /// the link is down. An LACPDU comes first, if NTT is set and fewer than three were sent in the last eleven ticks;
    /// else a marker, if a conversation is Wanted on the port and an identifier is left. `NoPort` if there is no such
    /// port (6.4.16, 6.5.3.3; profile).
    pub fn transmit(&mut self, port: u16) -> Result<Option<[u8; 124]>, SystemFault>
        ensures answers { CallPromise (F.post self.old.algorithm) self.old.state (Call.Transmit port)
            (Reply.Transmit result) self.new.state }
        ensures algorithm { self.new.algorithm ≡ self.old.algorithm }
    {
        self.inner.transmit(port)
    }

    /// Returns the number of the port to send a client's frame on, and puts its conversation on that port. Refused in
    /// this order: `NoAggregator`; `FrameLength` outside 14 to 1518 octets; `SlowFrame` for EtherType 0x8809; `Held`
    /// while the conversation is Wanted or Flushing; `NoneDistributing` if it is free and no port distributes in the
    /// aggregator (6.2.4; profile).
    pub fn offer(&mut self, agg: AggId, frame: &[u8]) -> Result<u16, SystemFault>
        requires usable { PicksIndexes (F.pre self.old.algorithm) (F.post self.old.algorithm) }
        ensures answers { CallPromise (F.post self.old.algorithm) self.old.state (Call.Offer agg frame.now)
            (Reply.Offer result) self.new.state }
        ensures within { IfOk result (λ port. number_of_conversation self.old.state frame.now < conversation_count self.old.state) }
        ensures algorithm { self.new.algorithm ≡ self.old.algorithm }
    {
        self.inner.offer(agg, frame)
    }

    /// Moves a conversation of an aggregator to another port. A marker is wanted on its present port, and its frames are
    /// held until the response, `force`, or that port's link going down frees it; it then prefers the new port. Refused in
    /// this order: `NoAggregator`; `NoPort`; `NotAssigned` if the conversation is free or there is none of this number;
    /// `Held` while it is Wanted or Flushing; `NotDistributing` if the port does not distribute in the aggregator;
    /// `SamePort` if it is on that port; `MarkersSpent` if no marker identifier is left (6.2.5; profile).
    pub fn move_conversation(&mut self, agg: AggId, conv: u16, port: u16) -> Result<(), SystemFault>
        ensures answers { CallPromise (F.post self.old.algorithm) self.old.state (Call.Move_conversation agg conv port)
            (Reply.MoveConversation result) self.new.state }
        ensures algorithm { self.new.algorithm ≡ self.old.algorithm }
    {
        self.inner.move_conversation(agg, conv, port)
    }

    /// Frees a conversation of an aggregator at once, so its frames may be reordered. If it is Wanted or Flushing, it
    /// still prefers the port that it was to move to. Refused in this order: `NoAggregator`; `NotAssigned` if the
    /// conversation is free or there is none of this number (profile).
    pub fn force(&mut self, agg: AggId, conv: u16) -> Result<(), SystemFault>
        ensures answers { CallPromise (F.post self.old.algorithm) self.old.state (Call.Force agg conv) (Reply.Force result) self.new.state }
        ensures algorithm { self.new.algorithm ≡ self.old.algorithm }
    {
        self.inner.force(agg, conv)
    }
}
