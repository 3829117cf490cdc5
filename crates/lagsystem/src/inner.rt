ghost use Rattle.std.specs.Prelude.{◌≡◌, ◌<◌, ◌≤◌, IfErr, IfOk, None, Some, length, vec_len};
ghost use Rattle.std.specs.Bool.{OnFalse};
ghost use Rattle.distributor.specs.Calls.{PicksIndexes};
ghost use Rattle.lagsystem.specs.Calls.{Call, OnlyPortChangesBy, Releases, ThenSettles, Step, ProcessesLacpdu, is_own_response};
ghost use Rattle.lagsystem.specs.First.{fault_or_no_memory, config_refusal};
ghost use Rattle.lagsystem.specs.Hosts.{conversation_at, would_transmit};
ghost use Rattle.lagsystem.specs.Inner.{inner_state};
ghost use Rattle.lagsystem.specs.Holding.{WereInUse};
ghost use Rattle.lagsystem.specs.Offers.{has_aggregator};
ghost use Rattle.lagsystem.specs.Readers.{number_of_conversation, conversation_count};
ghost use Rattle.lagsystem.specs.Sending.{SendsMarker, own_marker};
ghost use Rattle.lagsystem.specs.Promoting.{NextOnlyIfUnselected};
ghost use Rattle.lagsystem.specs.Receiving.{ReceivesControl};
ghost use Rattle.lagsystem.specs.Settling.{Settling, SettlesPorts};
ghost use Rattle.lagsystem.specs.Sound.{IsMade, IsSound};
ghost use Rattle.lagsystem.specs.State.{port_index};
ghost use Rattle.lagsystem.specs.declared.received.Received.{Received};
ghost use Rattle.lagsystem.specs.declared.drive.Reply.{Reply};
ghost use Rattle.lagsystem.specs.declared.fault.SystemFault.{SystemFault};

use crate::config::{Config, PortChange, PortConfig};
use crate::configure::configure_at;
use crate::distributing_ports::{collecting, distributing};
use crate::fault::SystemFault;
use crate::holding::{
    free_conversations_if_down, hold_conversations, hold_conversations_at, list_aggregators_in_use,
    list_aggregators_in_use_before,
};
use crate::offers::check_offer;
use crate::parse::parse_payload;
use crate::process_lacpdu::process_lacpdu_on;
use crate::received::{FrameEffect, Received};
use crate::set_link::set_link_at;
use crate::settling::settle_ports;
use crate::start::{aggregator_count, new_system_ports, restart_each};
use crate::system_ports::{SystemPort, port_index};
use crate::tick::tick_each;
use crate::transmit::{control_frame, is_lacpdu_due};
use arrayvec::ArrayVec;
use collector::collect;
use distributor::{Assignment, Distributor};
use lagtypes::{AggId, SystemId};
use selection::Aggregators;
use slowpdu::{Kind, Lacpdu, Marker, MarkerKind, classify};
use std::alloc::Global;

/// The fields of a `System`. Its calls are proved on this struct; `System` wraps it, so that contracts do not name the
/// fields.
#[derive(Drop)]
pub(crate) struct Inner<F> {
    pub(crate) system: SystemId,
    pub(crate) max_delay: u16,
    pub(crate) aggregators: Aggregators,
    /// The ports as they were configured. `restart` goes back to them.
    pub(crate) ports: Vec<PortConfig>,
    /// The ports as they are now, in the same order.
    pub(crate) system_ports: Vec<SystemPort>,
    /// The conversations of all aggregators.
    pub(crate) distributor: Distributor<F>,
}

impl<F: Fn(u16, usize) -> usize + Drop> Inner<F> {
    /// Makes a system whose links are down, as `System::new` does.
    pub(crate) fn new(alloc: Global, config: Config, algorithm: F) -> Result<Inner<F>, SystemFault>
        requires usable { PicksIndexes (F.pre algorithm) (F.post algorithm) }
        ensures made { IfOk result (λ inner. IsMade config (inner_state inner)) }
        ensures algorithm { IfOk result (λ inner. inner.distributor.algorithm ≡ algorithm) }
        ensures refused { IfErr result (λ fault. fault ≡ fault_or_no_memory (config_refusal config)) }
    {
        match config.refusal() {
            Some(reason) => return Err(SystemFault::BadConfig(reason)),
            None => {}
        }
        let Config {
            system,
            max_delay,
            first_marker,
            conversations,
            aggregators: keys,
            max_links,
            ports,
        } = config;
        let aggregators = Aggregators::with_limit(alloc, &keys, max_links)?;
        let system_ports = new_system_ports(alloc, system, &ports)?;
        let distributor = Distributor::with_conversations(
            alloc,
            aggregator_count(&keys),
            conversations,
            first_marker,
            algorithm,
        )?;
        let mut inner = Inner {
            system,
            max_delay,
            aggregators,
            ports,
            system_ports,
            distributor,
        };
        inner.settle_ports();
        Ok(inner)
    }

    /// The index of the port with this number; `NoPort` if there is none.
    pub(crate) fn port_index(&self, number: u16) -> Result<usize, SystemFault>
        requires { IsSound (inner_state self.now) }
        ensures place { IfOk result (λ place. port_index number self.now.system_ports.items ≡ Some place) }
        ensures within { IfOk result (λ place. place < length self.now.system_ports.items) }
        ensures none { IfErr result (λ fault. port_index number self.now.system_ports.items ≡ None) }
        ensures named { IfErr result (λ fault. fault ≡ SystemFault.NoPort) }
    {
        match port_index(&self.system_ports, number) {
            Some(place) => Ok(place),
            None => Err(SystemFault::NoPort),
        }
    }

    /// Steps 1 to 5 of settling, which read and change ports only, after a start.
    fn settle_ports(&mut self)
        requires { vec_len self.old.system_ports ≤ 64 }
        ensures settled { SettlesPorts (inner_state self.old) (inner_state self.new) }
        ensures distributor { self.new.distributor ≡ self.old.distributor }
    {
        settle_ports(&self.aggregators, &mut self.system_ports, true);
    }

    /// One settling. `before` has for each port the aggregator in which it distributed before the call. With `more_room` a STANDBY
    /// port may come next though no port is UNSELECTED.
    pub(crate) fn settle(&mut self, before: &[Option<AggId>], more_room: bool)
        requires were { WereInUse before.now (inner_state self.old) }
        requires next { OnFalse more_room (NextOnlyIfUnselected self.old.aggregators self.old.system_ports.items) }
        ensures settled { Settling (inner_state self.old) (inner_state self.new) }
        ensures algorithm { self.new.distributor.algorithm ≡ self.old.distributor.algorithm }
    {
        settle_ports(&self.aggregators, &mut self.system_ports, more_room);
        hold_conversations(&mut self.distributor, &self.system_ports, before);
    }

    /// As `System::tick`.
    pub(crate) fn tick(&mut self)
        requires { IsSound (inner_state self.old) }
        ensures step { Step (F.post self.old.distributor.algorithm) (inner_state self.old) Call.Tick Reply.Tick (inner_state self.new) }
        ensures algorithm { self.new.distributor.algorithm ≡ self.old.distributor.algorithm }
    {
        let mut before = ArrayVec::new();
        list_aggregators_in_use(&self.system_ports, &mut before);
        tick_each(&mut self.system_ports);
        self.distributor.tick();
        self.settle(before.as_slice(), false);
    }

    /// As `System::set_link`.
    pub(crate) fn set_link(&mut self, number: u16, up: bool) -> Result<(), SystemFault>
        requires { IsSound (inner_state self.old) }
        ensures step { Step (F.post self.old.distributor.algorithm) (inner_state self.old) (Call.Set_link number up) (Reply.SetLink result)
            (inner_state self.new) }
        ensures algorithm { self.new.distributor.algorithm ≡ self.old.distributor.algorithm }
    {
        let place = self.port_index(number)?;
        let mut before = ArrayVec::new();
        list_aggregators_in_use(&self.system_ports, &mut before);
        set_link_at(
            &mut self.system_ports,
            place,
            self.aggregators.max_links(),
            up,
        );
        free_conversations_if_down(&mut self.distributor, number, up);
        self.settle(before.as_slice(), false);
        Ok(())
    }

    /// As `System::receive`.
    pub(crate) fn receive(&mut self, number: u16, octets: &[u8]) -> Result<Received, SystemFault>
        requires { IsSound (inner_state self.old) }
        ensures step { Step (F.post self.old.distributor.algorithm) (inner_state self.old) (Call.Receive number octets.now)
            (Reply.Receive result) (inner_state self.new) }
        ensures algorithm { self.new.distributor.algorithm ≡ self.old.distributor.algorithm }
    {
        let place = self.port_index(number)?;
        let port = &self.system_ports[place].port;
        if !port.is_enabled() {
            return Ok(Received::Disabled);
        }
        match classify(octets) {
            Kind::TooShort => Ok(Received::Dropped),
            Kind::Data => Ok(Received::from(collect(collecting(port), octets))),
            Kind::Control(payload) => Ok(self.receive_control(place, payload)),
        }
    }

    /// Takes the payload of a control frame that came on the port at this index, whose link is up. Not inlined: its answers have room
    /// for a Marker Response, which a data frame would pay for.
    #[inline(never)]
    fn receive_control(&mut self, place: usize, payload: &[u8]) -> Received
        requires sound { IsSound (inner_state self.old) }
        requires within { place < length self.old.system_ports.items }
        ensures received { ReceivesControl place payload.now (inner_state self.old) result (inner_state self.new) }
        ensures algorithm { self.new.distributor.algorithm ≡ self.old.distributor.algorithm }
    {
        let number = self.system_ports[place].number;
        match parse_payload(&self.system_ports[place], payload) {
            FrameEffect::ProcessLacpdu(pdu) => {
                self.process_lacpdu(place, &pdu);
                Received::TookLacpdu
            }
            FrameEffect::Response(marker) => Received::Released(self.release(number, &marker)),
            FrameEffect::Answered(reply) => reply,
        }
    }

    /// Processes an LACPDU on the port at this index, and settles. Where `process_lacpdu_on` answers true, the rest of a settling
    /// can change nothing but by the periodic machine of this port and by what leaves it, so these alone are done: the result is
    /// the same, and the contract does not say which of the two ways is taken.
    pub(crate) fn process_lacpdu(&mut self, place: usize, pdu: &Lacpdu)
        requires sound { IsSound (inner_state self.old) }
        requires within { place < length self.old.system_ports.items }
        ensures settled { ThenSettles (OnlyPortChangesBy (Some place) (ProcessesLacpdu pdu.now)) (inner_state self.old)
            (inner_state self.new) }
        ensures algorithm { self.new.distributor.algorithm ≡ self.old.distributor.algorithm }
    {
        let was = collecting(&self.system_ports[place].port);
        if process_lacpdu_on(&mut self.system_ports[place], pdu) {
            self.system_ports[place].port.periodic();
            hold_conversations_at(&mut self.distributor, &self.system_ports, place, was);
        } else {
            let mut before = ArrayVec::new();
            list_aggregators_in_use_before(&self.system_ports, place, was, &mut before);
            self.settle(before.as_slice(), false);
        }
    }

    /// Frees the conversations that wait for a Marker Response that came on a port, and returns how many.
    fn release(&mut self, number: u16, response: &Marker) -> u32
        ensures released { Releases (is_own_response (inner_state self.old) number response.now) number response.now (inner_state self.old)
            (Received.Released result) (inner_state self.new) }
        ensures algorithm { self.new.distributor.algorithm ≡ self.old.distributor.algorithm }
    {
        if response.port == number && response.system == self.system.mac {
            self.distributor.response(number, response.id)
        } else {
            0
        }
    }

    /// Gives a port another key, priority or Aggregation bit and settles; false, and nothing changes, if it has these values
    /// already.
    pub(crate) fn configure(&mut self, number: u16, change: PortChange) -> Result<bool, SystemFault>
        requires { IsSound (inner_state self.old) }
        ensures step { Step (F.post self.old.distributor.algorithm) (inner_state self.old) (Call.Configure number change)
            (Reply.Configure result) (inner_state self.new) }
        ensures algorithm { self.new.distributor.algorithm ≡ self.old.distributor.algorithm }
    {
        let place = self.port_index(number)?;
        let was = collecting(&self.system_ports[place].port);
        if !configure_at(&mut self.system_ports, place, change) {
            return Ok(false);
        }
        let mut before = ArrayVec::new();
        list_aggregators_in_use_before(&self.system_ports, place, was, &mut before);
        self.settle(before.as_slice(), false);
        Ok(true)
    }

    /// As `System::restart`.
    pub(crate) fn restart(&mut self)
        requires { IsSound (inner_state self.old) }
        ensures step { Step (F.post self.old.distributor.algorithm) (inner_state self.old) Call.Restart Reply.Restart
            (inner_state self.new) }
        ensures algorithm { self.new.distributor.algorithm ≡ self.old.distributor.algorithm }
    {
        restart_each(self.system, &self.ports, &mut self.system_ports);
        self.distributor.clear();
        self.settle_ports();
    }

    /// As `System::transmit`.
    pub(crate) fn transmit(&mut self, number: u16) -> Result<Option<[u8; 124]>, SystemFault>
        requires { IsSound (inner_state self.old) }
        ensures step { Step (F.post self.old.distributor.algorithm) (inner_state self.old) (Call.Transmit number) (Reply.Transmit result)
            (inner_state self.new) }
        ensures algorithm { self.new.distributor.algorithm ≡ self.old.distributor.algorithm }
    {
        let place = self.port_index(number)?;
        if !self.system_ports[place].port.is_enabled() {
            return Ok(None);
        }
        let system_port = &mut self.system_ports[place];
        let mac = system_port.mac;
        if let Some(pdu) = system_port.port.transmit(self.max_delay) {
            return Ok(Some(control_frame(mac, &pdu.encode())));
        }
        Ok(self.transmit_marker(number, mac))
    }

    /// The marker that is due on a port, as a control frame of 124 octets.
    fn transmit_marker(&mut self, number: u16, mac: [u8; 6]) -> Option<[u8; 124]>
        ensures sends { SendsMarker number mac (inner_state self.old) result (inner_state self.new) }
        ensures algorithm { self.new.distributor.algorithm ≡ self.old.distributor.algorithm }
    {
        let id = self.distributor.marker_for(number)?;
        Some(control_frame(mac, &self.own_marker(number, id).encode()))
    }

    /// The Marker PDU of the system with this identifier, for a port.
    pub(crate) fn own_marker(&self, number: u16, id: u32) -> Marker
        ensures { result ≡ own_marker (inner_state self.now) number id }
    {
        Marker {
            kind: MarkerKind::Information,
            port: number,
            system: self.system.mac,
            id,
        }
    }

    /// Whether the system has an aggregator of this number.
    pub(crate) fn has_aggregator(&self, agg: AggId) -> bool
        requires { IsSound (inner_state self.now) }
        ensures { result ≡ has_aggregator (inner_state self.now) agg }
    {
        self.distributor.is_conversation(agg, 0)
    }

    /// The state of a conversation; None if there is none of this number.
    pub(crate) fn conversation_state(&self, agg: AggId, conv: u16) -> Option<Assignment>
        requires { IsSound (inner_state self.now) }
        ensures { result ≡ conversation_at (inner_state self.now) agg conv }
    {
        if self.distributor.is_conversation(agg, conv) {
            Some(self.distributor.state(agg, conv))
        } else {
            None
        }
    }

    /// Whether an LACPDU or a marker is due on a port.
    pub(crate) fn would_transmit(&self, system_port: &SystemPort) -> bool
        ensures { result ≡ would_transmit (inner_state self.now) system_port.now }
    {
        system_port.port.is_enabled()
            && (is_lacpdu_due(&system_port.port)
                || self.distributor.due_marker(system_port.number).is_some())
    }

    /// As `System::offer`.
    pub(crate) fn offer(&mut self, agg: AggId, octets: &[u8]) -> Result<u16, SystemFault>
        requires usable { PicksIndexes (F.pre self.old.distributor.algorithm) (F.post self.old.distributor.algorithm) }
        requires sound { IsSound (inner_state self.old) }
        ensures step { Step (F.post self.old.distributor.algorithm) (inner_state self.old) (Call.Offer agg octets.now) (Reply.Offer result)
            (inner_state self.new) }
        ensures within { IfOk result (λ port. number_of_conversation (inner_state self.old) octets.now < conversation_count
            (inner_state self.old)) }
        ensures algorithm { self.new.distributor.algorithm ≡ self.old.distributor.algorithm }
    {
        if !self.has_aggregator(agg) {
            return Err(SystemFault::NoAggregator);
        }
        check_offer(octets)?;
        let conv = self.number_of_conversation(octets);
        self.take_port(agg, conv)
    }

    /// As `System::move_conversation`.
    pub(crate) fn move_conversation(
        &mut self,
        agg: AggId,
        conv: u16,
        port: u16,
    ) -> Result<(), SystemFault>
        requires { IsSound (inner_state self.old) }
        ensures step { Step (F.post self.old.distributor.algorithm) (inner_state self.old) (Call.Move_conversation agg conv port)
            (Reply.MoveConversation result) (inner_state self.new) }
        ensures algorithm { self.new.distributor.algorithm ≡ self.old.distributor.algorithm }
    {
        if !self.has_aggregator(agg) {
            return Err(SystemFault::NoAggregator);
        }
        self.port_index(port)?;
        let ports = distributing(&self.system_ports, agg);
        self.distributor.move_to(agg, conv, port, ports.as_slice())?;
        Ok(())
    }

    /// As `System::force`.
    pub(crate) fn force(&mut self, agg: AggId, conv: u16) -> Result<(), SystemFault>
        requires { IsSound (inner_state self.old) }
        ensures step { Step (F.post self.old.distributor.algorithm) (inner_state self.old) (Call.Force agg conv) (Reply.Force result)
            (inner_state self.new) }
        ensures algorithm { self.new.distributor.algorithm ≡ self.old.distributor.algorithm }
    {
        if !self.has_aggregator(agg) {
            return Err(SystemFault::NoAggregator);
        }
        self.distributor.force(agg, conv)?;
        Ok(())
    }
}
