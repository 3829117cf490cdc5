ghost use Rattle.std.specs.Prelude.{◌≡◌, ◌<◌, ◌≤◌, IfErr, IfOk, IsSome, Ok, OnOk, length};
ghost use Rattle.distributor.specs.Calls.{PicksIndexes};
ghost use Rattle.lagsystem.specs.Readers.{number_of_conversation, conversation_count};
ghost use Rattle.lagsystem.specs.Sound.{PortsAgree};
ghost use Rattle.lagworld.specs.declared.fault.WorldFault.TheVariants.{NoMemory as OutOfMemory};
ghost use Rattle.lagworld.specs.Asking.{HalfAsksOffer, WorldAsksOffer, WorldForces, HalfAsksForce, with_sent_in};
ghost use Rattle.lagworld.specs.HalfCalls.{HalfForces};
ghost use Rattle.lagworld.specs.Events.{AfterOffer, WorldOffers};
ghost use Rattle.lagworld.specs.WorldCalls.{world_state};
ghost use Rattle.lagworld.specs.Inner.{half_state};
ghost use Rattle.lagworld.specs.Messages.{side_numbered, side_number};
ghost use Rattle.lagworld.specs.Places.{AreReserved, HasRoom};
ghost use Rattle.lagworld.specs.Sides.{model_side};
ghost use Rattle.lagworld.specs.Sound.{IsSound, both_algorithms};
ghost use Rattle.lagworld.specs.State.{half, by_side, sent_in, flow_at, with_half};

use crate::fault::WorldFault;
use crate::half::Half;
use crate::inner::Inner;
use crate::reply::Reply;
use crate::sending::{put_on_port, reserve_all};
use crate::serials::{record_force, record_frame_sent, reserve_serial};
use crate::side::{Side, side_numbered};
use cables::{Cable, Item, Stamp};
use lagsystem::SystemFault;
use lagtypes::AggId;
use std::alloc::AllocError;

/// The number of a system.
fn side_number(side: Side) -> u8
    ensures { result ≡ side_number (model_side side) }
{
    match side {
        Side::One => 1,
        Side::Two => 2,
    }
}

impl<F: Fn(u16, usize) -> usize + Drop> Half<F> {
    /// The conversation of a frame; 0 if the frame has fewer than 14 octets.
    fn conversation(&self, frame: &[u8]) -> u16
        requires agrees { PortsAgree self.now.system.state }
        ensures is { 14 ≤ length frame.now → result ≡ number_of_conversation self.now.system.state frame.now }
        ensures short { length frame.now < 14 → result ≡ 0 }
        ensures within { result < conversation_count self.now.system.state }
    {
        match self.system.conversation(frame) {
            Some(conv) => conv,
            None => 0,
        }
    }

    /// Offers a frame to an aggregator of this system; returns the port to send it on.
    fn ask_offer(&mut self, agg: AggId, frame: &[u8]) -> Result<u16, SystemFault>
        requires { PicksIndexes (F.pre self.old.system.algorithm) (F.post self.old.system.algorithm) }
        ensures assigns { HalfAsksOffer (F.post self.old.system.algorithm) agg frame.now result
            (half_state self.old) (half_state self.new) }
        ensures flows { self.new.flows ≡ self.old.flows }
        ensures algorithm { self.new.system.algorithm ≡ self.old.system.algorithm }
    {
        self.system.offer(agg, frame)
    }

    /// Asks this system to free a conversation of an aggregator at once.
    fn ask_force(&mut self, agg: AggId, conv: u16) -> Result<(), SystemFault>
        ensures frees { HalfAsksForce (F.post self.old.system.algorithm) agg conv result (half_state self.old) (half_state self.new) }
        ensures algorithm { self.new.system.algorithm ≡ self.old.system.algorithm }
    {
        self.system.force(agg, conv)
    }

    /// Frees a conversation of an aggregator at once; it counts as forced from then on, unless the system refuses.
    fn force(&mut self, agg: AggId, conv: u16) -> Reply
        ensures forces { HalfForces (F.post self.old.system.algorithm) agg conv (half_state self.old) result (half_state self.new) }
        ensures algorithm { self.new.system.algorithm ≡ self.old.system.algorithm }
    {
        match self.ask_force(agg, conv) {
            Ok(()) => {
                record_force(&mut self.flows, agg, conv);
                Reply::Forced
            }
            Err(fault) => Reply::Refused(fault),
        }
    }
}

impl<C: Cable, F: Fn(u16, usize) -> usize + Drop> Inner<C, F> {
    /// Frees a conversation of a system at once.
    pub(crate) fn force(&mut self, system: u8, agg: AggId, conv: u16) -> Reply
        ensures forces { WorldForces (both_algorithms (F.post self.old.one.system.algorithm) (F.post self.old.two.system.algorithm))
            (side_numbered system) agg conv (world_state C.items C.limit self.old) result (world_state C.items C.limit self.new) }
        ensures acted { self.new.acted ≡ self.old.acted }
        ensures algorithm_one { self.new.one.system.algorithm ≡ self.old.one.system.algorithm }
        ensures algorithm_two { self.new.two.system.algorithm ≡ self.old.two.system.algorithm }
    {
        let half = self.half_mut(side_numbered(system));
        half.force(agg, conv)
    }

    /// The conversation of a frame in a system.
    fn conversation(&self, side: Side, frame: &[u8]) -> u16
        requires sound { IsSound (world_state C.items C.limit self.now) }
        ensures is { 14 ≤ length frame.now → result ≡ number_of_conversation
            (half (model_side side) (world_state C.items C.limit self.now)).state frame.now }
        ensures within { result < conversation_count (half (model_side side) (world_state C.items C.limit self.now)).state }
    {
        self.half(side).conversation(frame)
    }

    /// Offers a frame to an aggregator of a system; returns the port to send it on.
    fn ask_offer(&mut self, side: Side, agg: AggId, frame: &[u8]) -> Result<u16, SystemFault>
        requires one { PicksIndexes (F.pre self.old.one.system.algorithm) (F.post self.old.one.system.algorithm) }
        requires two { PicksIndexes (F.pre self.old.two.system.algorithm) (F.post self.old.two.system.algorithm) }
        ensures assigns { WorldAsksOffer (both_algorithms (F.post self.old.one.system.algorithm) (F.post self.old.two.system.algorithm))
            (model_side side) agg frame.now result (world_state C.items C.limit self.old) (world_state C.items C.limit self.new) }
        ensures links { self.new.links ≡ self.old.links }
        ensures flows_one { self.new.one.flows ≡ self.old.one.flows }
        ensures flows_two { self.new.two.flows ≡ self.old.two.flows }
        ensures acted { self.new.acted ≡ self.old.acted }
        ensures algorithm_one { self.new.one.system.algorithm ≡ self.old.one.system.algorithm }
        ensures algorithm_two { self.new.two.system.algorithm ≡ self.old.two.system.algorithm }
    {
        self.half_mut(side).ask_offer(agg, frame)
    }

    /// Reserves a place for the next serial number of a conversation of a system, if the conversation exists.
    fn reserve_serial(&mut self, side: Side, agg: AggId, conv: u16) -> Result<(), AllocError>
        ensures same { world_state C.items C.limit self.new ≡ world_state C.items C.limit self.old }
        ensures ok { OnOk result (HasRoom agg.0 conv (by_side (model_side side) self.new.one.flows.items self.new.two.flows.items)) }
        ensures links { self.new.links ≡ self.old.links }
        ensures acted { self.new.acted ≡ self.old.acted }
        ensures algorithm_one { self.new.one.system.algorithm ≡ self.old.one.system.algorithm }
        ensures algorithm_two { self.new.two.system.algorithm ≡ self.old.two.system.algorithm }
    {
        let half = self.half_mut(side);
        reserve_serial(&mut half.flows, agg, conv)
    }

    /// Records that a conversation of a system sends one more frame; returns the serial number of that frame.
    fn record_frame_sent(&mut self, side: Side, agg: AggId, conv: u16) -> u64
        requires { HasRoom agg.0 conv (by_side (model_side side) self.old.one.flows.items self.old.two.flows.items) }
        ensures serial { result ≡ length
            (sent_in (flow_at (half (model_side side) (world_state C.items C.limit self.old)).flows agg.0 conv)) }
        ensures sent { world_state C.items C.limit self.new ≡ with_half (model_side side)
            (with_sent_in agg.0 conv (half (model_side side) (world_state C.items C.limit self.old)))
            (world_state C.items C.limit self.old) }
        ensures links { self.new.links ≡ self.old.links }
        ensures acted { self.new.acted ≡ self.old.acted }
        ensures algorithm_one { self.new.one.system.algorithm ≡ self.old.one.system.algorithm }
        ensures algorithm_two { self.new.two.system.algorithm ≡ self.old.two.system.algorithm }
    {
        let half = self.half_mut(side);
        record_frame_sent(&mut half.flows, agg, conv)
    }

    /// Sends an offered frame on a port, as the next frame of its conversation.
    fn send_offered(
        &mut self,
        side: Side,
        port: u16,
        agg: AggId,
        conv: u16,
        octets: Vec<u8>,
    ) -> Reply
        requires conversation { conv
            ≡ number_of_conversation (half (model_side side) (world_state C.items C.limit self.old)).state octets.items }
        requires there { IsSome (flow_at (half (model_side side) (world_state C.items C.limit self.old)).flows agg.0 conv) }
        requires place { AreReserved C.reserved (model_side side) self.old.links.items }
        requires room { HasRoom agg.0 conv (by_side (model_side side) self.old.one.flows.items self.old.two.flows.items) }
        ensures offered { AfterOffer (model_side side) agg octets.items (Ok port) (world_state C.items C.limit self.old) result
            (world_state C.items C.limit self.new) }
        ensures acted { self.new.acted ≡ self.old.acted }
        ensures algorithm_one { self.new.one.system.algorithm ≡ self.old.one.system.algorithm }
        ensures algorithm_two { self.new.two.system.algorithm ≡ self.old.two.system.algorithm }
    {
        let serial = self.record_frame_sent(side, agg, conv);
        let stamp = Stamp::Data {
            system: side_number(side),
            agg: agg.0,
            conv,
            serial,
        };
        let item = Item {
            bytes: octets,
            stamp,
        };
        let accepted = put_on_port(&mut self.links, side, port, item);
        Reply::Port(port, serial, accepted)
    }

    /// Offers a frame to a system. The places that this needs are reserved.
    fn offer_reserved(&mut self, side: Side, agg: AggId, conv: u16, octets: Vec<u8>) -> Reply
        requires one { PicksIndexes (F.pre self.old.one.system.algorithm) (F.post self.old.one.system.algorithm) }
        requires two { PicksIndexes (F.pre self.old.two.system.algorithm) (F.post self.old.two.system.algorithm) }
        requires sound { IsSound (world_state C.items C.limit self.old) }
        requires conversation { 14 ≤ length octets.items → conv
            ≡ number_of_conversation (half (model_side side) (world_state C.items C.limit self.old)).state octets.items }
        requires below { conv < conversation_count (half (model_side side) (world_state C.items C.limit self.old)).state }
        requires place { AreReserved C.reserved (model_side side) self.old.links.items }
        requires room { HasRoom agg.0 conv (by_side (model_side side) self.old.one.flows.items self.old.two.flows.items) }
        ensures offers { WorldOffers (both_algorithms (F.post self.old.one.system.algorithm) (F.post self.old.two.system.algorithm))
            (model_side side) agg octets.items (world_state C.items C.limit self.old) result (world_state C.items C.limit self.new) }
        ensures acted { self.new.acted ≡ self.old.acted }
        ensures algorithm_one { self.new.one.system.algorithm ≡ self.old.one.system.algorithm }
        ensures algorithm_two { self.new.two.system.algorithm ≡ self.old.two.system.algorithm }
    {
        match self.ask_offer(side, agg, octets.as_slice()) {
            Err(fault) => Reply::Refused(fault),
            Ok(port) => self.send_offered(side, port, agg, conv, octets),
        }
    }

    /// Offers a frame to an aggregator of a system.
    pub(crate) fn offer(
        &mut self,
        system: u8,
        agg: AggId,
        frame: &Vec<u8>,
    ) -> Result<Reply, WorldFault>
        requires one { PicksIndexes (F.pre self.old.one.system.algorithm) (F.post self.old.one.system.algorithm) }
        requires two { PicksIndexes (F.pre self.old.two.system.algorithm) (F.post self.old.two.system.algorithm) }
        requires sound { IsSound (world_state C.items C.limit self.old) }
        ensures offers { IfOk result (λ reply. WorldOffers (both_algorithms (F.post self.old.one.system.algorithm)
            (F.post self.old.two.system.algorithm)) (side_numbered system) agg frame.now.items (world_state C.items C.limit self.old) reply
            (world_state C.items C.limit self.new)) }
        ensures refused { IfErr result (λ fault. fault ≡ OutOfMemory) }
        ensures unchanged { IfErr result (λ fault. world_state C.items C.limit self.new ≡ world_state C.items C.limit self.old) }
        ensures acted { self.new.acted ≡ self.old.acted }
        ensures algorithm_one { self.new.one.system.algorithm ≡ self.old.one.system.algorithm }
        ensures algorithm_two { self.new.two.system.algorithm ≡ self.old.two.system.algorithm }
    {
        let side = side_numbered(system);
        let octets = Vec::from_slice(self.alloc, frame.as_slice())?;
        let conv = self.conversation(side, octets.as_slice());
        reserve_all(&mut self.links, side)?;
        self.reserve_serial(side, agg, conv)?;
        Ok(self.offer_reserved(side, agg, conv, octets))
    }
}
