ghost use Rattle.std.specs.Prelude.{◌≡◌, ◌≤◌, ◌+◌, [], length, IfErr, IfOk, Ok, Some, vec_capacity, vec_len};
ghost use Rattle.slowpdu.specs.declared.pdu.Pdu.{Pdu};
ghost use Rattle.slowpdu.specs.Pdus.{ReadsPdu};
ghost use Rattle.slowpdu.specs.Readings.{pdu_in};
ghost use Rattle.lagsystem.specs.ModelView.{IsSent};
ghost use Rattle.lagworld.specs.declared.fault.WorldFault.TheVariants.{NoMemory as OutOfMemory};
ghost use Rattle.lagworld.specs.Asking.{HalfAsksTransmit, WorldAsksTransmit};
ghost use Rattle.lagworld.specs.Events.{WorldEmits, AfterTransmit, sent_reply, stamp_for};
ghost use Rattle.lagworld.specs.WorldCalls.{world_state};
ghost use Rattle.lagworld.specs.Inner.{half_state};
ghost use Rattle.lagworld.specs.Messages.{payload_in, side_numbered};
ghost use Rattle.lagworld.specs.Places.{IsReserved};
ghost use Rattle.lagworld.specs.Sides.{model_side};
ghost use Rattle.lagworld.specs.Sound.{both_algorithms};
ghost use Rattle.lagworld.specs.State.{change_count_in, half, history_at};

use crate::fault::WorldFault;
use crate::half::Half;
use crate::histories::{PortHistory, history_of};
use crate::inner::Inner;
use crate::reply::Reply;
use crate::sending::{put_on_port, reserve_on};
use crate::side::{Side, side_numbered};
use cables::{Cable, Item, Stamp};
use lagsystem::SystemFault;
use slowpdu::{Pdu, decode};

/// The length of a control frame in octets.
pub(crate) const CONTROL_FRAME_LENGTH: usize = 124;

/// The octets of a control frame before its payload.
const HEADER_LEN: usize = 14;

/// The PDU in a control frame; the frame has one.
pub(crate) fn pdu_of(octets: &[u8]) -> Pdu
    requires long { 14 ≤ length octets.now }
    requires reads { (v : Pdu) × ReadsPdu (payload_in octets.now) v }
    ensures { result ≡ pdu_in (payload_in octets.now) }
{
    match decode(&octets[HEADER_LEN..]) {
        Ok(pdu) => pdu,
        Err(_) => unreachable!(),
    }
}

/// The stamp of a PDU that a port sends: for an LACPDU the port's change count, else 0.
fn stamp_for(pdu: Pdu, count: u64) -> Stamp
    ensures { result ≡ stamp_for pdu count }
{
    match pdu {
        Pdu::Lacpdu(_) => Stamp::Control(count),
        Pdu::Marker(_) => Stamp::Control(0),
    }
}

/// The reply to `Emit` for a PDU that was sent. `accepted`: whether the cable took it.
fn sent_reply(pdu: Pdu, accepted: bool) -> Reply
    ensures { result ≡ sent_reply pdu accepted }
{
    match pdu {
        Pdu::Lacpdu(lacpdu) => Reply::Lacpdu(lacpdu.actor.state, accepted),
        Pdu::Marker(marker) => Reply::Marker(marker.id, accepted),
    }
}

/// The change count of a port; 0 if there is no such port.
fn change_count(histories: &[PortHistory], port: u16) -> u64
    ensures { result ≡ change_count_in (history_at histories.now port) }
{
    match history_of(histories, port) {
        Some(history) => history.count,
        None => 0,
    }
}

/// Fills an empty list, which has room for a frame, with the octets of one.
pub(crate) fn filled(octets: Vec<u8>, frame: &[u8]) -> Vec<u8>
    requires empty { octets.items ≡ [] }
    requires room { vec_len octets + length frame.now ≤ vec_capacity octets }
    ensures { result.items ≡ frame.now }
{
    let mut octets = octets;
    match octets.extend_from_slice(frame) {
        Ok(()) => octets,
        Err(_) => unreachable!(),
    }
}

impl<F: Fn(u16, usize) -> usize + Drop> Half<F> {
    /// Returns the frame that is due on a port of this system.
    fn transmit(&mut self, port: u16) -> Result<Option<[u8; 124]>, SystemFault>
        ensures transmits { HalfAsksTransmit (F.post self.old.system.algorithm) port result (half_state self.old) (half_state self.new) }
        ensures algorithm { self.new.system.algorithm ≡ self.old.system.algorithm }
    {
        self.system.transmit(port)
    }
}

impl<C: Cable, F: Fn(u16, usize) -> usize + Drop> Inner<C, F> {
    /// Returns the frame that is due on a port of a system.
    fn transmit(&mut self, side: Side, port: u16) -> Result<Option<[u8; 124]>, SystemFault>
        ensures transmits { WorldAsksTransmit
            (both_algorithms (F.post self.old.one.system.algorithm) (F.post self.old.two.system.algorithm)) (model_side side) port result (world_state C.items C.limit self.old) (world_state C.items C.limit self.new) }
        ensures links { self.new.links ≡ self.old.links }
        ensures acted { self.new.acted ≡ self.old.acted }
        ensures algorithm_one { self.new.one.system.algorithm ≡ self.old.one.system.algorithm }
        ensures algorithm_two { self.new.two.system.algorithm ≡ self.old.two.system.algorithm }
    {
        self.half_mut(side).transmit(port)
    }

    /// The change count of a port of a system.
    fn change_count(&self, side: Side, port: u16) -> u64
        ensures { result ≡ change_count_in (history_at (half (model_side side) (world_state C.items C.limit self.now)).histories port) }
    {
        change_count(&self.half(side).histories, port)
    }

    /// Sends a frame on a port of a system.
    fn send(&mut self, side: Side, port: u16, frame: &[u8; 124], octets: Vec<u8>) -> Reply
        requires sent { (v : Pdu) × IsSent frame.now v }
        requires place { IsReserved C.items C.limit C.reserved (model_side side) port self.old.links.items }
        requires empty { octets.items ≡ [] }
        requires room { vec_len octets + 124 ≤ vec_capacity octets }
        ensures emitted { AfterTransmit (model_side side) port (Ok (Some frame.now)) (world_state C.items C.limit self.old) result
            (world_state C.items C.limit self.new) }
        ensures acted { self.new.acted ≡ self.old.acted }
        ensures algorithm_one { self.new.one.system.algorithm ≡ self.old.one.system.algorithm }
        ensures algorithm_two { self.new.two.system.algorithm ≡ self.old.two.system.algorithm }
    {
        let pdu = pdu_of(frame);
        let count = self.change_count(side, port);
        let item = Item {
            bytes: filled(octets, frame),
            stamp: stamp_for(pdu, count),
        };
        let accepted = put_on_port(&mut self.links, side, port, item);
        sent_reply(pdu, accepted)
    }

    /// Sends what is due on a port of a system. The places that this needs are reserved.
    fn emit_due(&mut self, side: Side, port: u16, octets: Vec<u8>) -> Reply
        requires place { IsReserved C.items C.limit C.reserved (model_side side) port self.old.links.items }
        requires empty { octets.items ≡ [] }
        requires room { vec_len octets + 124 ≤ vec_capacity octets }
        ensures emits { WorldEmits (both_algorithms (F.post self.old.one.system.algorithm) (F.post self.old.two.system.algorithm))
            (model_side side) port
            (world_state C.items C.limit self.old) result (world_state C.items C.limit self.new) }
        ensures acted { self.new.acted ≡ self.old.acted }
        ensures algorithm_one { self.new.one.system.algorithm ≡ self.old.one.system.algorithm }
        ensures algorithm_two { self.new.two.system.algorithm ≡ self.old.two.system.algorithm }
    {
        match self.transmit(side, port) {
            Err(fault) => Reply::Refused(fault),
            Ok(None) => Reply::Nothing,
            Ok(Some(frame)) => self.send(side, port, &frame, octets),
        }
    }

    /// Sends what is due on a port of a system.
    pub(crate) fn emit(&mut self, system: u8, port: u16) -> Result<Reply, WorldFault>
        ensures emits { IfOk result
            (λ reply. WorldEmits (both_algorithms (F.post self.old.one.system.algorithm) (F.post self.old.two.system.algorithm))
            (side_numbered system) port (world_state C.items C.limit self.old) reply (world_state C.items C.limit self.new)) }
        ensures refused { IfErr result (λ fault. fault ≡ OutOfMemory) }
        ensures unchanged { IfErr result (λ fault. world_state C.items C.limit self.new ≡ world_state C.items C.limit self.old) }
        ensures acted { self.new.acted ≡ self.old.acted }
        ensures algorithm_one { self.new.one.system.algorithm ≡ self.old.one.system.algorithm }
        ensures algorithm_two { self.new.two.system.algorithm ≡ self.old.two.system.algorithm }
    {
        let side = side_numbered(system);
        let octets = Vec::with_capacity(self.alloc, CONTROL_FRAME_LENGTH)?;
        reserve_on(&mut self.links, side, port)?;
        Ok(self.emit_due(side, port, octets))
    }
}
