ghost use Rattle.std.specs.Prelude.{◌≡◌, ◌+◌, ◌≤◌, ◌<◌, ℕ, [], length, map, option_map, slice_get, slice_set, true, vec_capacity};
ghost use Rattle.std.specs.Prelude.{vec_len, IfErr, IfOk, IfSome, IsSomeAnd, OnOk, Some};
ghost use Rattle.slowpdu.specs.declared.pdu.Lacpdu.{Lacpdu};
ghost use Rattle.slowpdu.specs.Lacpdus.{Reads};
ghost use Rattle.lagworld.specs.declared.fault.WorldFault.TheVariants.{NoMemory as OutOfMemory};
ghost use Rattle.lagworld.specs.Arriving.{HalfReceives, Concludes, WorldDelivers, HalfReceivesFirst, WorldReceivesFirst, CarriesLacpdu};
ghost use Rattle.lagworld.specs.Arriving.{CanCollectFor, IsToRecord, HasPlacesForItem, WorldRepeats, first_head, head_in, is_data};
ghost use Rattle.lagworld.specs.Arriving.{last_lacpdu_recorded, history_index};
ghost use Rattle.lagworld.specs.Events.{with_stamp_collected, has_cable, stamped_in, with_item_sent, set_last_lacpdu};
ghost use Rattle.lagworld.specs.WorldCalls.{world_state};
ghost use Rattle.lagworld.specs.Inner.{half_state, link_state, link_states};
ghost use Rattle.lagworld.specs.Messages.{item_value, stamp_count, side_numbered};
ghost use Rattle.lagworld.specs.Places.{IsReserved, is_reserved};
ghost use Rattle.lagworld.specs.Sides.{model_side};
ghost use Rattle.lagworld.specs.Sound.{both_algorithms};
ghost use Rattle.lagworld.specs.State.{is_accepted, port_at, towards, without_first};

use crate::collecting::{collect, reserve_collected};
use crate::emitting::{CONTROL_FRAME_LENGTH, filled};
use crate::fault::WorldFault;
use crate::half::Half;
use crate::histories::{PortHistory, StampedLacpdu};
use crate::inner::Inner;
use crate::link::Link;
use crate::reply::Reply;
use crate::sending::{put_on_port, reserve_on};
use crate::side::{Side, side_numbered};
use cables::{Cable, Item, Stamp};
use lagsystem::{Received, SystemFault};
use slowpdu::{Kind, Lacpdu, Pdu, classify, decode};
use std::alloc::AllocError;

/// What is read of the first item on a cable towards a system before it arrives: the port that it will arrive on, and
/// its stamp.
#[derive(Clone, Copy, Debug, PartialEq, Eq)]
pub(crate) struct Head {
    pub(crate) port: u16,
    pub(crate) stamp: Stamp,
}

/// Whether an item is a data frame.
fn is_data(stamp: Stamp) -> bool
    ensures { result ≡ is_data stamp }
{
    match stamp {
        Stamp::Control(_) => false,
        Stamp::Data { .. } => true,
    }
}

/// For an LACPDU, the change count in its stamp: how often its sender's parameters had changed. 0 for any other frame.
fn stamp_count(stamp: Stamp) -> u64
    ensures { result ≡ stamp_count stamp }
{
    match stamp {
        Stamp::Control(count) => count,
        Stamp::Data { .. } => 0,
    }
}

/// The LACPDU of a payload, if it is one.
fn lacpdu_of(payload: &[u8]) -> Option<Lacpdu>
    ensures { (v : Lacpdu) → Reads payload.now v → result ≡ Some v }
{
    match decode(payload) {
        Ok(Pdu::Lacpdu(pdu)) => Some(pdu),
        Ok(Pdu::Marker(_)) => None,
        Err(_) => None,
    }
}

/// The LACPDU in a frame, if there is one.
fn carried_lacpdu(octets: &[u8]) -> Option<Lacpdu>
    ensures { (v : Lacpdu) → CarriesLacpdu octets.now v → result ≡ Some v }
{
    match classify(octets) {
        Kind::Control(payload) => lacpdu_of(payload),
        Kind::Data => None,
        Kind::TooShort => None,
    }
}

/// The LACPDU in an item, if there is one, with its stamp.
fn stamped_in(item: &Item) -> Option<StampedLacpdu>
    ensures { (v : Lacpdu) → CarriesLacpdu item.now.bytes.items v → result ≡ Some (stamped_in (item_value item.now)) }
{
    match carried_lacpdu(&item.bytes) {
        Some(pdu) => {
            let stamp = stamp_count(item.stamp);
            Some(StampedLacpdu { pdu, stamp })
        }
        None => None,
    }
}

/// The LACPDU of this item, with its stamp, to record as the port's last, if the system answers that it processed it.
fn lacpdu_to_record(answer: Result<Received, SystemFault>, item: &Item) -> Option<StampedLacpdu>
    ensures { IsToRecord answer (item_value item.now) result }
{
    match answer {
        Ok(Received::TookLacpdu) => stamped_in(item),
        Ok(Received::Disabled) => None,
        Ok(Received::Dropped) => None,
        Ok(Received::Ignored(_)) => None,
        Ok(Received::Respond(_)) => None,
        Ok(Received::Released(_)) => None,
        Ok(Received::Up(_)) => None,
        Err(_) => None,
    }
}

/// The index of the history of a port.
fn history_index(histories: &[PortHistory], port: u16) -> Option<usize>
    ensures index { result ≡ history_index port histories.now }
    ensures within { IfSome result (λ index. index < length histories.now) }
{
    histories.iter().position(|history| history.number == port)
}

/// Records that a port received this LACPDU.
fn set_last_lacpdu(histories: &mut Vec<PortHistory>, port: u16, lacpdu: StampedLacpdu)
    ensures { histories.new.items ≡ set_last_lacpdu port lacpdu histories.old.items }
{
    match history_index(histories, port) {
        Some(index) => histories[index].taken = Some(lacpdu),
        None => {}
    }
}

/// Records that a port received this LACPDU, if there is one.
fn record_last_lacpdu(histories: &mut Vec<PortHistory>, port: u16, lacpdu: Option<StampedLacpdu>)
    ensures { histories.new.items ≡ last_lacpdu_recorded port lacpdu histories.old.items }
{
    match lacpdu {
        Some(lacpdu) => set_last_lacpdu(histories, port, lacpdu),
        None => {}
    }
}

impl<F: Fn(u16, usize) -> usize + Drop> Half<F> {
    /// An item arrives on a port of this system.
    fn receive(&mut self, port: u16, item: &Item) -> Result<Received, SystemFault>
        ensures comes { HalfReceives (F.post self.old.system.algorithm) port (item_value item.now) result
            (half_state self.old) (half_state self.new) }
        ensures algorithm { self.new.system.algorithm ≡ self.old.system.algorithm }
        ensures flows { self.new.flows ≡ self.old.flows }
    {
        let answer = self.system.receive(port, &item.bytes);
        let lacpdu = lacpdu_to_record(answer, item);
        record_last_lacpdu(&mut self.histories, port, lacpdu);
        answer
    }

    /// The first item on a cable arrives on a port, if there is one.
    pub(crate) fn receive_first<C: Cable>(
        &mut self,
        cable: &C,
        port: u16,
    ) -> Option<Result<Received, SystemFault>>
        ensures comes { HalfReceivesFirst (F.post self.old.system.algorithm) port (map item_value (C.items cable.now))
            result (half_state self.old)
            (half_state self.new) }
        ensures algorithm { self.new.system.algorithm ≡ self.old.system.algorithm }
        ensures flows { self.new.flows ≡ self.old.flows }
    {
        match cable.front() {
            Some(item) => Some(self.receive(port, item)),
            None => None,
        }
    }
}

/// What is read of the first item on a cable that will arrive on this port.
fn first_head<C: Cable>(cable: &C, port: u16) -> Option<Head>
    ensures { result ≡ first_head port (map item_value (C.items cable.now)) }
{
    match cable.front() {
        Some(item) => Some(Head {
            port,
            stamp: item.stamp,
        }),
        None => None,
    }
}

impl<C: Cable> Link<C> {
    /// What is read of the first item on this cable towards a system, if there is one.
    fn head(&self, side: Side) -> Option<Head>
        ensures { result ≡ head_in (model_side side) (link_state C.items C.limit self.now) }
    {
        first_head(self.towards(side), self.port_at(side))
    }

    /// Takes the first item on this cable towards a system off.
    fn pop_first(&mut self, side: Side) -> Option<Item>
        ensures first { option_map item_value result ≡ slice_get (towards (model_side side) (link_state C.items C.limit self.old)) 0 }
        ensures rest { link_state C.items C.limit self.new ≡ without_first (model_side side) (link_state C.items C.limit self.old) }
        ensures reserved { is_reserved C.reserved (model_side side) self.new ≡ is_reserved C.reserved (model_side side) self.old }
    {
        self.towards_mut(side).pop()
    }
}

/// What is read of the first item towards a system, on the cable at an index.
fn head_of<C: Cable>(links: &Vec<Link<C>>, side: Side, index: usize) -> Option<Head>
    requires { index < length links.now.items }
    ensures { IsSomeAnd (slice_get (link_states C.items C.limit links.now.items) index) (λ l. result ≡ head_in (model_side side) l) }
{
    let link = &links[index];
    link.head(side)
}

/// Takes the first item towards a system off the cable at an index. A place that is reserved for what this system sends
/// stays reserved.
pub(crate) fn pop_first_at<C: Cable>(
    links: &mut Vec<Link<C>>,
    side: Side,
    index: usize,
) -> Option<Item>
    requires { index < length links.old.items }
    ensures taken { IsSomeAnd (slice_get (link_states C.items C.limit links.old.items) index)
        (λ l. (option_map item_value result ≡ slice_get (towards (model_side side) l) 0)
        × (link_states C.items C.limit links.new.items ≡ slice_set (link_states C.items C.limit links.old.items) index
        (without_first (model_side side) l))) }
    ensures reserved { (p : ℕ) → IsReserved C.items C.limit C.reserved (model_side side) p links.old.items
        → IsReserved C.items C.limit C.reserved (model_side side) p links.new.items }
{
    let link = &mut links[index];
    link.pop_first(side)
}

impl<C: Cable, F: Fn(u16, usize) -> usize + Drop> Inner<C, F> {
    /// Reserves a place for the serial number of an item in its conversation's list of collected ones.
    fn reserve_collected(&mut self, stamp: Stamp) -> Result<(), AllocError>
        ensures same { world_state C.items C.limit self.new ≡ world_state C.items C.limit self.old }
        ensures links { self.new.links ≡ self.old.links }
        ensures room { OnOk result (CanCollectFor stamp self.new.one.flows.items self.new.two.flows.items) }
        ensures acted { self.new.acted ≡ self.old.acted }
        ensures algorithm_one { self.new.one.system.algorithm ≡ self.old.one.system.algorithm }
        ensures algorithm_two { self.new.two.system.algorithm ≡ self.old.two.system.algorithm }
    {
        match stamp {
            Stamp::Control(_) => Ok(()),
            Stamp::Data {
                system,
                agg,
                conv,
                ..
            } => {
                let half = self.half_mut(side_numbered(system));
                reserve_collected(&mut half.flows, agg, conv)
            }
        }
    }

    /// Reserves all memory that an arriving item may need: the octets of a response, a place for the response on the
    /// cable of the port, and a place for a serial number. Returns the memory for the octets.
    fn reserve_for_item(&mut self, side: Side, head: Head) -> Result<Vec<u8>, WorldFault>
        ensures refused { IfErr result (λ fault. fault ≡ OutOfMemory) }
        ensures same { world_state C.items C.limit self.new ≡ world_state C.items C.limit self.old }
        ensures ready { OnOk result (HasPlacesForItem C.items C.limit C.reserved (model_side side) head self.new) }
        ensures empty { IfOk result (λ bytes. bytes.items ≡ []) }
        ensures room { IfOk result (λ bytes. vec_len bytes + 124 ≤ vec_capacity bytes) }
        ensures acted { self.new.acted ≡ self.old.acted }
        ensures algorithm_one { self.new.one.system.algorithm ≡ self.old.one.system.algorithm }
        ensures algorithm_two { self.new.two.system.algorithm ≡ self.old.two.system.algorithm }
    {
        let bytes = Vec::with_capacity(self.alloc, CONTROL_FRAME_LENGTH)?;
        reserve_on(&mut self.links, side, head.port)?;
        self.reserve_collected(head.stamp)?;
        Ok(bytes)
    }

    /// The first item towards a system on the cable at an index arrives, if there is one.
    fn receive_first(&mut self, side: Side, index: usize) -> Option<Result<Received, SystemFault>>
        requires { index < length self.old.links.items }
        ensures received { IsSomeAnd (slice_get (link_states C.items C.limit self.old.links.items) index)
            (λ l. WorldReceivesFirst (both_algorithms (F.post self.old.one.system.algorithm) (F.post self.old.two.system.algorithm))
            (model_side side)
            (port_at (model_side side) l) (towards (model_side side) l) result (world_state C.items C.limit self.old)
            (world_state C.items C.limit self.new)) }
        ensures links { self.new.links ≡ self.old.links }
        ensures flows_one { self.new.one.flows ≡ self.old.one.flows }
        ensures flows_two { self.new.two.flows ≡ self.old.two.flows }
        ensures acted { self.new.acted ≡ self.old.acted }
        ensures algorithm_one { self.new.one.system.algorithm ≡ self.old.one.system.algorithm }
        ensures algorithm_two { self.new.two.system.algorithm ≡ self.old.two.system.algorithm }
    {
        // A cable and a half are borrowed at once, which `half_mut` cannot do.
        let link = &self.links[index];
        match side {
            Side::One => self.one.receive_first(&link.to_one, link.one),
            Side::Two => self.two.receive_first(&link.to_two, link.two),
        }
    }

    /// Puts a response on the cable of a port; returns whether the cable accepted it.
    fn respond(&mut self, side: Side, port: u16, bytes: Vec<u8>, frame: [u8; 124]) -> bool
        requires reserved { IsReserved C.items C.limit C.reserved (model_side side) port self.old.links.items }
        requires empty { bytes.items ≡ [] }
        requires room { vec_len bytes + 124 ≤ vec_capacity bytes }
        ensures accepted { result ≡ is_accepted (model_side side) port (link_states C.items C.limit self.old.links.items) }
        ensures put { world_state C.items C.limit self.new ≡ with_item_sent (model_side side) port
            (record { octets = frame; stamp = Stamp.Control 0 })
            (world_state C.items C.limit self.old) }
        ensures acted { self.new.acted ≡ self.old.acted }
        ensures algorithm_one { self.new.one.system.algorithm ≡ self.old.one.system.algorithm }
        ensures algorithm_two { self.new.two.system.algorithm ≡ self.old.two.system.algorithm }
    {
        let item = Item {
            bytes: filled(bytes, &frame),
            stamp: Stamp::Control(0),
        };
        put_on_port(&mut self.links, side, port, item)
    }

    /// Records that a data frame was handed up: its serial number counts as collected, for the system that sent it.
    fn collect(&mut self, stamp: Stamp)
        requires { CanCollectFor stamp self.old.one.flows.items self.old.two.flows.items }
        ensures collected { world_state C.items C.limit self.new ≡ with_stamp_collected stamp (world_state C.items C.limit self.old) }
        ensures acted { self.new.acted ≡ self.old.acted }
        ensures algorithm_one { self.new.one.system.algorithm ≡ self.old.one.system.algorithm }
        ensures algorithm_two { self.new.two.system.algorithm ≡ self.old.two.system.algorithm }
    {
        match stamp {
            Stamp::Control(_) => {}
            Stamp::Data {
                system,
                agg,
                conv,
                serial,
            } => {
                let sender = side_numbered(system);
                let half = self.half_mut(sender);
                collect(&mut half.flows, agg, conv, serial);
            }
        }
    }

    /// Sends the response, or counts the data frame as collected, as the system's answer to an item asks; gives the reply.
    fn conclude(
        &mut self,
        side: Side,
        head: Head,
        answer: Result<Received, SystemFault>,
        bytes: Vec<u8>,
    ) -> Reply
        requires ready { HasPlacesForItem C.items C.limit C.reserved (model_side side) head self.old }
        requires empty { bytes.items ≡ [] }
        requires room { vec_len bytes + 124 ≤ vec_capacity bytes }
        ensures concludes { Concludes (model_side side) head.port head.stamp answer (world_state C.items C.limit self.old) result
            (world_state C.items C.limit self.new) }
        ensures acted { self.new.acted ≡ self.old.acted }
        ensures algorithm_one { self.new.one.system.algorithm ≡ self.old.one.system.algorithm }
        ensures algorithm_two { self.new.two.system.algorithm ≡ self.old.two.system.algorithm }
    {
        match answer {
            Ok(Received::Disabled) => Reply::Disabled,
            Ok(Received::Dropped) => Reply::Dropped,
            Ok(Received::Ignored(_)) => Reply::Ignored,
            Ok(Received::TookLacpdu) => Reply::Took,
            Ok(Received::Respond(frame)) => {
                Reply::Responded(self.respond(side, head.port, bytes, frame))
            }
            Ok(Received::Released(count)) => Reply::Released(count),
            Ok(Received::Up(agg)) => {
                self.collect(head.stamp);
                Reply::Up(agg)
            }
            Err(fault) => Reply::Refused(fault),
        }
    }

    /// The first item towards a system is taken off a cable and arrives.
    pub(crate) fn deliver(&mut self, cable: u16, system: u8) -> Result<Reply, WorldFault>
        requires there { has_cable (world_state C.items C.limit self.old) (Some cable) ≡ true }
        ensures delivers { IfOk result (λ reply. WorldDelivers (both_algorithms (F.post self.old.one.system.algorithm)
            (F.post self.old.two.system.algorithm)) (side_numbered system) cable (world_state C.items C.limit self.old) reply
            (world_state C.items C.limit self.new)) }
        ensures refused { IfErr result (λ fault. fault ≡ OutOfMemory) }
        ensures unchanged { IfErr result (λ fault. world_state C.items C.limit self.new ≡ world_state C.items C.limit self.old) }
        ensures acted { self.new.acted ≡ self.old.acted }
        ensures algorithm_one { self.new.one.system.algorithm ≡ self.old.one.system.algorithm }
        ensures algorithm_two { self.new.two.system.algorithm ≡ self.old.two.system.algorithm }
    {
        let side = side_numbered(system);
        let index = self.link_index_of(cable);
        let Some(head) = head_of(&self.links, side, index) else {
            return Ok(Reply::Empty);
        };
        let bytes = self.reserve_for_item(side, head)?;
        let Some(answer) = self.receive_first(side, index) else {
            return Ok(Reply::Empty);
        };
        pop_first_at(&mut self.links, side, index);
        Ok(self.conclude(side, head, answer, bytes))
    }

    /// The first item on a cable towards a system arrives but stays on the cable, unless it is a data frame.
    pub(crate) fn repeat(&mut self, cable: u16, system: u8) -> Result<Reply, WorldFault>
        requires there { has_cable (world_state C.items C.limit self.old) (Some cable) ≡ true }
        ensures repeats { IfOk result (λ reply. WorldRepeats (both_algorithms (F.post self.old.one.system.algorithm)
            (F.post self.old.two.system.algorithm)) (side_numbered system) cable (world_state C.items C.limit self.old) reply
            (world_state C.items C.limit self.new)) }
        ensures refused { IfErr result (λ fault. fault ≡ OutOfMemory) }
        ensures unchanged { IfErr result (λ fault. world_state C.items C.limit self.new ≡ world_state C.items C.limit self.old) }
        ensures acted { self.new.acted ≡ self.old.acted }
        ensures algorithm_one { self.new.one.system.algorithm ≡ self.old.one.system.algorithm }
        ensures algorithm_two { self.new.two.system.algorithm ≡ self.old.two.system.algorithm }
    {
        let side = side_numbered(system);
        let index = self.link_index_of(cable);
        let Some(head) = head_of(&self.links, side, index) else {
            return Ok(Reply::Empty);
        };
        if is_data(head.stamp) {
            return Ok(Reply::NotControl);
        }
        let bytes = self.reserve_for_item(side, head)?;
        let Some(answer) = self.receive_first(side, index) else {
            return Ok(Reply::Empty);
        };
        Ok(self.conclude(side, head, answer, bytes))
    }
}
