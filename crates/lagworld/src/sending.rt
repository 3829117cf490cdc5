ghost use Rattle.std.specs.Prelude.{◌≡◌, ◌<◌, ◌==◌, ◌++◌, [], ◌∷◌, ℕ, length, map, not, position, slice_get, slice_set, if◌then◌else◌};
ghost use Rattle.std.specs.Prelude.{IfErr, IfSome, IsSomeAnd, IsTrue, OnOk, Some};
ghost use Rattle.lagworld.specs.declared.fault.WorldFault.TheVariants.{NoMemory as OutOfMemory};
ghost use Rattle.lagworld.specs.Inner.{link_state, link_states};
ghost use Rattle.lagworld.specs.Messages.{item_value};
ghost use Rattle.lagworld.specs.Places.{AreReserved, IsReserved, IsReservedAt, is_reserved};
ghost use Rattle.lagworld.specs.Sides.{model_side};
ghost use Rattle.lagworld.specs.State.{is_at_limit, is_accepted, by_side, put_on_port, sent_on, accepts};

use crate::fault::WorldFault;
use crate::link::Link;
use crate::side::Side;
use cables::{Cable, Item, NoMemory};

/// Puts an item behind the others on a direction of a cable; returns false, and loses the item, if that is full.
fn push_or_lose<C: Cable>(cable: &mut C, item: Item) -> bool
    requires { IsTrue (C.reserved cable.old) }
    ensures accepted { result ≡ not (is_at_limit (C.limit cable.old) (length (map item_value (C.items cable.old)))) }
    ensures items { map item_value (C.items cable.new) ≡ (if result then map item_value (C.items cable.old) ++ item_value item ∷ []
        else map item_value (C.items cable.old)) }
    ensures limit { C.limit cable.new ≡ C.limit cable.old }
{
    cable.push(item).is_ok()
}

impl<C: Cable> Link<C> {
    /// Reserves a place on this cable for what a system sends.
    fn reserve(&mut self, side: Side) -> Result<(), NoMemory>
        ensures same { link_state C.items C.limit self.new ≡ link_state C.items C.limit self.old }
        ensures ok { OnOk result (IsTrue (is_reserved C.reserved (model_side side) self.new)) }
    {
        self.towards_mut(side.peer()).reserve_one()
    }

    /// Sends an item of a system on this cable; returns false, and loses the item, if the cable is cut or full.
    fn send(&mut self, side: Side, item: Item) -> bool
        requires { IsTrue (is_reserved C.reserved (model_side side) self.old) }
        ensures sent { link_state C.items C.limit self.new ≡ sent_on (model_side side) (item_value item)
            (link_state C.items C.limit self.old) }
        ensures accepted { result ≡ accepts (model_side side) (link_state C.items C.limit self.old) }
    {
        if !self.whole {
            return false;
        }
        push_or_lose(self.towards_mut(side.peer()), item)
    }
}

/// The index of the cable of a port of a system.
fn link_index_of_port<C: Cable>(links: &Vec<Link<C>>, side: Side, port: u16) -> Option<usize>
    ensures index { result ≡ position (λ l. by_side (model_side side) l.one l.two == port) links.now.items }
    ensures within { IfSome result (λ index. index < length links.now.items) }
{
    links.iter().position(|link| link.port_at(side) == port)
}

/// Reserves a place on the cable at an index for what a system sends.
fn reserve_at<C: Cable>(links: &mut Vec<Link<C>>, index: usize, side: Side) -> Result<(), NoMemory>
    requires { index < length links.old.items }
    ensures same { link_states C.items C.limit links.new.items ≡ link_states C.items C.limit links.old.items }
    ensures ok { OnOk result (IsReservedAt C.reserved (model_side side) (Some index) links.new.items) }
    ensures others { (i : ℕ) → i < index → IsReservedAt C.reserved (model_side side) (Some i) links.old.items
        → IsReservedAt C.reserved (model_side side) (Some i) links.new.items }
    ensures len { length links.new.items ≡ length links.old.items }
{
    let link = &mut links[index];
    link.reserve(side)
}

/// Reserves a place for what a port of a system sends, on the cable of that port, if it has one.
pub(crate) fn reserve_on<C: Cable>(
    links: &mut Vec<Link<C>>,
    side: Side,
    port: u16,
) -> Result<(), WorldFault>
    ensures same { link_states C.items C.limit links.new.items ≡ link_states C.items C.limit links.old.items }
    ensures ok { OnOk result (IsReserved C.items C.limit C.reserved (model_side side) port links.new.items) }
    ensures refused { IfErr result (λ fault. fault ≡ OutOfMemory) }
{
    match link_index_of_port(links, side, port) {
        Some(index) => {
            reserve_at(links, index, side)?;
            Ok(())
        }
        None => Ok(()),
    }
}

/// Reserves a place for what a system sends, on every cable.
pub(crate) fn reserve_all<C: Cable>(links: &mut Vec<Link<C>>, side: Side) -> Result<(), WorldFault>
    ensures same { link_states C.items C.limit links.new.items ≡ link_states C.items C.limit links.old.items }
    ensures ok { OnOk result (AreReserved C.reserved (model_side side) links.new.items) }
    ensures refused { IfErr result (λ fault. fault ≡ OutOfMemory) }
{
    let mut index = 0;
    while index < links.len() {
        reserve_at(links, index, side)?;
        index += 1;
    }
    Ok(())
}

/// Sends an item of a system on the cable at an index; returns whether the cable accepted it.
fn send_at<C: Cable>(links: &mut Vec<Link<C>>, index: usize, side: Side, item: Item) -> bool
    requires within { index < length links.old.items }
    requires reserved { IsReservedAt C.reserved (model_side side) (Some index) links.old.items }
    ensures { IsSomeAnd (slice_get (link_states C.items C.limit links.old.items) index)
        (λ l. (link_states C.items C.limit links.new.items ≡ slice_set (link_states C.items C.limit links.old.items) index
        (sent_on (model_side side) (item_value item) l)) × (result ≡ accepts (model_side side) l)) }
{
    let link = &mut links[index];
    link.send(side, item)
}

/// Sends an item on a port of a system; returns whether its cable accepted it. The item is lost at once if the port has
/// no cable, or if the cable is cut or full (profile).
pub(crate) fn put_on_port<C: Cable>(
    links: &mut Vec<Link<C>>,
    side: Side,
    port: u16,
    item: Item,
) -> bool
    requires { IsReserved C.items C.limit C.reserved (model_side side) port links.old.items }
    ensures put { link_states C.items C.limit links.new.items ≡ put_on_port (model_side side) port (item_value item)
        (link_states C.items C.limit links.old.items) }
    ensures accepted { result ≡ is_accepted (model_side side) port (link_states C.items C.limit links.old.items) }
{
    match link_index_of_port(links, side, port) {
        Some(index) => send_at(links, index, side, item),
        None => false,
    }
}
