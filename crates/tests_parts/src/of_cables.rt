use crate::comparing::{prints, same, same_at};
use cables::{AnyCable, Cable, CableFault, Item, ListCable, RingCable, Stamp};
use std::alloc::{AllocError, Global};
use std::process::Abort;
use std::test::Fail;

/// A control frame without octets; its stamp tells it from the others.
fn control(alloc: Global, count: u64) -> Item {
    Item {
        bytes: Vec::new(alloc),
        stamp: Stamp::Control(count),
    }
}

/// A data frame of conversation 48.
fn data(alloc: Global) -> Result<Item, AllocError> {
    let bytes = Vec::from_slice(alloc, &[2, 0, 0, 0, 0, 0x20, 2, 0, 0, 0, 0, 0x10, 8, 0])?;
    let stamp = Stamp::Data {
        system: 2,
        agg: 3,
        conv: 48,
        serial: 5,
    };
    Ok(Item { bytes, stamp })
}

/// `push` of the control frame with this count: whether the cable accepts it, or hands it back.
fn pushes<C: Cable>(rt: &impl Abort, alloc: Global, cable: &mut C, count: u64, accepts: bool) {
    let item = control(alloc, count);
    let wanted = if accepts { Ok(()) } else { Err(item) };
    let answer = cable.push(control(alloc, count));
    same_at(rt, "push of item", count, &answer, &wanted);
}

/// The first item is the control frame with this count, and is taken off.
fn pops<C: Cable>(rt: &impl Abort, alloc: Global, cable: &mut C, count: u64) {
    let first = control(alloc, count);
    same_at(rt, "front of item", count, &cable.front(), &Some(&first));
    same_at(rt, "pop of item", count, &cable.pop(), &Some(first));
}

fn is_empty<C: Cable>(rt: &impl Abort, cable: &mut C) {
    same(rt, "front of an empty cable", &cable.front(), &None);
    same(rt, "pop of an empty cable", &cable.pop(), &None);
}

/// How many items are on the cable, and how many it can hold.
fn holds<C: Cable>(rt: &impl Abort, cable: &C, len: u64, limit: Option<u16>) {
    same(rt, "len", &(cable.len() as u64), &len);
    same(rt, "limit", &cable.limit(), &limit.map(usize::from));
}

/// Puts items with the stamps from 0 up to `tries` on; the cable accepts this many.
fn fills<C: Cable>(
    rt: &impl Abort,
    alloc: Global,
    cable: &mut C,
    kept: u64,
    tries: u64,
) -> Result<(), AllocError> {
    for count in 0..tries {
        cable.reserve_one()?;
        pushes(rt, alloc, cable, count, count < kept);
    }
    Ok(())
}

/// Sends a data frame through a cable, and leaves another on it.
fn takes_data<C: Cable>(rt: &impl Abort, alloc: Global, cable: &mut C) -> Result<(), AllocError> {
    let pushed = cable.push(data(alloc)?);
    same(rt, "push of a data frame", &pushed, &Ok(()));
    let popped = cable.pop();
    same(rt, "pop of a data frame", &popped, &Some(data(alloc)?));
    let pushed = cable.push(data(alloc)?);
    same(rt, "push before clear", &pushed, &Ok(()));
    Ok(())
}

/// Makes each call of a cable: puts items on, takes off those that the cable accepted, then sends a data frame through it,
/// and clears another.
fn carries<C: Cable>(
    rt: &impl Abort,
    alloc: Global,
    mut cable: C,
    limit: Option<u16>,
    tries: u64,
) -> Result<(), AllocError> {
    let kept = limit.map_or(tries, u64::from);
    holds(rt, &cable, 0, limit);
    fills(rt, alloc, &mut cable, kept, tries)?;
    holds(rt, &cable, kept, limit);
    for count in 0..kept {
        pops(rt, alloc, &mut cable, count);
    }
    is_empty(rt, &mut cable);
    takes_data(rt, alloc, &mut cable)?;
    cable.clear();
    holds(rt, &cable, 0, limit);
    Ok(())
}

/// Both kinds of a cable with this limit.
fn rings_carry(rt: &impl Abort, alloc: Global, limit: u16) -> Result<(), CableFault> {
    let tries = u64::from(limit) + 2;
    let ring = RingCable::new(alloc, limit)?;
    carries(rt, alloc, ring, Some(limit), tries)?;
    let either = AnyCable::Ring(RingCable::new(alloc, limit)?);
    carries(rt, alloc, either, Some(limit), tries)?;
    Ok(())
}

#[test]
fn each_kind_is_filled_to_its_limit_and_past_it(rt: HostRuntime) -> Result<(), Fail> {
    let alloc = rt.alloc();
    carries(&rt, alloc, ListCable::new(alloc), None, 65_537)?;
    let either = AnyCable::List(ListCable::new(alloc));
    carries(&rt, alloc, either, None, 65_537)?;
    for limit in [1, 2, 65_535] {
        rings_carry(&rt, alloc, limit)?;
    }
    Ok(())
}

/// The faults, and the number and the text of each.
const FAULTS: [(CableFault, u8, &str); 2] = [
    (CableFault::Limit, 1, "the limit is 0"),
    (CableFault::NoMemory, 2, "out of memory"),
];

#[test]
fn a_limit_of_0_is_refused_and_faults_have_texts(rt: HostRuntime) -> Result<(), AllocError> {
    let refused = RingCable::new(rt.alloc(), 0).err();
    same(&rt, "new with limit 0", &refused, &Some(CableFault::Limit));
    for (fault, number, text) in &FAULTS {
        same(&rt, *text, &fault.number(), number);
        prints(&rt, rt.alloc(), fault, *text)?;
    }
    Ok(())
}

/// A ring of three places is full: an item comes back, the first one leaves, and the item goes on.
fn turns(rt: &impl Abort, alloc: Global, ring: &mut RingCable, first: u64) {
    let count = first.saturating_add(3);
    pushes(rt, alloc, ring, count, false);
    pops(rt, alloc, ring, first);
    pushes(rt, alloc, ring, count, true);
    holds(rt, ring, 3, Some(3));
}

#[test]
fn a_ring_serves_long_after_it_first_was_full(rt: HostRuntime) -> Result<(), CableFault> {
    let alloc = rt.alloc();
    let mut cable = RingCable::new(alloc, 3)?;
    for count in 0..3 {
        pushes(&rt, alloc, &mut cable, count, true);
    }
    for first in 0..9_997 {
        turns(&rt, alloc, &mut cable, first);
    }
    Ok(())
}

/// Reserves a place in a list and puts an item there; if memory is refused, the list stays as it is.
fn grows(rt: &impl Abort, alloc: Global, list: &mut ListCable, count: u64) {
    let before = list.len();
    let reserved = list.reserve_one().is_ok();
    same_at(
        rt,
        "len after reserve_one for item",
        count,
        &list.len(),
        &before,
    );
    match list.push(control(alloc, count)) {
        Ok(()) => same_at(
            rt,
            "longer after push of item",
            count,
            &(list.len() > before),
            &true,
        ),
        Err(back) => {
            same_at(
                rt,
                "a place was reserved for item",
                count,
                &reserved,
                &false,
            );
            same_at(rt, "push of item", count, &back, &control(alloc, count));
            same_at(rt, "len after item", count, &list.len(), &before);
        }
    }
}

fn fills_ring(rt: &impl Abort, alloc: Global, ring: &mut RingCable) {
    for count in 0..100 {
        same_at(
            rt,
            "reserve_one for item",
            count,
            &ring.reserve_one().is_ok(),
            &true,
        );
        pushes(rt, alloc, ring, count, true);
    }
}

/// Passes whichever allocation is refused.
#[test]
fn refused_memory_leaves_the_items(rt: HostRuntime) {
    let alloc = rt.alloc();
    let mut list = ListCable::new(alloc);
    for count in 0..100 {
        grows(&rt, alloc, &mut list, count);
    }
    match RingCable::new(alloc, 100) {
        Ok(mut ring) => fills_ring(&rt, alloc, &mut ring),
        Err(fault) => same(&rt, "new with limit 100", &fault, &CableFault::NoMemory),
    }
}
