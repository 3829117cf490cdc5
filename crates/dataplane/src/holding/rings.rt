//! The rings in which handles wait, one a conversation.
ghost use Rattle.std.specs.Prelude.{◌≡◌, ◌<◌, ◌++◌, ◌∷◌, [], length, drop, replicate, slice_get, slice_set, IfOk};
ghost use Rattle.circular_buffer.specs.Buffer.{buffer};
ghost use Rattle.dataplane.specs.Holding.{ring_at};

use circular_buffer::HeapCircularBuffer;
use std::alloc::{AllocError, Global};

/// Empty rings with this many places each.
pub(crate) fn empty_rings<T: Drop>(
    alloc: Global,
    count: u16,
    places: usize,
) -> Result<Vec<HeapCircularBuffer<T>>, AllocError>
    ensures { IfOk result (λ rings. rings.items ≡ replicate count (buffer [] places)) }
{
    let mut rings = Vec::with_capacity(alloc, usize::from(count))?;
    for _ in 0..count {
        rings.push(HeapCircularBuffer::with_capacity(alloc, places)?)?;
    }
    Ok(rings)
}

/// Puts a handle behind the others of a ring that has room.
pub(crate) fn put_behind<T: Drop>(rings: &mut Vec<HeapCircularBuffer<T>>, place: usize, handle: T)
    requires place { place < length rings.old.items }
    requires room { length (ring_at rings.old.items place).items < (ring_at rings.old.items place).capacity }
    ensures { let ring = ring_at rings.old.items place in rings.new.items ≡ slice_set rings.old.items place (buffer (ring.items ++ handle ∷ []) ring.capacity) }
{
    let ring = &mut rings[place];
    let _none_is_handed_back = ring.try_push_back(handle);
}

/// Takes the first handle of a ring; `None` if it has none, or there is no such ring.
pub(crate) fn take_first<T: Drop>(rings: &mut Vec<HeapCircularBuffer<T>>, place: usize) -> Option<T>
    ensures first { result ≡ slice_get (ring_at rings.old.items place).items 0 }
    ensures rest { let ring = ring_at rings.old.items place in rings.new.items ≡ slice_set rings.old.items place (buffer (drop 1 ring.items) ring.capacity) }
{
    if place >= rings.len() {
        return None;
    }
    let ring = &mut rings[place];
    ring.pop_front()
}

/// Drops each handle of a ring, and says how many there were; 0 if there is no such ring.
pub(crate) fn empty_one<T: Drop>(rings: &mut Vec<HeapCircularBuffer<T>>, place: usize) -> usize
    ensures number { result ≡ length (ring_at rings.old.items place).items }
    ensures empty { rings.new.items ≡ slice_set rings.old.items place (buffer [] (ring_at rings.old.items place).capacity) }
{
    if place >= rings.len() {
        return 0;
    }
    let ring = &mut rings[place];
    let number = ring.len();
    ring.clear();
    number
}
