//! A cable with a limit.
ghost use Rattle.std.specs.Prelude.{◌≡◌, ◌≢◌, ◌↔◌, [], Some, true, IfOk, IsErrOf};
ghost use Rattle.cables.specs.Faults.{fault_number, fault_text};
ghost use Rattle.cables.specs.declared.ring.CableFault.TheVariants.{Limit, NoMemory as OutOfMemory};

use crate::cable::{Cable, NoMemory};
use crate::item::Item;
use circular_buffer::HeapCircularBuffer;
use std::alloc::{AllocError, Global};
use std::fmt;
use std::marker::Model;

/// Why a cable with a limit cannot be made (profile).
#[derive(Clone, Copy, Debug, PartialEq, Eq)]
pub enum CableFault {
    /// The limit is 0.
    Limit,
    /// Memory was refused.
    NoMemory,
}

impl CableFault {
    /// The number of the fault: 1 for `Limit`, 2 for `NoMemory` (profile).
    pub fn number(&self) -> u8
        ensures { result ≡ fault_number self.now }
    {
        match self {
            CableFault::Limit => 1,
            CableFault::NoMemory => 2,
        }
    }
}

impl fmt::Display for CableFault {
    ghost output = { λ fault. Some (fault_text fault) };

    fn fmt<W: fmt::Write>(&self, f: &mut fmt::Formatter<W>) -> fmt::Result {
        match self {
            CableFault::Limit => f.write_str("the limit is 0"),
            CableFault::NoMemory => f.write_str("out of memory"),
        }
    }
}

impl From<AllocError> for CableFault {
    // An `AllocError` becomes `NoMemory`.
    ghost from_gives = { λ _ fault. fault ≡ OutOfMemory };

    fn from(_: AllocError) -> CableFault {
        CableFault::NoMemory
    }
}

/// A cable with a limit of 1 to 65535 items (profile). A place is always reserved, so `reserve_one` never fails, and
/// `push` fails only if the cable is full.
#[derive(Drop)]
pub struct RingCable {
    ring: HeapCircularBuffer<Item>,
}

impl Model for RingCable {
    ghost use Rattle.std.specs.Prelude.{◌≤◌, length};
    ghost use Rattle.cables.specs.Cable.{RingValue};

    ghost Value = { RingValue };

    // The limit is the capacity of the ring.
    ghost view = { λ c. record { items = c.ring.items; limit = c.ring.capacity } };

    // There are never more items than the limit.
    ghost invariant = { λ c. length c.ring.items ≤ c.ring.capacity };
}

impl RingCable {
    /// An empty cable for at most `limit` items. `Limit` exactly if `limit` is 0; `NoMemory` if memory for another
    /// limit is refused (profile).
    pub fn new(alloc: Global, limit: u16) -> Result<RingCable, CableFault>
        // The new cable is empty, and its limit is the argument.
        ensures empty { IfOk result (λ c. ⟦<RingCable as Cable>⟧.items c ≡ []) }
        ensures limit { IfOk result (λ c. ⟦<RingCable as Cable>⟧.limit c ≡ Some limit) }

        // `Limit` is returned exactly for 0, and `NoMemory` never for 0.
        ensures refused { IsErrOf result Limit ↔ (limit ≡ 0) }
        ensures no_memory { IsErrOf result OutOfMemory → limit ≢ 0 }
    {
        if limit == 0 {
            return Err(CableFault::Limit);
        }
        let ring = HeapCircularBuffer::with_capacity(alloc, usize::from(limit))?;
        Ok(RingCable { ring })
    }
}

impl Cable for RingCable {
    // Its items, in their order.
    ghost items = { λ c. c.items };

    // Its limit is the one that it was made with.
    ghost limit = { λ c. Some c.limit };

    // A place is always reserved: `new` took memory for as many items as the limit allows.
    ghost reserved = { λ _. true };

    fn push(&mut self, item: Item) -> Result<(), Item> {
        self.ring.try_push_back(item)
    }

    fn reserve_one(&mut self) -> Result<(), NoMemory> {
        Ok(())
    }

    fn front(&self) -> Option<&Item> {
        self.ring.front()
    }

    fn pop(&mut self) -> Option<Item> {
        self.ring.pop_front()
    }

    fn clear(&mut self) {
        self.ring.clear();
    }

    fn len(&self) -> usize {
        self.ring.len()
    }

    fn limit(&self) -> Option<usize> {
        Some(self.ring.capacity())
    }
}
