//! A cable without a limit.
ghost use Rattle.std.specs.Prelude.{◌≡◌, [], None};

use crate::cable::{Cable, NoMemory};
use crate::item::Item;
use std::alloc::Global;
use std::collections::VecDeque;
use std::marker::Model;

/// A cable without a limit (profile). It takes memory as it fills.
#[derive(Drop)]
pub struct ListCable {
    queue: VecDeque<Item>,
}

impl Model for ListCable {
    ghost use Rattle.std.specs.Prelude.{nat_lt};
    ghost use Rattle.std.specs.VecDeque.{deque_items, deque_len, deque_capacity};
    ghost use Rattle.cables.specs.Cable.{ListValue};

    ghost Value = { ListValue };

    // A place is reserved if the block of memory has room for one more item.
    ghost view = { λ c. record { items = deque_items c.queue; reserved = nat_lt (deque_len c.queue) (deque_capacity c.queue) } };
}

impl ListCable {
    // promise: a new `ListCable` is empty without a limit; a new `RingCable` is empty with its limit, refused as `Limit` exactly if that is
    //    0, and never refuses to reserve
    // contract: `ListCable::new`, `RingCable::new` (`empty`, `limit`, `refused`, `no_memory`), `reserve_one` (`err`)
    // promise: `AnyCable` is the cable that it holds
    // contract: `AnyCable` under the trait's clauses
    /// An empty cable. It keeps the allocator, for the memory that it takes later (profile).
    pub fn new(alloc: Global) -> ListCable
        // The cable is empty.
        ensures { ⟦<ListCable as Cable>⟧.items result ≡ [] }
    {
        ListCable {
            queue: VecDeque::new(alloc),
        }
    }
}

impl Cable for ListCable {
    // Its items, in their order.
    ghost items = { λ c. c.items };

    // It has no limit.
    ghost limit = { λ _. None };

    // Whether there is room for one more without new memory.
    ghost reserved = { λ c. c.reserved };

    fn push(&mut self, item: Item) -> Result<(), Item> {
        self.queue.push_back(item).map_err(|refused| refused.value)
    }

    fn reserve_one(&mut self) -> Result<(), NoMemory> {
        self.queue.reserve(1)
    }

    fn front(&self) -> Option<&Item> {
        self.queue.front()
    }

    fn pop(&mut self) -> Option<Item> {
        self.queue.pop_front()
    }

    fn clear(&mut self) {
        self.queue.clear();
    }

    fn len(&self) -> usize {
        self.queue.len()
    }

    fn limit(&self) -> Option<usize> {
        None
    }
}
