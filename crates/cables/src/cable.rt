//! What is true of every cable.
ghost use Rattle.std.specs.Prelude.{◌≡◌, ℕ, List, [], ◌∷◌, ◌++◌, Bool, false, Option, length, drop, slice_get, option_copied, IfErr};
ghost use Rattle.std.specs.Prelude.{IsErr, IsTrue, OnErr, OnOk};

use crate::item::Item;
use std::alloc::AllocError;

/// Out of memory: memory that a call needed was refused (profile).
pub type NoMemory = AllocError;

/// A cable in one direction, first in first out (profile).
///
/// Only `reserve_one`, and `push` when no place is reserved, can run out of memory. Only a successful `push` uses up a
/// reserved place. The limit never changes.
pub trait Cable: Drop {
    ghost use Rattle.cables.specs.declared.item.Item.{Item};
    ghost use Rattle.cables.specs.Cable.{is_full};

    // The items on the cable, the first to come off first.
    ghost items: { Self → List Item };

    // How many items the cable can hold; `None` if there is no limit.
    ghost limit: { Self → Option ℕ };

    // Whether a place is reserved, so that the next push cannot run out of memory.
    ghost reserved: { Self → Bool };

    /// Puts an item behind the others; or returns it, and changes nothing, if the cable is full or, when no place was
    /// reserved, memory is refused.
    fn push(&mut self, item: Item) -> Result<(), Item>
        ensures appended { OnOk result (items self.new ≡ items self.old ++ item ∷ []) }
        ensures handed_back { IfErr result (λ back. (back ≡ item) × (items self.new ≡ items self.old)) }
        ensures full { IsTrue (is_full (limit self.old) (items self.old)) → IsErr result }
        ensures untouched { IsTrue (is_full (limit self.old) (items self.old)) → reserved self.new ≡ reserved self.old }
        ensures place { IsTrue (reserved self.old) → IsErr result → IsTrue (is_full (limit self.old) (items self.old)) }
        ensures limit { limit self.new ≡ limit self.old };

    /// Reserves a place for the next push, which then cannot run out of memory. `NoMemory` if no place was reserved and
    /// memory is refused; items and limit are then unchanged.
    fn reserve_one(&mut self) -> Result<(), NoMemory>
        ensures ok { OnOk result (IsTrue (reserved self.new)) }
        ensures err { OnErr result (reserved self.old ≡ false) }
        ensures items { items self.new ≡ items self.old }
        ensures limit { limit self.new ≡ limit self.old };

    /// The first item; `None` if the cable is empty.
    fn front(&self) -> Option<&Item>
        ensures { option_copied result ≡ slice_get (items self.now) 0 };

    /// Takes the first item off; `None` if the cable is empty.
    fn pop(&mut self) -> Option<Item>
        ensures first { result ≡ slice_get (items self.old) 0 }
        ensures rest { items self.new ≡ drop 1 (items self.old) }
        ensures limit { limit self.new ≡ limit self.old }
        ensures reserved { IsTrue (reserved self.old) → IsTrue (reserved self.new) };

    /// Takes every item off.
    fn clear(&mut self)
        ensures empty { items self.new ≡ [] }
        ensures limit { limit self.new ≡ limit self.old }
        ensures reserved { IsTrue (reserved self.old) → IsTrue (reserved self.new) };

    /// How many items there are.
    fn len(&self) -> usize
        ensures { result ≡ length (items self.now) };

    /// How many items the cable can hold; `None` if there is no limit.
    fn limit(&self) -> Option<usize>
        ensures { result ≡ limit self.now };
}
