//! A cable that may be of either kind.
use crate::cable::{Cable, NoMemory};
use crate::item::Item;
use crate::list::ListCable;
use crate::ring::RingCable;

/// A cable of either kind (profile).
#[derive(Drop)]
pub enum AnyCable {
    /// A cable without a limit.
    List(ListCable),
    /// A cable with a limit.
    Ring(RingCable),
}

// promise: a cable keeps its order: a new item is the last, `front` shows the first, `pop` takes it off, `clear` leaves nothing, `len` is
//    exact
// contract: trait `Cable`: `push` (`appended`, `handed_back`), `pop` (`first`, `rest`), `front`, `clear` (`empty`), `len`
impl Cable for AnyCable {
    ghost use Rattle.cables.specs.AnyCable.{any_items, any_limit, any_reserved};

    // The items of the cable that it holds.
    ghost items = { any_items };

    // The limit of that cable.
    ghost limit = { any_limit };

    // Whether that cable has a place reserved.
    ghost reserved = { any_reserved };

    // promise: a full cable hands the item back and changes nothing; one that is not full keeps it, if a place is reserved
    // contract: `push` (`full`, `untouched`, `place`)
    fn push(&mut self, item: Item) -> Result<(), Item> {
        match self {
            AnyCable::List(cable) => cable.push(item),
            AnyCable::Ring(cable) => cable.push(item),
        }
    }

    // promise: `reserve_one` reserves a place, `pop` and `clear` keep it; a refused one changes nothing, and no place was reserved
    // contract: `reserve_one` (`ok`, `items`, `limit`, `err`), `pop`, `clear` (`reserved`)
    // not said: whether a place is reserved after a push or a refusal
    fn reserve_one(&mut self) -> Result<(), NoMemory> {
        match self {
            AnyCable::List(cable) => cable.reserve_one(),
            AnyCable::Ring(cable) => cable.reserve_one(),
        }
    }

    fn front(&self) -> Option<&Item> {
        match self {
            AnyCable::List(cable) => cable.front(),
            AnyCable::Ring(cable) => cable.front(),
        }
    }

    fn pop(&mut self) -> Option<Item> {
        match self {
            AnyCable::List(cable) => cable.pop(),
            AnyCable::Ring(cable) => cable.pop(),
        }
    }

    fn clear(&mut self) {
        match self {
            AnyCable::List(cable) => cable.clear(),
            AnyCable::Ring(cable) => cable.clear(),
        }
    }

    fn len(&self) -> usize {
        match self {
            AnyCable::List(cable) => cable.len(),
            AnyCable::Ring(cable) => cable.len(),
        }
    }

    // promise: a limit never changes, and `limit` returns it
    // contract: `limit`, and clause `limit` of the others
    fn limit(&self) -> Option<usize> {
        match self {
            AnyCable::List(cable) => cable.limit(),
            AnyCable::Ring(cable) => cable.limit(),
        }
    }
}
