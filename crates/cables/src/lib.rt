//! Cables between two systems, first in first out: without a limit, with one, or either.
//!
//! A cable carries `Item`s in one direction. The trait `Cable` states what is true of every kind: for proofs a cable is
//! a list of items, a limit that never changes, and whether a place is reserved. `ListCable` takes memory as it fills,
//! on a `RingCable` a place is always reserved, and `AnyCable` is one or the other. The standard speaks of links only;
//! all of this is profile (docs/PROFILE.md).
#![tactic(auto)]

mod any;
mod cable;
mod item;
mod list;
mod ring;

pub use any::AnyCable;
pub use cable::{Cable, NoMemory};
pub use item::{Item, Stamp};
pub use list::ListCable;
pub use ring::{CableFault, RingCable};
