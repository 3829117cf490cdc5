//! A box as its pointer and its allocator, for a handle whose type, as C or the host of a module sees it, does not name what it keeps.
#![tactic(auto)]

mod parts;

pub use parts::Parts;
