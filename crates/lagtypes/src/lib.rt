//! Identifiers of link aggregation (IEEE 802.1AX-2014, 6.3): systems, ports, keys, aggregators; the state octet of a
//! port; the parameters of one end of a link; the Link Aggregation Group of two ends; and the words of a line of text, with
//! the numbers that they stand for.
//!
//! In comments, numbers such as 6.4.2.3 are sections of that standard, and "profile" is docs/PROFILE.md.
#![tactic(auto)]

mod group;
mod identifiers;
mod laws;
mod memory;
mod party;
mod state;
mod words;

pub use group::{End, Group};
pub use identifiers::{AggId, Key, MacText, OctetText, PortId, SystemId};
pub use laws::{equal_groups_are_equal_pairs, state_bits_are_kept};
pub use memory::NoMemory;
pub use party::{Choice, Party};
pub use state::{State, StateBits};
pub use words::{decimal_u16, decimal_u32, words_of};
