//! The Frame Distributor of each aggregator (IEEE 802.1AX-2014, 6.2.4): which port the frames of a conversation go on,
//! and how a conversation moves from port to port behind a marker (6.2.5, 6.5), so that its frames keep their order.
//! The algorithm that picks ports is the caller's. Only `Distributor::new` and `with_conversations` take memory.
//!
//! In comments, "profile" is docs/PROFILE.md, and a tick is 100 ms. A conversation is On a port; Wanted on a port,
//! until a marker is sent there; Flushing on a port, until the response comes; or free.
#![tactic(auto)]

mod algorithm;
mod assignment;
mod change;
mod conversations;
mod fault;
mod laws;
mod slots;
mod table;

pub use algorithm::by_number;
pub use assignment::Assignment;
pub use conversations::Distributor;
pub use fault::DistFault;
pub use laws::{by_number_picks_indexes, calls_are_moves, first_is_the_first_view};
