//! Which conversation moves to which port, so that the ports of an aggregator carry alike.
//!
//! `next_move` reads the port and the load of each conversation and answers one move, or none where none would make the
//! loads more alike. `laws` says what a run of such moves comes to. The standard leaves the spread of conversations to the
//! Frame Distributor; all of this is profile.

mod laws;
mod moves;

pub use laws::every_run_of_moves;
pub use moves::{Carried, Move, next_move};
