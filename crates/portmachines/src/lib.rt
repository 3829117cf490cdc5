//! The machines of one port: receive, periodic, mux under coupled control, and transmit with its limit of three LACPDUs
//! in eleven ticks (IEEE 802.1AX-2014, 6.4). No call takes memory.
//!
//! In comments, numbers such as 6.4.12 are sections of that standard, "profile" is docs/PROFILE.md, a tick is 100 ms,
//! and a row is one transition of a machine: from a state, if a condition holds, to a state, with actions.
#![tactic(auto)]

mod hearing;
mod machines;
mod mux;
mod periodic;
mod port;
mod receive;
mod transmit;

pub use mux::MuxState;
pub use periodic::PeriodicState;
pub use port::{Port, Setup, each_call_has_one_effect, one_row_is_enabled_at_most};
pub use receive::ReceiveState;
pub use transmit::window_holds;
