//! One system: its ports, aggregators and conversations, and the settling that follows a call (IEEE 802.1AX-2014, 6.2
//! to 6.5).
//!
//! In comments, numbers such as 6.4.12 are sections of that standard, and "profile" is docs/PROFILE.md.
#![tactic(auto)]

mod algorithm;
mod assigning;
mod calls;
mod config;
mod configure;
mod conversation_readers;
mod conversation_tables;
mod distributing_ports;
mod drive;
mod fault;
mod forcing;
mod holding;
mod inner;
mod laws;
mod leaving;
mod offers;
mod parse;
mod port_readers;
mod port_status;
mod probing;
mod process_lacpdu;
mod promoting;
mod received;
mod set_link;
mod settings;
mod settling;
mod start;
mod system_ports;
mod system_readers;
mod take_lacpdu;
mod tick;
mod transmit;
mod uses;
mod waiting;

pub use arrayvec::ArrayVec;
pub use calls::System;
pub use config::{Config, PortChange, PortConfig};
pub use distributor::Assignment;
pub use drive::{Call, HostCall, HostReply, Reply};
pub use fault::{BadConfig, SystemFault};
pub use lagtypes::{AggId, Choice, Group, Key, NoMemory, Party, PortId, State, SystemId};
pub use laws::{
    by_number_is_a_function, each_call_has_one_answer, each_conversation_has_a_frame,
    first_state_is_one, host_calls_keep_the_limits, offers_and_data_make_none_due,
    rows_name_the_answer, settling_again_is_nothing, ticks_only_count_until_due,
    ticks_until_due_tells_the_first, transmit_answers_what_is_due, window_holds,
};
pub use port_status::PortStatus;
pub use portmachines::{MuxState, ReceiveState};
pub use received::Received;
pub use slowpdu::{Info, WireFault};
