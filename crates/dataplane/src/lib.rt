//! What a host with a data plane needs beside a system: who answers markers, which aggregator carries, which frames wait, and
//! which conversation moves; and a warm start.
//!
//! In comments, numbers such as 6.5.3.3 are sections of IEEE 802.1AX-2014, and "profile" is docs/PROFILE.md.
#![tactic(auto)]

mod active;
mod adopting;
mod answering;
mod balance;
mod churn;
mod client_order;
mod counting;
mod holding;
mod resuming;
mod warming;

pub use active::{
    active_aggregator, aggregator_or_none, both_ends_choose_alike, each_call_keeps_one_aggregator,
    forcing_and_resting_keep_one_aggregator, leaving_and_probing_keep_one_aggregator,
    offer_conversation_in_active_aggregator, offer_in_active_aggregator,
    the_active_aggregator_stays,
};
pub use adopting::{a_warm_start_may_follow, adopt};
pub use answering::{Answering, MarkerNote};
pub use balance::{Carried, Move, every_run_of_moves, next_move};
pub use churn::{Churn, ChurnMachine, ChurnState, every_history_of_ticks};
pub use client_order::{from_client_to_client, one_aggregator_at_a_time};
pub use counting::Counters;
pub use holding::{Holding, Refusal, Released, every_list_of_calls};
pub use resuming::{ResumeFault, SavedPort, resume};
