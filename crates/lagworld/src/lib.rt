//! Two `System`s joined by cables, and every event that can happen to them: ticks, sends, deliveries, losses, repeated
//! control PDUs, cuts, restarts, changes. A `World` plays events and returns a `Reply` for each. The contract of
//! `World::run` is the headline: after any list of events, ports of one system that distribute in one aggregator name one
//! partner system and key; the two distributing ends of a cable name the same group (LAG ID; IEEE 802.1AX-2014, 6.3.6),
//! unless one of them changed since it sent the LACPDU that its peer took last, or runs on defaults; and what is collected
//! of a conversation that was never forced is a subsequence of what was sent.
//!
//! In comments, "profile" is docs/PROFILE.md.
#![tactic(auto)]

mod agreement;
mod changes;
mod collecting;
mod delivering;
mod emitting;
mod fault;
mod half;
mod histories;
mod inner;
mod laws;
mod link;
mod losing;
mod offering;
mod readers;
mod reply;
mod sending;
mod serials;
mod side;
mod start;
mod world;

pub use agreement::Agreement;
pub use fault::{RunFault, WorldFault};
pub use lagscript::{
    BadWorld, EntryFault, Event, Plan, PortKey, ScriptFault, SystemKey, WorldConfig, read_plan,
    read_script,
};
pub use laws::{
    a_start_is_sound, each_event_happens, each_event_has_one_reply, each_event_keeps,
    each_world_keeps_the_headline, events_have_limits,
};
pub use reply::Reply;
pub use world::World;
