//! Two systems, their cables and the events that happen to them, as values and as the text of a script
//! (docs/PROFILE.md, "profile" in comments).
#![tactic(auto)]

mod config;
mod entries;
mod event;
mod fault;
mod forms;
mod laws;
mod lists;
mod plan;
mod script;
mod tables;
mod values;
mod words;

pub use config::{BadWorld, WorldConfig};
pub use entries::{NAMES, form_of};
pub use event::Event;
pub use fault::{EntryFault, PortKey, ScriptFault, SystemKey};
pub use forms::{Form, WordKind};
pub use laws::scripts_have_a_limit_of_entries;
pub use plan::Plan;
pub use script::{MOST_ENTRIES, TOP_KEYS, read_plan, read_script};
pub use tables::{CABLE_KEYS, PORT_KEYS, SYSTEM_KEYS};
