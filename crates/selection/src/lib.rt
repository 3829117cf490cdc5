//! The Selection Logic of one system: which aggregator an eligible port chooses, which ports are the members of an
//! aggregator, when it is Ready, and with a limit on its links which STANDBY port comes next (IEEE 802.1AX-2014, 6.4.14;
//! profile).
//!
//! In comments, "profile" is docs/PROFILE.md.
#![tactic(auto)]

mod aggregators;
mod laws;
mod limits;
mod standings;
mod view;

pub use aggregators::Aggregators;
pub use laws::tests_are_equalities;
pub use view::{PortView, Stage, are_views};
