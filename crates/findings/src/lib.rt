//! What is wrong with a link, by the frames of a capture: findings of rules of IEEE 802.1AX-2014. `Findings::observe`
//! takes one frame of the slow protocols after the other, in memory that does not grow; `Findings::finding` answers
//! whether a rule holds of an end, and the first frame that shows it. Each rule is a definition over the list of the
//! end's frames (`specs/Holds.antt`).
//!
//! In comments, numbers such as 6.4.9 are sections of that standard.
#![tactic(auto)]

mod asking;
mod finding;
mod frame_rules;
mod heard;
mod kept_end;
mod lacpdu_rules;
mod observing;
mod order;
mod others;
mod recent;
mod responding;
mod rule;
mod slow_frame;
mod waiting;

pub use finding::{Finding, Shown};
pub use observing::{Findings, MOST_ENDS};
pub use rule::Rule;
pub use slow_frame::{LinkEnd, SlowFrame, What};
