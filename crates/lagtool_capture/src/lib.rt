//! What a capture of LACPDUs and Marker PDUs says: a line for each frame of the slow protocols, then whether each link carries,
//! the ends of links, what is found of those, and the counts. A capture of any length is read in pieces, in memory that does not
//! grow with it.
//!
//! In comments, numbers such as 6.4.2.3 are sections of IEEE 802.1AX-2014, and "profile" is docs/PROFILE.md.
#![tactic(auto)]

mod capture_report;
mod end_texts;
mod ends;
mod fault;
mod finding_texts;
mod gaps;
mod header;
mod job;
mod json;
mod json_ends;
mod json_links;
mod lacpdu_texts;
mod line;
mod link_forms;
mod link_texts;
mod links;
mod names;
mod noticing;
mod reading;
mod settings;
mod slow_frames;
mod summary;
mod taking;

pub use capture_report::CaptureReport;
pub use fault::{CaptureFault, ReadFault};
pub use gaps::Gaps;
pub use job::report_capture;
pub use reading::Reading;
pub use settings::Settings;
pub use slow_frames::frame_in;
pub use summary::CaptureSummary;
