//! Readers and writers that remember whether they failed, and the lines of what is read: what `lagtool` and `lagpage` stand
//! on. In comments, "profile" is docs/PROFILE.md.
#![tactic(auto)]

mod line;
mod sink;
mod source;

pub use line::{LONGEST_LINE, without_return};
pub use sink::{Sink, WriteFailed};
pub use source::{ReadFailed, Source};
