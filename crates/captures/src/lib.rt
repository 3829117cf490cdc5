//! Captures of frames: pcap (draft-ietf-opsawg-pcap) and pcapng (draft-ietf-opsawg-pcapng). `Reader::read` takes the
//! octets at hand, and answers the next header, block or packet, how many octets are wanted, or the first fault. So a
//! capture of any length is read in pieces, and never more than `MOST_WANTED` octets are wanted at once.
#![tactic(auto)]

mod block;
mod description;
mod fault;
mod format;
mod interface;
mod laws;
mod link;
mod number;
mod packet;
mod pcap;
mod pcapng;
mod reader;
mod time;
mod writing;

pub use fault::{Cause, Fault, Stop};
pub use format::Format;
pub use interface::{Interface, MOST_INTERFACES, Timing};
pub use laws::{a_step_stays, what_is_written_is_read};
pub use link::LinkType;
pub use number::Order;
pub use packet::{MOST_CAPTURED, MOST_WANTED, Packet};
pub use reader::{Reader, Step};
pub use time::{Shift, Unit};
pub use writing::{put_file_header, put_packet};
