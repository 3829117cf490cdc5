//! Payloads and frames of the slow protocols: LACPDUs (IEEE 802.1AX-2014, 6.4) and Marker PDUs (6.5). The functions
//! keep no state and take no memory. Both layouts are tables in `specs/Lacpdus.antt` and `specs/Markers.antt`;
//! contracts of readers and writers name them.
//!
//! In comments, "profile" is docs/PROFILE.md.
#![tactic(auto)]

mod constants;
mod decoding;
mod encoding;
mod fault;
mod frames;
mod laws;
mod marker;
mod pdu;

pub use decoding::decode;
pub use fault::WireFault;
pub use frames::{Kind, classify, frame};
pub use laws::{
    encode_then_decode, one_payload_is_written, one_reading_or_one_fault, what_follows_is_ignored,
    what_is_framed_is_control, what_is_written_is_read,
};
pub use marker::respond;
pub use pdu::{Info, Lacpdu, Marker, MarkerKind, Pdu};
