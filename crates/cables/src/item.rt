//! The items on a cable: frames.

/// What an item is, for the tests and laws that follow frames. It is not on the wire: no system reads it (profile).
#[derive(Clone, Copy, Debug, PartialEq, Eq)]
pub enum Stamp {
    /// A control frame. For an LACPDU, the change count of the port that sent it: how often its parameters have
    /// changed. Else 0.
    Control(u64),
    /// A data frame.
    Data {
        /// The system that sent the frame, 1 or 2.
        system: u8,
        /// The aggregator whose client sent the frame, from 1.
        agg: u16,
        /// The conversation of the frame, 0 to 4095.
        conv: u16,
        /// The number of the frame among those of its conversation, from 0.
        serial: u64,
    },
}

/// A frame on a cable, with its stamp (profile).
#[derive(Debug, PartialEq, Eq, Drop)]
pub struct Item {
    /// The octets of the frame. Cables do not read them.
    pub bytes: Vec<u8>,
    /// What the frame is.
    pub stamp: Stamp,
}
