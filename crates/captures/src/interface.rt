use crate::link::LinkType;
use crate::time::Shift;

/// The most interfaces of one section.
pub const MOST_INTERFACES: usize = 64;

/// How the packets of an interface are timed.
#[derive(Clone, Copy, Debug, Default, PartialEq, Eq)]
pub struct Timing {
    /// How many units of time a second has.
    pub units: u64,
    /// How far each time is moved.
    pub shift: Shift,
}

/// What a section of pcapng says of one interface.
#[derive(Clone, Copy, Debug, Default, PartialEq, Eq)]
pub struct Interface {
    /// What its packets begin with.
    pub link: LinkType,
    /// The most octets that are captured of a packet; 0 if there is no limit.
    pub snapshot: u32,
    /// How its packets are timed.
    pub timing: Timing,
}
