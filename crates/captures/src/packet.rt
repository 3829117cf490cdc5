use crate::link::LinkType;

/// The most captured octets of one packet: the largest snapshot length that tcpdump and Wireshark use.
pub const MOST_CAPTURED: u32 = 262_144;

/// The most octets that a `Reader` wants at once: a packet block of pcapng up to the end of the captured octets.
pub const MOST_WANTED: usize = 262_172;

/// A captured packet. Its captured octets stand among those that were given to `Reader::read`.
#[derive(Clone, Copy, Debug, PartialEq, Eq)]
pub struct Packet {
    /// The interface in its section, from 0; 0 in pcap.
    pub interface: u32,
    /// What the captured octets begin with.
    pub link: LinkType,
    /// Nanoseconds since the beginning of 1970; None for a simple packet block, which has no time.
    pub time: Option<u64>,
    /// How many octets the packet had.
    pub original: u32,
    /// The offset of the captured octets among those that were given.
    pub start: usize,
    /// The offset behind the last captured octet.
    pub end: usize,
}
