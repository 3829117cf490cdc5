ghost use Rattle.std.specs.Prelude.{◌≡◌};
ghost use Rattle.findings.specs.Ends.{end_of, lacpdu_in, port_of, same_end};

use slowpdu::{Lacpdu, Marker, MarkerKind, WireFault};

/// One end of a link, as a capture shows it.
#[derive(Clone, Copy, Debug, Default, PartialEq, Eq)]
pub struct LinkEnd {
    /// The interface of the capture, from 0.
    pub interface: u32,
    /// The source address of the end's frames.
    pub source: [u8; 6],
    /// The port number that the frame names as its sender's: the Actor's port in an LACPDU, Requester_Port in a marker;
    /// None for a response and for a payload that is refused.
    pub port: Option<u16>,
}

impl LinkEnd {
    /// Whether interface, source address and port are the same.
    pub fn is(&self, other: &LinkEnd) -> bool
        ensures { result ≡ same_end self.now other.now }
    {
        *self == *other
    }
}

/// What the payload of a frame holds.
#[derive(Clone, Copy, Debug, PartialEq, Eq)]
pub enum What {
    /// An LACPDU (6.4.2.3).
    Lacpdu(Lacpdu),
    /// A marker or a response (6.5.3.3).
    Marker(Marker),
    /// Neither, and why.
    Refused(WireFault),
}

impl What {
    /// The port number that the payload names as its sender's.
    fn port(&self) -> Option<u16>
        ensures { result ≡ port_of self.now }
    {
        match self {
            What::Lacpdu(pdu) => Some(pdu.actor.port.number),
            What::Marker(marker) => match marker.kind {
                MarkerKind::Information => Some(marker.port),
                MarkerKind::Response => None,
            },
            What::Refused(_) => None,
        }
    }

    /// The LACPDU that it is, if it is one.
    pub(crate) fn lacpdu(&self) -> Option<Lacpdu>
        ensures { result ≡ lacpdu_in self.now }
    {
        match self {
            What::Lacpdu(pdu) => Some(*pdu),
            _ => None,
        }
    }
}

/// A frame of the slow protocols in a capture.
#[derive(Clone, Copy, Debug, PartialEq, Eq)]
pub struct SlowFrame {
    /// The number of the packet in the capture, from 1.
    pub number: u64,
    /// The interface of the capture, from 0.
    pub interface: u32,
    /// When it was captured, in nanoseconds since the beginning of 1970; 0 if the capture has no time for it. No rule of
    /// time holds from a frame without a time, nor from one to another that the clock puts before it.
    pub nanoseconds: u64,
    /// The source address.
    pub source: [u8; 6],
    /// The destination address; None if the capture does not keep it, as Linux cooked captures do not.
    pub destination: Option<[u8; 6]>,
    /// How many tags it has (802.1Q or 802.1ad).
    pub tags: u8,
    /// The length of the frame in octets from its destination address on, without its tags.
    pub length: u32,
    /// Octet 1 of the payload, the version; of no meaning if the payload is refused.
    pub version: u8,
    /// Whether a reserved octet is not zero; of no meaning if the payload is refused.
    pub reserved: bool,
    /// Whether a TLV type, or the type or length of the Terminator, is another one than in 6.4.2.3 and 6.5.3.3; of no meaning
    /// if the payload is refused.
    pub other_types: bool,
    /// What the payload holds.
    pub what: What,
}

impl SlowFrame {
    // promise: an end is its interface, source address and the port that it names
    // contract: `SlowFrame::end`, `Findings::end`
    /// The end that sent the frame.
    pub fn end(&self) -> LinkEnd
        ensures { result ≡ end_of self.now }
    {
        LinkEnd {
            interface: self.interface,
            source: self.source,
            port: self.what.port(),
        }
    }
}
