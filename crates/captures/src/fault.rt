ghost use Rattle.std.specs.Prelude.{◌≡◌};
ghost use Rattle.captures.specs.Faults.{refused, cause_number};

/// Why a capture is not read on.
#[derive(Clone, Copy, Debug, PartialEq, Eq)]
pub enum Cause {
    /// The file is packed by gzip.
    Gzip,
    /// The file begins neither as pcap nor as pcapng: its first four octets as a number, the first the most significant.
    Format(u32),
    /// The number that tells a section's order of octets is neither of the two; read with the first octet the most
    /// significant.
    SectionOrder(u32),
    /// The format has a version that is not read: major and minor.
    Version(u16, u16),
    /// The link type is not Ethernet (1), Linux cooked 1 (113) or 2 (276).
    LinkType(u32),
    /// A length is none that a block can have, or less than what it covers.
    Length(u32),
    /// The length behind a block, which differs from the one before it.
    SecondLength(u32),
    /// More than `MOST_CAPTURED` octets of a packet are captured.
    Captured(u32),
    /// The description of an interface has more than `MOST_CAPTURED` octets.
    Description(u32),
    /// A packet names an interface that the section does not describe.
    Interface(u32),
    /// A section describes more than `MOST_INTERFACES` interfaces.
    Interfaces,
    /// A resolution of time, as the option if_tsresol gives it, finer than 10^-19 or 2^-63 of a second.
    Resolution(u8),
    /// The time is before the beginning of 1970, or 2^64 nanoseconds after it or later.
    Time,
    /// The file ends within a header, a block or a packet.
    CutShort,
}

/// A cause, and the offset where it stands, counted from the first of the octets that were given to `Reader::read`.
#[derive(Clone, Copy, Debug, PartialEq, Eq)]
pub struct Fault {
    /// The offset of the number that is wrong, or of the block.
    pub at: usize,
    /// What is wrong.
    pub cause: Cause,
}

/// Why `Reader::read` gives no step.
#[derive(Clone, Copy, Debug, PartialEq, Eq)]
pub enum Stop {
    /// The next step needs this many octets, counted from the first of those that were given, and fewer were given.
    Wants(usize),
    /// The capture has this fault, and reading stops.
    Refused(Fault),
}

impl Cause {
    /// The number of the cause, 1 to 14.
    pub fn number(&self) -> u8
        ensures { result ≡ cause_number self.now }
    {
        match self {
            Cause::Gzip => 1,
            Cause::Format(_) => 2,
            Cause::SectionOrder(_) => 3,
            Cause::Version(_, _) => 4,
            Cause::LinkType(_) => 5,
            Cause::Length(_) => 6,
            Cause::SecondLength(_) => 7,
            Cause::Captured(_) => 8,
            Cause::Description(_) => 9,
            Cause::Interface(_) => 10,
            Cause::Interfaces => 11,
            Cause::Resolution(_) => 12,
            Cause::Time => 13,
            Cause::CutShort => 14,
        }
    }
}

/// A refusal at this offset.
pub(crate) fn refused(at: usize, cause: Cause) -> Stop
    ensures { result ≡ refused at cause }
{
    Stop::Refused(Fault { at, cause })
}
