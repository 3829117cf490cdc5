ghost use Rattle.std.specs.Prelude.{◌≡◌, ◌≤◌, Some, IfOk, length};
ghost use Rattle.lagtool_jobs.specs.Verdicts.{frame_verdict, is_fault, kind_verdict, line_verdict, payload_verdict};
ghost use Rattle.lagtool_jobs.specs.Verdicts.{verdict_text};
ghost use Rattle.lagstreams.specs.Lines.{longest_line, without_return};

use crate::texts::RefusalText;
use hex::FromHexError;
use lagstreams::{LONGEST_LINE, without_return};
use slowpdu::{Kind, MarkerKind, Pdu, WireFault, classify, decode};
use std::alloc::{AllocError, Global};
use std::fmt;

/// The verdict of `check` on a line (profile).
#[derive(Clone, Copy, Debug, PartialEq, Eq)]
pub enum Verdict {
    /// A frame with an LACPDU.
    Lacpdu,
    /// A frame with a Marker PDU.
    Marker,
    /// A frame with a Marker Response PDU.
    MarkerResponse,
    /// A frame with another EtherType than 0x8809.
    Data,
    /// Fewer than 14 octets; an empty line too.
    Runt,
    /// A frame with EtherType 0x8809 whose payload is refused.
    Refused(WireFault),
    /// Not hexadecimal; an odd number of digits too.
    NotHex,
    /// More than 65,536 octets, including a carriage return.
    TooLong,
}

impl Verdict {
    /// Whether the line is a fault: it has none of the first four verdicts (profile).
    pub fn is_fault(self) -> bool
        ensures { result ≡ is_fault self }
    {
        match self {
            Verdict::Lacpdu | Verdict::Marker | Verdict::MarkerResponse | Verdict::Data => false,
            Verdict::Runt | Verdict::Refused(_) | Verdict::NotHex | Verdict::TooLong => true,
        }
    }
}

impl fmt::Display for Verdict {
    ghost output = { λ v. Some (verdict_text v) };

    fn fmt<W: fmt::Write>(&self, f: &mut fmt::Formatter<W>) -> fmt::Result {
        match self {
            Verdict::Lacpdu => f.write_str("lacpdu"),
            Verdict::Marker => f.write_str("marker"),
            Verdict::MarkerResponse => f.write_str("marker-response"),
            Verdict::Data => f.write_str("data"),
            Verdict::Runt => f.write_str("runt"),
            Verdict::Refused(fault) => write!(f, "{}", RefusalText(*fault)),
            Verdict::NotHex => f.write_str("not hex"),
            Verdict::TooLong => f.write_str("too long"),
        }
    }
}

/// The verdict on a frame with a Marker PDU of this type.
fn kind_verdict(kind: MarkerKind) -> Verdict
    ensures { result ≡ kind_verdict kind }
{
    match kind {
        MarkerKind::Information => Verdict::Marker,
        MarkerKind::Response => Verdict::MarkerResponse,
    }
}

/// The verdict on a frame with this payload of a control frame.
fn payload_verdict(payload: &[u8]) -> Verdict
    ensures { result ≡ payload_verdict payload.now }
{
    match decode(payload) {
        Ok(Pdu::Lacpdu(_)) => Verdict::Lacpdu,
        Ok(Pdu::Marker(marker)) => kind_verdict(marker.kind),
        Err(fault) => Verdict::Refused(fault),
    }
}

/// The verdict on a frame.
fn frame_verdict(octets: &[u8]) -> Verdict
    ensures { result ≡ frame_verdict octets.now }
{
    match classify(octets) {
        Kind::TooShort => Verdict::Runt,
        Kind::Data => Verdict::Data,
        Kind::Control(payload) => payload_verdict(payload),
    }
}

/// The verdict on a line.
pub fn line_verdict(alloc: Global, line: &[u8]) -> Result<Verdict, AllocError>
    ensures { IfOk result (λ v. v ≡ line_verdict line.now) }
{
    if line.len() > LONGEST_LINE {
        return Ok(Verdict::TooLong);
    }
    match hex::decode(alloc, without_return(line)) {
        Ok(octets) => Ok(frame_verdict(octets.as_slice())),
        Err(FromHexError::OutOfMemory) => Err(AllocError),
        Err(_) => Ok(Verdict::NotHex),
    }
}
