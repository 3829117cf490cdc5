ghost use Rattle.std.specs.Prelude.{◌≡◌, Some};
ghost use Rattle.lagtool_capture.specs.Faults.{cause_text, read_fault_text};
ghost use Rattle.lagtool_capture.specs.declared.fault.CaptureFault.TheVariants.{NoMemory, Read, Write};

use captures::Cause;
use lagstreams::{ReadFailed, WriteFailed};
use std::alloc::AllocError;
use std::fmt;

/// Why a capture could not be explained.
#[derive(Clone, Copy, Debug, PartialEq, Eq)]
pub enum CaptureFault {
    /// Reading failed.
    Read,
    /// Writing failed.
    Write,
    /// Memory was refused.
    NoMemory,
}

impl From<AllocError> for CaptureFault {
    ghost from_gives = { λ _ e. e ≡ NoMemory };

    fn from(_e: AllocError) -> CaptureFault {
        CaptureFault::NoMemory
    }
}

impl From<ReadFailed> for CaptureFault {
    ghost from_gives = { λ _ e. e ≡ Read };

    fn from(_e: ReadFailed) -> CaptureFault {
        CaptureFault::Read
    }
}

impl From<WriteFailed> for CaptureFault {
    ghost from_gives = { λ _ e. e ≡ Write };

    fn from(_e: WriteFailed) -> CaptureFault {
        CaptureFault::Write
    }
}

/// Where a capture is not read on, and why.
#[derive(Clone, Copy, Debug, PartialEq, Eq)]
pub struct ReadFault {
    /// The offset in the capture.
    pub at: u64,
    /// What stands there.
    pub cause: Cause,
}

/// What is wrong with a capture.
#[derive(Clone, Copy)]
struct CauseText(Cause);

impl fmt::Display for CauseText {
    ghost output = { λ t. Some (cause_text t.0) };

    fn fmt<W: fmt::Write>(&self, f: &mut fmt::Formatter<W>) -> fmt::Result {
        match self.0 {
            Cause::Gzip => f.write_str("packed by gzip: unpack it first"),
            Cause::Format(found) => write!(f, "neither pcap nor pcapng: {found}"),
            Cause::SectionOrder(found) => write!(f, "no order of octets: {found}"),
            Cause::Version(major, minor) => write!(f, "unknown version: {major}.{minor}"),
            Cause::LinkType(found) => write!(f, "unknown link type: {found}"),
            Cause::Length(found) => write!(f, "wrong length: {found}"),
            Cause::SecondLength(found) => write!(f, "wrong second length: {found}"),
            Cause::Captured(found) => write!(f, "too long a packet: {found}"),
            Cause::Description(found) => write!(f, "too long a description: {found}"),
            Cause::Interface(found) => write!(f, "unknown interface: {found}"),
            Cause::Interfaces => f.write_str("more than 64 interfaces"),
            Cause::Resolution(found) => write!(f, "unknown resolution of time: {found}"),
            Cause::Time => f.write_str("a time before 1970 or after the year 2554"),
            Cause::CutShort => f.write_str("cut short"),
        }
    }
}

/// `octet AT: CAUSE`.
impl fmt::Display for ReadFault {
    ghost output = { λ e. Some (read_fault_text e.at e.cause) };

    fn fmt<W: fmt::Write>(&self, f: &mut fmt::Formatter<W>) -> fmt::Result {
        write!(f, "octet {}: {}", self.at, CauseText(self.cause))
    }
}
