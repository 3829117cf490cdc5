ghost use Rattle.std.specs.Prelude.{◌≡◌};
ghost use Rattle.lagtool_jobs.specs.declared.fault.ToolFault.TheVariants.{NoMemory, Read, Write};
ghost use Rattle.lagtool_jobs.specs.Texts.{of_script, fault_with_file_text, tool_fault_number, tool_fault_text};

use lagstreams::{ReadFailed, WriteFailed};
use lagworld::ScriptFault;
use std::alloc::AllocError;
use std::error::Error;
use std::fmt;

/// Why the program could not do what a command line asks for (profile).
#[derive(Clone, Copy, Debug, PartialEq, Eq)]
pub enum ToolFault {
    /// The file cannot be opened, reading it failed, it has more than 2^64 - 2 octets, or it is a script and not UTF-8.
    Read,
    /// Standard output failed, or accepted none of the octets of a write.
    Write,
    /// Memory was refused.
    NoMemory,
    /// The text is no script, with this fault, which is never `NoMemory`.
    Script(ScriptFault),
    /// The payload or the frame is not hexadecimal.
    NotHex,
    /// The MAC address is not twelve hexadecimal digits.
    NotMac,
}

impl ToolFault {
    /// The number of the fault, 1 to 6 (profile).
    pub fn number(&self) -> u8
        ensures { result ≡ tool_fault_number self.now }
    {
        match self {
            ToolFault::Read => 1,
            ToolFault::Write => 2,
            ToolFault::NoMemory => 3,
            ToolFault::Script(_) => 4,
            ToolFault::NotHex => 5,
            ToolFault::NotMac => 6,
        }
    }
}

// promise: each verdict, line and fault text is exact
// contract: `Display` of `Verdict`, `ToolFault`, `FaultText` and the lines of `texts.rt`
// not said: what `main` of `lagtool` writes itself
impl fmt::Display for ToolFault {
    ghost output = { λ e. tool_fault_text e };

    fn fmt<W: fmt::Write>(&self, f: &mut fmt::Formatter<W>) -> fmt::Result {
        match self {
            ToolFault::Read => f.write_str("cannot read"),
            ToolFault::Write => f.write_str("cannot write"),
            ToolFault::NoMemory => f.write_str("out of memory"),
            ToolFault::Script(fault) => write!(f, "script: {fault}"),
            ToolFault::NotHex => f.write_str("not hex"),
            ToolFault::NotMac => f.write_str("not a mac"),
        }
    }
}

impl Error for ToolFault {}

/// The message for a fault; for a fault in reading, it names the file.
#[derive(Clone, Copy)]
pub struct FaultText<'a> {
    pub fault: ToolFault,
    /// The name of the file, as the command line has it.
    pub file: &'a str,
}

impl fmt::Display for FaultText<'_> {
    ghost output = { λ t. fault_with_file_text t.fault t.file.now };

    fn fmt<W: fmt::Write>(&self, f: &mut fmt::Formatter<W>) -> fmt::Result {
        match self.fault {
            ToolFault::Read => write!(f, "cannot read {}", self.file),
            fault => write!(f, "{fault}"),
        }
    }
}

impl From<AllocError> for ToolFault {
    ghost from_gives = { λ _ e. e ≡ NoMemory };

    fn from(_e: AllocError) -> ToolFault {
        ToolFault::NoMemory
    }
}

impl From<ReadFailed> for ToolFault {
    ghost from_gives = { λ _ e. e ≡ Read };

    fn from(_e: ReadFailed) -> ToolFault {
        ToolFault::Read
    }
}

impl From<WriteFailed> for ToolFault {
    ghost from_gives = { λ _ e. e ≡ Write };

    fn from(_e: WriteFailed) -> ToolFault {
        ToolFault::Write
    }
}

impl From<ScriptFault> for ToolFault {
    ghost from_gives = { λ fault e. e ≡ of_script fault };

    fn from(fault: ScriptFault) -> ToolFault {
        match fault {
            ScriptFault::NoMemory => ToolFault::NoMemory,
            fault => ToolFault::Script(fault),
        }
    }
}
