ghost use Rattle.std.specs.Prelude.{◌≡◌, Some};
ghost use Rattle.lagsystem.specs.Faults.{fault_name, fault_number, fault_text, reason_number, reason_text, system_fault};
ghost use Rattle.lagsystem.specs.declared.fault.SystemFault.{SystemFault};

use distributor::DistFault;
use lagtypes::NoMemory;
use std::error::Error;
use std::fmt;

/// Why a configuration is refused, in the order of checking (profile).
#[derive(Clone, Copy, Debug, PartialEq, Eq)]
pub enum BadConfig {
    /// 1: there are not 1 to 64 ports.
    Ports,
    /// 2: there are not 1 to 64 aggregators.
    Aggregators,
    /// 3: the port at this place, counted from 1, has the number 0, or one that is not above the number before it.
    PortNumber(usize),
    /// 4: the limit of links is not 1 to 64.
    MaxLinks,
    /// 5: there are not 1, 256 or 4096 conversations in each aggregator.
    Conversations,
}

/// Why a system cannot be made, or why it refuses a call (profile).
#[derive(Clone, Copy, Debug, PartialEq, Eq)]
pub enum SystemFault {
    /// 1: the system has no port of this number.
    NoPort,
    /// 2: the system has no such aggregator.
    NoAggregator,
    /// 3: an offered frame does not have 14 to 1518 octets.
    FrameLength,
    /// 4: an offered frame is a slow protocols frame, EtherType 0x8809.
    SlowFrame,
    /// 5: the conversation is Wanted or Flushing: its frames wait for a Marker Response.
    Held,
    /// 6: the conversation is free, but no port distributes in the aggregator.
    NoneDistributing,
    /// 7: the port to move to does not distribute in the aggregator.
    NotDistributing,
    /// 8: the conversation is on that port already.
    SamePort,
    /// 9: the conversation is free, or there is no such conversation.
    NotAssigned,
    /// 10: no Requester_Transaction_ID is left.
    MarkersSpent,
    /// 11: the configuration is refused.
    BadConfig(BadConfig),
    /// 12: memory was refused. Only `System::new` returns it, after it has accepted the configuration.
    NoMemory,
    /// 24: an aggregator has more members whose links are up than the limit that `System::set_max_links` is to set.
    OverLimit,
}

impl BadConfig {
    /// The number of the reason, 1 to 5 (profile).
    pub fn number(&self) -> u8
        ensures { result ≡ reason_number self.now }
    {
        match self {
            BadConfig::Ports => 1,
            BadConfig::Aggregators => 2,
            BadConfig::PortNumber(_) => 3,
            BadConfig::MaxLinks => 4,
            BadConfig::Conversations => 5,
        }
    }
}

impl SystemFault {
    /// The number of the fault, 1 to 12 or 24: between them are refusals of the C library alone (profile).
    pub fn number(&self) -> u8
        ensures { result ≡ fault_number self.now }
    {
        match self {
            SystemFault::NoPort => 1,
            SystemFault::NoAggregator => 2,
            SystemFault::FrameLength => 3,
            SystemFault::SlowFrame => 4,
            SystemFault::Held => 5,
            SystemFault::NoneDistributing => 6,
            SystemFault::NotDistributing => 7,
            SystemFault::SamePort => 8,
            SystemFault::NotAssigned => 9,
            SystemFault::MarkersSpent => 10,
            SystemFault::BadConfig(_) => 11,
            SystemFault::NoMemory => 12,
            SystemFault::OverLimit => 24,
        }
    }

    /// The name of the fault in one word, as lines of a program have it, `no-port` to `over-limit`; a reason of `BadConfig` is not
    /// told (profile).
    pub fn name(&self) -> &'static str
        ensures { result.now ≡ fault_name self.now }
    {
        match self {
            SystemFault::NoPort => "no-port",
            SystemFault::NoAggregator => "no-aggregator",
            SystemFault::FrameLength => "frame-length",
            SystemFault::SlowFrame => "slow-frame",
            SystemFault::Held => "held",
            SystemFault::NoneDistributing => "none-distributing",
            SystemFault::NotDistributing => "not-distributing",
            SystemFault::SamePort => "same-port",
            SystemFault::NotAssigned => "not-assigned",
            SystemFault::MarkersSpent => "markers-spent",
            SystemFault::BadConfig(_) => "bad-config",
            SystemFault::NoMemory => "no-memory",
            SystemFault::OverLimit => "over-limit",
        }
    }
}

/// Says what is wrong with the configuration; a port is named by its place in the list, counted from 1.
impl fmt::Display for BadConfig {
    ghost output = { λ reason. Some (reason_text reason) };

    fn fmt<W: fmt::Write>(&self, f: &mut fmt::Formatter<W>) -> fmt::Result {
        match self {
            BadConfig::Ports => f.write_str("the configuration has not 1 to 64 ports"),
            BadConfig::Aggregators => f.write_str("the configuration has not 1 to 64 aggregators"),
            BadConfig::PortNumber(place) => write!(
                f,
                "the port at place {place} has the number 0 or one that is not above the number before it"
            ),
            BadConfig::MaxLinks => f.write_str(
                "the limit of links of an aggregator is not 1 to 64",
            ),
            BadConfig::Conversations => {
                f.write_str("the configuration has not 1, 256 or 4096 conversations")
            }
        }
    }
}

impl Error for BadConfig {}

/// Says what is wrong, without the number of the fault. `BadConfig` has the text of its reason.
impl fmt::Display for SystemFault {
    ghost output = { λ fault. Some (fault_text fault) };

    fn fmt<W: fmt::Write>(&self, f: &mut fmt::Formatter<W>) -> fmt::Result {
        match self {
            SystemFault::NoPort => f.write_str("the system has no port of this number"),
            SystemFault::NoAggregator => f.write_str("the system has no such aggregator"),
            SystemFault::FrameLength => f.write_str("an offered frame has not 14 to 1518 octets"),
            SystemFault::SlowFrame => f.write_str("an offered frame is one of the slow protocols"),
            SystemFault::Held => f.write_str("the conversation is Wanted or Flushing"),
            SystemFault::NoneDistributing => {
                f.write_str("the conversation is free, and no port distributes in the aggregator")
            }
            SystemFault::NotDistributing => {
                f.write_str("the port to move to does not distribute in the aggregator")
            }
            SystemFault::SamePort => {
                f.write_str("the port to move to is the one that the conversation is on")
            }
            SystemFault::NotAssigned => {
                f.write_str("the conversation is free, or there is no such conversation")
            }
            SystemFault::MarkersSpent => f.write_str("no marker identifier is left"),
            SystemFault::BadConfig(reason) => write!(f, "{reason}"),
            SystemFault::NoMemory => f.write_str("out of memory"),
            SystemFault::OverLimit => f.write_str("an aggregator has more links than this limit"),
        }
    }
}

impl Error for SystemFault {}

impl From<NoMemory> for SystemFault {
    ghost from_gives = { λ refused fault. fault ≡ SystemFault.NoMemory };

    fn from(_refused: NoMemory) -> SystemFault {
        SystemFault::NoMemory
    }
}

impl From<DistFault> for SystemFault {
    ghost from_gives = { λ refused fault. fault ≡ system_fault refused };

    fn from(refused: DistFault) -> SystemFault {
        match refused {
            DistFault::Held => SystemFault::Held,
            DistFault::NoneDistributing => SystemFault::NoneDistributing,
            DistFault::NotDistributing => SystemFault::NotDistributing,
            DistFault::SamePort => SystemFault::SamePort,
            DistFault::NotAssigned => SystemFault::NotAssigned,
            DistFault::MarkersSpent => SystemFault::MarkersSpent,
        }
    }
}
