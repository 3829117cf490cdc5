ghost use Rattle.std.specs.Prelude.{◌≡◌};
ghost use Rattle.lagscript.specs.declared.fault.ScriptFault.TheVariants.{NoMemory};

use std::alloc::{AllocError, AllocFailed};
use thiserror::Error;

/// The keys in the table of a system, in the order in which they are read (profile).
#[derive(Clone, Copy, Debug, PartialEq, Eq, Error)]
pub enum SystemKey {
    /// The system priority, 0 to 65535, 32768 if it is left out.
    #[error("priority")]
    Priority,
    /// The MAC address: six two-digit hexadecimal numbers joined by dashes.
    #[error("mac")]
    Mac,
    /// CollectorMaxDelay in tens of microseconds, 0 to 65535, 0 if it is left out.
    #[error("max_delay")]
    MaxDelay,
    /// The identifier of the first marker, 0 to 4294967295, 1 if it is left out.
    #[error("first_marker")]
    FirstMarker,
    /// The keys of the aggregators, each 0 to 65535.
    #[error("aggregators")]
    Aggregators,
    /// How many links each aggregator may have as its members, 0 to 65535; no limit if it is left out.
    #[error("max_links")]
    MaxLinks,
    /// How many conversations each aggregator has, 0 to 65535, 256 if it is left out.
    #[error("conversations")]
    Conversations,
    /// The tables of the ports.
    #[error("port")]
    Port,
}

/// The keys in the table of a port, in the order in which they are read (profile).
#[derive(Clone, Copy, Debug, PartialEq, Eq, Error)]
pub enum PortKey {
    /// The port number, 0 to 65535; the configuration refuses 0.
    #[error("number")]
    Number,
    /// The port priority, 0 to 65535, 128 if it is left out.
    #[error("priority")]
    Priority,
    /// The MAC address, the system's if it is left out.
    #[error("mac")]
    Mac,
    /// The operational key, 0 to 65535.
    #[error("key")]
    Key,
    /// Aggregation: whether the link is aggregatable; true if it is left out.
    #[error("aggregatable")]
    Aggregatable,
    /// LACP_Activity: whether the port is active; true if it is left out.
    #[error("active")]
    Active,
    /// LACP_Timeout: whether the port has Short Timeout; true if it is left out.
    #[error("short")]
    Short,
}

/// Why an entry cannot be read as an event (profile).
#[derive(Clone, Copy, Debug, PartialEq, Eq, Error)]
pub enum EntryFault {
    /// The first word names no event.
    #[error("word")]
    Word,
    /// The event takes another number of words.
    #[error("count")]
    Count,
    /// A word that has to be a number is not one or more decimal digits with a value from 0 to 65535; or the number of
    /// ticks is 0.
    #[error("number")]
    Number,
    /// The frame is not hexadecimal.
    #[error("hex")]
    Hex,
    /// There is no cable with this number.
    #[error("cable")]
    Cable,
    /// The number of a system is neither 1 nor 2.
    #[error("system")]
    System,
    /// The last word of `configure` is neither `aggregatable` nor `individual`.
    #[error("kind")]
    Kind,
}

/// Why a text is no script, in the order of checking. Systems, ports, cables and entries are counted from 1 (profile).
///
/// System 1 is checked completely before system 2; the configuration as a whole is checked last.
#[derive(Clone, Copy, Debug, PartialEq, Eq, Error)]
pub enum ScriptFault {
    /// The text is not TOML.
    #[error("not toml")]
    NotToml,
    /// There is an unknown key at the top.
    #[error("extra key")]
    ExtraKey,
    /// `system` is not an array of two tables.
    #[error("system")]
    Systems,
    /// There is an unknown key in the table of this system.
    #[error("system {0}: extra key")]
    SystemExtraKey(u8),
    /// This value of a system is missing or wrong.
    #[error("system {0}: {1}")]
    SystemValue(u8, SystemKey),
    /// There is an unknown key in the table of this port of a system.
    #[error("system {0} port {1}: extra key")]
    PortExtraKey(u8, usize),
    /// This value of a port of a system is missing or wrong.
    #[error("system {0} port {1}: {2}")]
    PortValue(u8, usize, PortKey),
    /// `cable` is not an array of tables.
    #[error("cable")]
    Cables,
    /// There is an unknown key in the table of this cable.
    #[error("cable {0}: extra key")]
    CableExtraKey(usize),
    /// The ends of this cable are missing, or not an array of two numbers from 0 to 65535.
    #[error("cable {0}: ends")]
    CableEnds(usize),
    /// The limit of this cable is not a number from 1 to 65535.
    #[error("cable {0}: limit")]
    CableLimit(usize),
    /// `events` is not an array of strings, or has more than 100,000.
    #[error("events")]
    Events,
    /// This entry is no event.
    #[error("event {0}: {1}")]
    Entry(usize, EntryFault),
    /// This system does not have 1 to 64 ports.
    #[error("system {0}: ports")]
    Ports(u8),
    /// This system does not have 1 to 64 aggregators.
    #[error("system {0}: aggregator count")]
    AggregatorCount(u8),
    /// The port of a system at this place has the number 0, or a number that is not above the one before it.
    #[error("system {0}: port number {1}")]
    PortNumber(u8, usize),
    /// The limit of links of this system is not 1 to 64.
    #[error("system {0}: max links")]
    MaxLinks(u8),
    /// This system has neither 256 nor 4096 conversations in each aggregator.
    #[error("system {0}: conversation count")]
    ConversationCount(u8),
    /// Both systems have the same identifier.
    #[error("two systems with one identifier")]
    SameSystem,
    /// This cable has an end that is no port of its system, or that has a cable already.
    #[error("cable {0}: end")]
    CableEnd(usize),
    /// Memory was refused.
    #[error("out of memory")]
    NoMemory,
}

impl From<AllocError> for ScriptFault {
    ghost from_gives = { λ _ e. e ≡ NoMemory };

    fn from(_: AllocError) -> ScriptFault {
        ScriptFault::NoMemory
    }
}

impl<T: Drop> From<AllocFailed<T>> for ScriptFault {
    ghost from_gives = { λ _ e. e ≡ NoMemory };

    fn from(_: AllocFailed<T>) -> ScriptFault {
        ScriptFault::NoMemory
    }
}
