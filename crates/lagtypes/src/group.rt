ghost use Rattle.std.specs.Prelude.{◌≡◌, Some};
ghost use Rattle.std.specs.Ordering.{is_lt};
ghost use Rattle.lagtypes.specs.Group.{end_of, group_of, individual, lower, upper};
ghost use Rattle.lagtypes.specs.Order.{end_cmp};
ghost use Rattle.lagtypes.specs.Texts.{end_text, group_text};

use crate::identifiers::{Key, PortId, SystemId};
use crate::party::Party;
use std::fmt;

/// One end of a Link Aggregation Group: the system and its key, and for an Individual link the port too (6.3.6). Ends
/// compare by system priority, MAC address, key, port priority and port number (profile).
#[derive(Clone, Copy, Debug, PartialEq, Eq, PartialOrd, Ord, Hash)]
pub struct End {
    /// The system, with its priority.
    pub system: SystemId,
    /// The operational key of the port, 0 to 65535.
    pub key: Key,
    /// The port, with its priority, if the link is Individual; else `None`.
    pub port: Option<PortId>,
}

impl End {
    /// The end with these parameters; it names the port only if the link is Individual.
    fn of(party: &Party, individual: bool) -> End
        ensures { result ≡ end_of individual party.now }
    {
        End {
            system: party.system,
            key: party.key,
            port: if individual { Some(party.port) } else { None },
        }
    }

    /// Whether this end is the lower of the two, in the order that `End` describes (profile).
    pub fn is_below(&self, other: &End) -> bool
        ensures { result ≡ is_lt (end_cmp self.now other.now) }
    {
        self.cmp(other).is_lt()
    }
}

/// A Link Aggregation Group, as its LAG ID: the unordered pair of its ends (6.3.6). The lower end is stored first.
#[derive(Clone, Copy, Debug, PartialEq, Eq, PartialOrd, Ord, Hash)]
pub struct Group {
    lower: End,
    upper: End,
}

impl Group {
    /// The group of the link between these two ends; their order does not matter. The link is Individual if the
    /// Aggregation bit of either end is 0 (6.3.6).
    pub fn of(one: &Party, other: &Party) -> Group
        ensures { result ≡ group_of one.now other.now }
    {
        let individual = !(one.aggregatable && other.aggregatable);
        let one = End::of(one, individual);
        let other = End::of(other, individual);
        if other.is_below(&one) {
            Group {
                lower: other,
                upper: one,
            }
        } else {
            Group {
                lower: one,
                upper: other,
            }
        }
    }

    /// The lower end (profile).
    pub fn lower(&self) -> End
        ensures { result ≡ lower self.now }
    {
        self.lower
    }

    /// The upper end (profile).
    pub fn upper(&self) -> End
        ensures { result ≡ upper self.now }
    {
        self.upper
    }
}

// promise: each text is exact, octet by octet
// contract: each `Display` (`output`)
// promise: refusals have their numbers and texts
// contract: `number` of `WireFault`, `DistFault`, `SystemFault`, `BadConfig`, `CableFault`, `WorldFault`, `ToolFault`; `Display` of all but
//    `WorldFault`
impl fmt::Display for End {
    ghost output = { λ e. Some (end_text e) };

    fn fmt<W: fmt::Write>(&self, f: &mut fmt::Formatter<W>) -> fmt::Result {
        match self.port {
            None => write!(f, "{} key {}", self.system, self.key),
            Some(port) => write!(f, "{} key {} port {}", self.system, self.key, port),
        }
    }
}

impl fmt::Display for Group {
    ghost output = { λ g. Some (group_text g) };

    fn fmt<W: fmt::Write>(&self, f: &mut fmt::Formatter<W>) -> fmt::Result {
        write!(f, "{} <> {}", self.lower, self.upper)
    }
}
