ghost use Rattle.std.specs.Prelude.{◌≡◌, ◌↔◌, IsTrue};
ghost use Rattle.lagtypes.specs.Same.{same_party};

use crate::identifiers::{AggId, Key, PortId, SystemId};

/// The operational parameters of one end of a link that the machines compare, six in all: system priority, MAC address,
/// key, port priority, port number and Aggregation (6.3, 6.4.2.3).
#[derive(Clone, Copy, Debug, Default, PartialEq, Eq, Hash)]
pub struct Party {
    /// The System Identifier, with its priority.
    pub system: SystemId,
    /// The operational key of the port.
    pub key: Key,
    /// The Port Identifier, with its priority.
    pub port: PortId,
    /// The Aggregation bit: false if the link is Individual.
    pub aggregatable: bool,
}

impl Party {
    // promise: two parties match exactly if all six parameters are equal
    // contract: `Party::matches`
    /// Whether all six parameters are equal: system priority, MAC address, key, port priority, port number and
    /// Aggregation (6.4.9, recordPDU).
    pub fn matches(&self, other: &Party) -> bool
        ensures test { result ≡ same_party self.now other.now }
        ensures fact { IsTrue result ↔ (self.now ≡ other.now) }
    {
        *self == *other
    }
}

/// The variable Selected of a port, with the aggregator that the Selection Logic gave it (6.4.8).
#[derive(Clone, Copy, Debug, Default, PartialEq, Eq, Hash)]
pub enum Choice {
    /// UNSELECTED: no aggregator.
    #[default]
    Unselected,
    /// SELECTED, with this aggregator.
    Selected(AggId),
    /// STANDBY, with this aggregator: it had no room for one more link.
    Standby(AggId),
}
