ghost use Rattle.std.specs.Prelude.{◌≡◌, ◌≤◌};
ghost use Rattle.lagworld.specs.HalfCalls.{with_party_recorded};
ghost use Rattle.lagworld.specs.Events.{most_events};
ghost use Rattle.lagworld.specs.State.{history_at};

use lagtypes::Party;
use slowpdu::Lacpdu;

/// An LACPDU that a port received, with the change count that its sender had when it was sent (profile).
#[derive(Clone, Copy, Debug, PartialEq, Eq)]
pub(crate) struct StampedLacpdu {
    pub(crate) pdu: Lacpdu,
    pub(crate) stamp: u64,
}

/// The history of one port of a system (profile).
#[derive(Clone, Copy, Debug, PartialEq, Eq)]
pub(crate) struct PortHistory {
    /// The port number.
    pub(crate) number: u16,
    /// The port's own parameters after the last event.
    pub(crate) party: Party,
    /// The change count: how many events changed these parameters.
    pub(crate) count: u64,
    /// The LACPDU that the port took last.
    pub(crate) taken: Option<StampedLacpdu>,
}

impl PortHistory {
    /// Records the port's own parameters after an event; the change count is one more if they differ.
    pub(crate) fn record_party(&mut self, party: Option<Party>)
        requires { self.old.count ≤ most_events }
        ensures { self.new ≡ with_party_recorded party self.old }
    {
        let same = match party {
            Some(party) => party.matches(&self.party),
            None => false,
        };
        if !same {
            self.count += 1;
        }
        self.party = party.unwrap_or(self.party);
    }
}

/// The history of the port with this number.
pub(crate) fn history_of(histories: &[PortHistory], number: u16) -> Option<PortHistory>
    ensures { result ≡ history_at histories.now number }
{
    for history in histories {
        if history.number == number {
            return Some(*history);
        }
    }
    None
}

/// The record of one conversation of an aggregator (profile).
#[derive(Drop)]
pub(crate) struct Flow {
    /// The serial numbers of the frames that the conversation sent.
    pub(crate) sent: Vec<u64>,
    /// The serial numbers of the frames that the other system handed up, in that order.
    pub(crate) collected: Vec<u64>,
    /// Whether the conversation was ever forced.
    pub(crate) forced: bool,
}
