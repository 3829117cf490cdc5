ghost use Rattle.std.specs.Prelude.{◌≡◌};
ghost use Rattle.slowpdu.specs.Parties.{party_of};

use lagtypes::{Key, Party, PortId, State, SystemId};

/// Participant information: what an LACPDU says of one end of a link, the Actor or the Partner, in 15 octets (6.4.2.3).
#[derive(Clone, Copy, Debug, Default, PartialEq, Eq)]
pub struct Info {
    /// The system's priority and MAC address, 2 and 6 octets.
    pub system: SystemId,
    /// The operational key, 2 octets.
    pub key: Key,
    /// The port's priority and number, 2 octets each. Every number is accepted, 0 too.
    pub port: PortId,
    /// The state octet, Actor_State or Partner_State.
    pub state: State,
}

impl Info {
    // promise: the party of an end is its six parameters
    // contract: `Info::party`
    /// The six parameters of this end that are compared; one of them is the Aggregation bit of the state (6.4.9).
    pub fn party(&self) -> Party
        ensures { result ≡ party_of self.now }
    {
        Party {
            system: self.system,
            key: self.key,
            port: self.port,
            aggregatable: self.state.is_aggregatable(),
        }
    }
}

/// An LACPDU of version 1 (6.4.2.3).
#[derive(Clone, Copy, Debug, PartialEq, Eq)]
pub struct Lacpdu {
    /// The information about the sender's end.
    pub actor: Info,
    /// The information about the other end, as the sender has recorded it.
    pub partner: Info,
    /// CollectorMaxDelay in tens of microseconds. This project sends it, and does nothing with a received one.
    pub max_delay: u16,
}

/// The type of a Marker PDU (6.5.3.3).
#[derive(Clone, Copy, Debug, PartialEq, Eq)]
pub enum MarkerKind {
    /// Marker Information, TLV type 1: asks for a response.
    Information,
    /// Marker Response Information, TLV type 2: the response.
    Response,
}

/// A Marker PDU (6.5.3.3).
#[derive(Clone, Copy, Debug, PartialEq, Eq)]
pub struct Marker {
    /// Whether it is a marker or a response.
    pub kind: MarkerKind,
    /// Requester_Port: the number of the port that sent the marker.
    pub port: u16,
    /// Requester_System: the MAC address of the system that sent the marker.
    pub system: [u8; 6],
    /// Requester_Transaction_ID: the number of the marker, 0 to 4294967295.
    pub id: u32,
}

/// What an accepted payload holds (6.4.2.3, 6.5.3.3).
#[derive(Clone, Copy, Debug, PartialEq, Eq)]
pub enum Pdu {
    /// Subtype 1.
    Lacpdu(Lacpdu),
    /// Subtype 2.
    Marker(Marker),
}
