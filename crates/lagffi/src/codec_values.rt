ghost use Rattle.std.specs.Prelude.{◌≡◌};
ghost use Rattle.slowpdu.specs.Markers.{tlv_type};
ghost use Rattle.lagffi.specs.Codec.{decoded_of, fault_at, fault_found, info_of, kind_of, lag_pdu, no_participant, participant_of, pdu_of};

use crate::values::OK;
use bitflags::Flags;
use lagtypes::{Key, PortId, State, SystemId};
use slowpdu::{Info, Lacpdu, Marker, MarkerKind, Pdu, WireFault};

/// A payload has a fault.
const BAD_PAYLOAD: u32 = 17;
/// A subtype, or the TLV type of a Marker PDU, is that of no PDU.
pub(crate) const NO_PDU: u32 = 18;
/// The subtype of an LACPDU (6.4.2.3).
const SUBTYPE_LACPDU: u8 = 1;
/// The subtype of a Marker PDU (6.5.3.3).
const SUBTYPE_MARKER: u8 = 2;
/// The TLV type of a marker (6.5.3.3).
const MARKER_INFORMATION: u8 = 1;
/// The TLV type of the response to a marker (6.5.3.3).
const MARKER_RESPONSE: u8 = 2;

/// What an LACPDU says of one end of a link, the Actor or the Partner.
#[repr(C)]
#[derive(Clone, Copy)]
pub struct LagParticipant {
    /// The system priority.
    pub system_priority: u16,
    /// The MAC address of the system.
    pub system_mac: [u8; 6],
    /// The key.
    pub key: u16,
    /// The port priority.
    pub port_priority: u16,
    /// The port number.
    pub port: u16,
    /// The state octet.
    pub state: u8,
}

impl LagParticipant {
    /// The record of one end in an LACPDU, as C reads it.
    fn of(info: &Info) -> LagParticipant
        ensures { result ≡ participant_of info.now }
    {
        LagParticipant {
            system_priority: info.system.priority,
            system_mac: info.system.mac,
            key: info.key.0,
            port_priority: info.port.priority,
            port: info.port.number,
            state: info.state.bits(),
        }
    }

    /// No end, as in a Marker PDU.
    fn none() -> LagParticipant
        ensures { result ≡ no_participant }
    {
        LagParticipant {
            system_priority: 0,
            system_mac: [0; 6],
            key: 0,
            port_priority: 0,
            port: 0,
            state: 0,
        }
    }

    /// The end with these numbers.
    fn info(&self) -> Info
        ensures { result ≡ info_of self.now }
    {
        Info {
            system: SystemId {
                priority: self.system_priority,
                mac: self.system_mac,
            },
            key: Key(self.key),
            port: PortId {
                priority: self.port_priority,
                number: self.port,
            },
            state: State::from_bits_retain(self.state),
        }
    }
}

/// The numbers of a PDU. Those of the other kind are 0 where it is told, and mean nothing where it is given.
#[repr(C)]
#[derive(Clone, Copy)]
pub struct LagPdu {
    /// 1 for an LACPDU, 2 for a Marker PDU.
    pub subtype: u8,
    /// Of a Marker PDU: 1 for a marker, 2 for the response to one.
    pub tlv_type: u8,
    /// Of an LACPDU: CollectorMaxDelay in tens of microseconds.
    pub max_delay: u16,
    /// Of an LACPDU: the end that sends it.
    pub actor: LagParticipant,
    /// Of an LACPDU: the other end, as the sender recorded it.
    pub partner: LagParticipant,
    /// Of a Marker PDU: Requester_Port.
    pub requester_port: u16,
    /// Of a Marker PDU: Requester_System.
    pub requester_system: [u8; 6],
    /// Of a Marker PDU: Requester_Transaction_ID.
    pub transaction_id: u32,
}

/// The TLV type of each kind of Marker PDU.
fn tlv_type(kind: MarkerKind) -> u8
    ensures { result ≡ tlv_type kind }
{
    match kind {
        MarkerKind::Information => MARKER_INFORMATION,
        MarkerKind::Response => MARKER_RESPONSE,
    }
}

/// The kind of Marker PDU with this TLV type, if there is one.
fn kind_of(tlv_type: u8) -> Option<MarkerKind>
    ensures { result ≡ kind_of tlv_type }
{
    match tlv_type {
        MARKER_INFORMATION => Some(MarkerKind::Information),
        MARKER_RESPONSE => Some(MarkerKind::Response),
        _ => None,
    }
}

impl LagPdu {
    /// The numbers of this PDU.
    pub(crate) fn of(pdu: &Pdu) -> LagPdu
        ensures { result ≡ lag_pdu pdu.now }
    {
        match pdu {
            Pdu::Lacpdu(lacpdu) => LagPdu {
                subtype: SUBTYPE_LACPDU,
                tlv_type: 0,
                max_delay: lacpdu.max_delay,
                actor: LagParticipant::of(&lacpdu.actor),
                partner: LagParticipant::of(&lacpdu.partner),
                requester_port: 0,
                requester_system: [0; 6],
                transaction_id: 0,
            },
            Pdu::Marker(marker) => LagPdu {
                subtype: SUBTYPE_MARKER,
                tlv_type: tlv_type(marker.kind),
                max_delay: 0,
                actor: LagParticipant::none(),
                partner: LagParticipant::none(),
                requester_port: marker.port,
                requester_system: marker.system,
                transaction_id: marker.id,
            },
        }
    }

    /// The PDU with these numbers, if there is one.
    pub(crate) fn pdu(&self) -> Option<Pdu>
        ensures { result ≡ pdu_of self.now }
    {
        match self.subtype {
            SUBTYPE_LACPDU => Some(Pdu::Lacpdu(Lacpdu {
                actor: self.actor.info(),
                partner: self.partner.info(),
                max_delay: self.max_delay,
            })),
            SUBTYPE_MARKER => {
                let kind = kind_of(self.tlv_type)?;
                Some(Pdu::Marker(Marker {
                    kind,
                    port: self.requester_port,
                    system: self.requester_system,
                    id: self.transaction_id,
                }))
            }
            _ => None,
        }
    }
}

/// What `lagffi_decode` answers.
#[repr(C)]
#[derive(Clone, Copy)]
pub struct LagDecoded {
    /// 0, or the number of the refusal.
    pub status: u32,
    /// Of a payload that is refused, the number of its fault, 1 to 4; else 0.
    pub fault: u32,
    /// Of a payload that is refused, the offset of the octet that is wrong, or of the first that is missing; else 0.
    pub at: usize,
    /// Of a payload that is refused, the octet that stands there, or 0; else 0.
    pub found: u8,
}

impl LagDecoded {
    /// The answer of `decode`.
    pub(crate) fn of(answer: &Result<Pdu, WireFault>) -> LagDecoded
        ensures { result ≡ decoded_of answer.now }
    {
        match answer {
            Ok(_) => LagDecoded {
                status: OK,
                fault: 0,
                at: 0,
                found: 0,
            },
            Err(fault) => {
                let (at, found) = place(fault);
                LagDecoded {
                    status: BAD_PAYLOAD,
                    fault: u32::from(fault.number()),
                    at,
                    found,
                }
            }
        }
    }
}

/// Where a fault is, and what stands there.
fn place(fault: &WireFault) -> (usize, u8)
    ensures at { result.0 ≡ fault_at fault.now }
    ensures found { result.1 ≡ fault_found fault.now }
{
    match fault {
        WireFault::Short { have } => (*have, 0),
        WireFault::OtherSubtype(found) => (0, *found),
        WireFault::BadLength { at, found } => (*at, *found),
        WireFault::MarkerTlv(found) => (2, *found),
    }
}
