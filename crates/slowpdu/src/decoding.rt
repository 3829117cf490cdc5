ghost use Rattle.std.specs.List.{AllByRecursion};
ghost use Rattle.std.specs.Prelude.{◌≡◌, ◌≢◌, ◌≤◌, ◌<◌, ◌+◌, length, slice_index, take, OnOk, IfOk, IfErr, Some, Ok, Err};
ghost use Rattle.byteorder.specs.Endian.{big_number};
ghost use Rattle.slowpdu.specs.declared.pdu.Pdu.{Pdu};
ghost use Rattle.slowpdu.specs.declared.fault.WireFault.{WireFault};
ghost use Rattle.slowpdu.specs.declared.fault.WireFault.TheVariants.{BadLength};
ghost use Rattle.slowpdu.specs.Layout.{IsAddress, HoldsNumber, payload_len, read_field};
ghost use Rattle.slowpdu.specs.Lacpdus.{info_fields};
ghost use Rattle.slowpdu.specs.Pdus.{IsDecoded, ReadsPdu};
ghost use Rattle.slowpdu.specs.Faults.{fault_of};

use crate::constants::{COLLECTOR_LENGTH, INFO_LENGTH, LACP_SUBTYPE, MARKER_SUBTYPE, PAYLOAD_LEN};
use crate::fault::WireFault;
use crate::marker::decode_marker;
use crate::pdu::{Info, Lacpdu, Pdu};
use bitflags::Flags;
use byteorder::{BigEndian, ByteOrder};
use lagtypes::{Key, PortId, State, SystemId};

/// The number in two octets, the most significant first, from this offset on.
#[inline(always)]
pub(crate) fn u16_at(payload: &[u8], offset: usize) -> u16
    requires { offset + 2 ≤ length payload.now }
    ensures { HoldsNumber payload.now (read_field offset 2 result) }
{
    BigEndian::read_u16(&payload[offset..])
}

/// The MAC address in the six octets from this offset on.
#[inline(always)]
pub(crate) fn mac_at(payload: &[u8], offset: usize) -> [u8; 6]
    requires { offset + 6 ≤ length payload.now }
    ensures address { IsAddress result }
    ensures number { HoldsNumber payload.now (read_field offset 6 (big_number 6 result)) }
{
    [
        payload[offset],
        payload[offset + 1],
        payload[offset + 2],
        payload[offset + 3],
        payload[offset + 4],
        payload[offset + 5],
    ]
}

/// The participant information in the 15 octets from this offset on.
#[inline(always)]
fn info_at(payload: &[u8], offset: usize) -> Info
    requires { offset + 15 ≤ length payload.now }
    ensures address { IsAddress result.system.mac }
    ensures fields { AllByRecursion (HoldsNumber payload.now) (info_fields offset result) }
{
    Info {
        system: SystemId {
            priority: u16_at(payload, offset),
            mac: mac_at(payload, offset + 2),
        },
        key: Key(u16_at(payload, offset + 8)),
        port: PortId {
            priority: u16_at(payload, offset + 10),
            number: u16_at(payload, offset + 12),
        },
        state: State::from_bits_retain(payload[offset + 14]),
    }
}

/// Refuses a payload if the length field at this offset has another value.
#[inline(always)]
pub(crate) fn expect_length(payload: &[u8], at: usize, expected: u8) -> Result<(), WireFault>
    requires { at < length payload.now }
    ensures ok { OnOk result (slice_index payload.now at ≡ expected) }
    ensures err { IfErr result (λ e. (slice_index payload.now at ≢ expected) × (e ≡ BadLength at (slice_index payload.now at))) }
{
    let found = payload[at];
    if found == expected {
        Ok(())
    } else {
        Err(WireFault::BadLength { at, found })
    }
}

/// Reads the payload of an LACPDU.
#[inline(always)]
fn decode_lacpdu(payload: &[u8]) -> Result<Pdu, WireFault>
    requires long_enough { payload_len ≤ length payload.now }
    requires subtype { slice_index payload.now 0 ≡ 1 }
    ensures { IsDecoded payload.now result }
{
    expect_length(payload, 3, INFO_LENGTH)?;
    expect_length(payload, 23, INFO_LENGTH)?;
    expect_length(payload, 43, COLLECTOR_LENGTH)?;
    Ok(Pdu::Lacpdu(Lacpdu {
        actor: info_at(payload, 4),
        partner: info_at(payload, 24),
        max_delay: u16_at(payload, 44),
    }))
}

// promise: a payload is accepted with a value exactly if it reads as it: 110 octets or more, each row that a receiver reads has its number
//    at its offset
// contract: `decode` (`found`, `only`: `ReadsPdu`; `lacpdu_table`, `marker_table`)
// not said: that the values make sense
// promise: every other payload is refused with the first cause of the list, and one that has a cause is refused with it
// contract: `decode` (`fault`, `refused`: `fault_of`)
// promise: octets behind the first 110 change nothing
// contract: `decode` (`first_octets`); the law `what_follows_is_ignored`
/// Reads the payload of a control frame: what follows its EtherType (6.4.2.3, 6.5.3.3). Only the subtype, the TLV
/// lengths, the TLV type of a Marker PDU, and the fields are read. The version, the other TLV types, pad and reserved
/// octets, and all octets after the first 110 may have any value (profile). A payload is refused with the first fault
/// that holds, in the order of `WireFault`.
#[inline(always)]
pub fn decode(payload: &[u8]) -> Result<Pdu, WireFault>
    // An `Ok` has the PDU that the payload reads as.
    ensures found { IfOk result (λ v. ReadsPdu payload.now v) }
    // If the payload reads as a PDU, the result is `Ok` with that PDU.
    ensures only { (v : Pdu) → ReadsPdu payload.now v → result ≡ Ok v }
    // An `Err` has the first fault of the payload.
    ensures fault { IfErr result (λ e. fault_of payload.now ≡ Some e) }
    // If the payload has a fault, the result is `Err` with the first one.
    ensures refused { (e : WireFault) → fault_of payload.now ≡ Some e → result ≡ Err e }
    // The result depends on the first 110 octets alone.
    ensures first_octets { IsDecoded (take payload_len payload.now) result }
{
    if payload.len() < PAYLOAD_LEN {
        return Err(WireFault::Short {
            have: payload.len(),
        });
    }
    match payload[0] {
        LACP_SUBTYPE => decode_lacpdu(payload),
        MARKER_SUBTYPE => decode_marker(payload),
        other => Err(WireFault::OtherSubtype(other)),
    }
}
