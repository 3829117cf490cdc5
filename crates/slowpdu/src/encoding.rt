ghost use Rattle.std.specs.Prelude.{◌≡◌, ◌+◌, ◌≤◌, length};
ghost use Rattle.byteorder.specs.Endian.{big_bytes};
ghost use Rattle.slowpdu.specs.Layout.{AreOctets, IsAddress};
ghost use Rattle.slowpdu.specs.Lacpdus.{Writes};
ghost use Rattle.slowpdu.specs.Writing.{InfoFits, replaced, info_octets};

use crate::constants::{
    ACTOR_TYPE, COLLECTOR_LENGTH, COLLECTOR_TYPE, INFO_LENGTH, LACP_SUBTYPE, PARTNER_TYPE,
    PAYLOAD_LEN, VERSION,
};
use crate::pdu::{Info, Lacpdu};
use bitflags::Flags;
use byteorder::{BigEndian, ByteOrder};

/// 110 octets of zero: a payload before anything is written.
pub(crate) const ZEROS: [u8; PAYLOAD_LEN] = [0; PAYLOAD_LEN];

/// Writes octets into a payload, from this offset on.
#[inline(always)]
pub(crate) fn put_octets(payload: &mut [u8], offset: usize, octets: &[u8])
    requires { offset + length octets.now ≤ length payload.old }
    ensures { payload.new ≡ replaced payload.old offset octets.now }
{
    payload[offset..offset + octets.len()].copy_from_slice(octets);
}

/// Writes a MAC address into the six octets from this offset on.
#[inline(always)]
pub(crate) fn put_mac(payload: &mut [u8], offset: usize, mac: [u8; 6])
    requires { offset + 6 ≤ length payload.old }
    ensures put_octets { payload.new ≡ replaced payload.old offset mac }
    ensures address { IsAddress mac }
{
    let [a, b, c, d, e, last] = mac;
    put_octets(payload, offset, &[a, b, c, d, e, last]);
}

/// Writes a number into two octets, the most significant first, from this offset on.
#[inline(always)]
pub(crate) fn put_u16(payload: &mut [u8], offset: usize, number: u16)
    requires { offset + 2 ≤ length payload.old }
    ensures put_octets { payload.new ≡ replaced payload.old offset (big_bytes 2 number) }
    ensures octets { AreOctets payload.new }
{
    let mut octets = [0; 2];
    BigEndian::write_u16(&mut octets, number);
    put_octets(payload, offset, &octets);
}

/// Writes a number into four octets, the most significant first, from this offset on.
#[inline(always)]
pub(crate) fn put_u32(payload: &mut [u8], offset: usize, number: u32)
    requires { offset + 4 ≤ length payload.old }
    ensures put_octets { payload.new ≡ replaced payload.old offset (big_bytes 4 number) }
    ensures octets { AreOctets payload.new }
{
    let mut octets = [0; 4];
    BigEndian::write_u32(&mut octets, number);
    put_octets(payload, offset, &octets);
}

/// Writes participant information into the 15 octets from this offset on.
#[inline(always)]
fn put_info(payload: &mut [u8], offset: usize, info: Info)
    requires { offset + 15 ≤ length payload.old }
    ensures put_octets { payload.new ≡ replaced payload.old offset (info_octets info) }
    ensures fits { InfoFits info }
{
    put_u16(payload, offset, info.system.priority);
    put_mac(payload, offset + 2, info.system.mac);
    put_u16(payload, offset + 8, info.key.0);
    put_u16(payload, offset + 10, info.port.priority);
    put_u16(payload, offset + 12, info.port.number);
    put_octets(payload, offset + 14, &[info.state.bits()]);
}

impl Lacpdu {
    // promise: a PDU is sent as the one payload of its table: 110 octets, each row at its offset, every other octet 0
    // contract: `Lacpdu::encode` (`Writes`), `Marker::encode` (`WritesMarker`); `one_payload_is_written`
    /// The payload of this LACPDU, 110 octets: version 1, and zero in every reserved octet (6.4.2.3).
    #[inline(always)]
    pub fn encode(&self) -> [u8; 110]
        ensures { Writes result self.now }
    {
        let max_delay = self.max_delay;
        let head = [LACP_SUBTYPE, VERSION, ACTOR_TYPE, INFO_LENGTH];
        let mut payload = ZEROS;
        put_octets(&mut payload, 0, &head);
        put_info(&mut payload, 4, self.actor);
        put_octets(&mut payload, 22, &[PARTNER_TYPE, INFO_LENGTH]);
        put_info(&mut payload, 24, self.partner);
        put_octets(&mut payload, 42, &[COLLECTOR_TYPE, COLLECTOR_LENGTH]);
        put_u16(&mut payload, 44, max_delay);
        payload
    }
}
