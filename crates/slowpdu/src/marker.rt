ghost use Rattle.std.specs.Prelude.{◌≡◌, ◌≤◌, ◌+◌, length, slice_index};
ghost use Rattle.slowpdu.specs.Layout.{HoldsNumber, payload_len, read_field};
ghost use Rattle.slowpdu.specs.Markers.{WritesMarker, tlv_type, response_to};
ghost use Rattle.slowpdu.specs.Pdus.{IsDecoded};

use crate::constants::{INFORMATION_TYPE, MARKER_LENGTH, MARKER_SUBTYPE, RESPONSE_TYPE, VERSION};
use crate::decoding::{expect_length, mac_at, u16_at};
use crate::encoding::{ZEROS, put_mac, put_octets, put_u16, put_u32};
use crate::fault::WireFault;
use crate::pdu::{Marker, MarkerKind, Pdu};
use byteorder::{BigEndian, ByteOrder};

/// The number in four octets, the most significant first, from this offset on.
#[inline(always)]
fn u32_at(payload: &[u8], offset: usize) -> u32
    requires { offset + 4 ≤ length payload.now }
    ensures { HoldsNumber payload.now (read_field offset 4 result) }
{
    BigEndian::read_u32(&payload[offset..])
}

/// Reads the payload of a Marker PDU.
#[inline(always)]
pub(crate) fn decode_marker(payload: &[u8]) -> Result<Pdu, WireFault>
    requires long_enough { payload_len ≤ length payload.now }
    requires subtype { slice_index payload.now 0 ≡ 2 }
    ensures { IsDecoded payload.now result }
{
    expect_length(payload, 3, MARKER_LENGTH)?;
    let kind = match payload[2] {
        INFORMATION_TYPE => MarkerKind::Information,
        RESPONSE_TYPE => MarkerKind::Response,
        other => return Err(WireFault::MarkerTlv(other)),
    };
    Ok(Pdu::Marker(Marker {
        kind,
        port: u16_at(payload, 4),
        system: mac_at(payload, 6),
        id: u32_at(payload, 12),
    }))
}

impl MarkerKind {
    /// The TLV type.
    fn tlv_type(self) -> u8
        ensures { result ≡ tlv_type self }
    {
        match self {
            MarkerKind::Information => INFORMATION_TYPE,
            MarkerKind::Response => RESPONSE_TYPE,
        }
    }
}

impl Marker {
    /// The payload of this Marker PDU, 110 octets: version 1, and zero in every pad and reserved octet (6.5.3.3).
    pub fn encode(&self) -> [u8; 110]
        ensures { WritesMarker result self.now }
    {
        let port = self.port;
        let id = self.id;
        let head = [MARKER_SUBTYPE, VERSION, self.kind.tlv_type(), MARKER_LENGTH];
        let mut payload = ZEROS;
        put_octets(&mut payload, 0, &head);
        put_u16(&mut payload, 4, port);
        put_mac(&mut payload, 6, self.system);
        put_u32(&mut payload, 12, id);
        payload
    }
}

// promise: the answer to a marker is the same marker of the response type; a response has none
// contract: `respond`
/// The Marker Response to a marker: the same port, system and identifier, with the response type. None exactly if the
/// argument is itself a response (6.5.4).
pub fn respond(marker: &Marker) -> Option<Marker>
    ensures { result ≡ response_to marker.now }
{
    match marker.kind {
        MarkerKind::Information => Some(Marker {
            kind: MarkerKind::Response,
            ..*marker
        }),
        MarkerKind::Response => None,
    }
}
