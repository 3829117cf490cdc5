ghost use Rattle.std.specs.Prelude.{◌≡◌, ◌≤◌, ◌+◌, length, slice_range, IfSome};
ghost use Rattle.slowpdu.specs.Readings.{number_at};
ghost use Rattle.lagtool_capture.specs.Headers.{behind_tag, header_of, is_tag, outer_header};

use byteorder::{BigEndian, ByteOrder};
use captures::{LinkType, Packet};

/// What stands before the payload of a captured frame.
#[derive(Clone, Copy, Debug, PartialEq, Eq)]
pub struct Header {
    /// The interface: that of the packet, or for Linux cooked 2 the index that its header has.
    pub interface: u32,
    /// The destination address; None in a Linux cooked capture.
    pub destination: Option<[u8; 6]>,
    /// The source address; in a Linux cooked capture the first six octets of the sender's address.
    pub source: [u8; 6],
    /// How many tags of IEEE 802.1Q stand before the EtherType, at most 2.
    pub tags: u8,
    /// The EtherType behind the tags.
    pub ether_type: u16,
    /// The offset of the payload.
    pub start: usize,
}

/// The number in the two octets from this offset on, the most significant first.
fn u16_at(octets: &[u8], at: usize) -> u16
    requires { at + 2 ≤ length octets.now }
    ensures { result ≡ number_at octets.now at 2 }
{
    BigEndian::read_u16(&octets[at..])
}

/// The number in the four octets from this offset on, the most significant first.
fn u32_at(octets: &[u8], at: usize) -> u32
    requires { at + 4 ≤ length octets.now }
    ensures { result ≡ number_at octets.now at 4 }
{
    BigEndian::read_u32(&octets[at..])
}

/// The MAC address in the six octets from this offset on.
fn mac_at(octets: &[u8], at: usize) -> [u8; 6]
    requires { at + 6 ≤ length octets.now }
    ensures { result ≡ slice_range octets.now at (at + 6) }
{
    let mut mac = [0; 6];
    mac.copy_from_slice(&octets[at..at + 6]);
    mac
}

/// Whether an EtherType begins a tag: 0x8100 of a C-VLAN, or 0x88a8 of an S-VLAN (IEEE 802.1Q, 9.5).
fn is_tag(ether_type: u16) -> bool
    ensures { result ≡ is_tag ether_type }
{
    ether_type == 0x8100 || ether_type == 0x88a8
}

/// The header of a packet, up to its first EtherType; None if that is not captured.
fn outer_header(packet: &Packet, octets: &[u8]) -> Option<Header>
    ensures header { result ≡ outer_header packet.now octets.now }
    ensures within { IfSome result (λ e. e.start ≤ length octets.now) }
{
    let interface = packet.interface;
    match packet.link {
        LinkType::Ethernet if octets.len() >= 14 => Some(Header {
            interface,
            destination: Some(mac_at(octets, 0)),
            source: mac_at(octets, 6),
            tags: 0,
            ether_type: u16_at(octets, 12),
            start: 14,
        }),
        LinkType::Cooked if octets.len() >= 16 => Some(Header {
            interface,
            destination: None,
            source: mac_at(octets, 6),
            tags: 0,
            ether_type: u16_at(octets, 14),
            start: 16,
        }),
        LinkType::Cooked2 if octets.len() >= 20 => Some(Header {
            interface: u32_at(octets, 4),
            destination: None,
            source: mac_at(octets, 12),
            tags: 0,
            ether_type: u16_at(octets, 0),
            start: 20,
        }),
        _ => None,
    }
}

/// The header behind one tag; the same header if there is none, or if it is not wholly captured.
fn behind_tag(header: Header, octets: &[u8]) -> Header
    requires within { header.start ≤ length octets.now }
    requires few { header.tags ≤ 1 }
    ensures behind { result ≡ behind_tag octets.now header }
    ensures within { result.start ≤ length octets.now }
    ensures few { result.tags ≤ header.tags + 1 }
{
    if !is_tag(header.ether_type) || octets.len() - header.start < 4 {
        return header;
    }
    Header {
        tags: header.tags + 1,
        ether_type: u16_at(octets, header.start + 2),
        start: header.start + 4,
        ..header
    }
}

/// What stands before the payload of a captured packet, behind at most two tags; None if the octets end before the
/// EtherType.
pub fn header_of(packet: &Packet, octets: &[u8]) -> Option<Header>
    ensures header { result ≡ header_of packet.now octets.now }
    ensures within { IfSome result (λ e. e.start ≤ length octets.now) }
{
    let outer = outer_header(packet, octets)?;
    let middle = behind_tag(outer, octets);
    Some(behind_tag(middle, octets))
}
