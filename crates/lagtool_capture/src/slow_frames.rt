ghost use Rattle.std.specs.Prelude.{◌≡◌, ◌≤◌};
ghost use Rattle.std.specs.List.{list_any};
ghost use Rattle.lagtool_capture.specs.SlowFrames.{frame_in, frame_length, has_octet, has_other_types, has_reserved, is_octet, is_set, slow_frame, version_in, what_in, what_of};

use crate::header::{Header, header_of};
use captures::{LinkType, Packet};
use findings::{SlowFrame, What};
use slowpdu::{Pdu, WireFault, decode};

/// The EtherType of the slow protocols (6.4.2.2, 6.5.3.2).
const SLOW_TYPE: u16 = 0x8809;

/// Whether an octet is not zero.
fn is_set(octet: &u8) -> bool
    ensures { result ≡ is_set octet.now }
{
    *octet != 0
}

/// Whether one of the octets is not zero.
fn has_set(octets: &[u8]) -> bool
    ensures { result ≡ list_any is_set octets.now }
{
    octets.iter().any(|octet| is_set(octet))
}

/// Whether an octet from one offset up to another is not zero; false if the payload ends before.
fn has_octet(payload: &[u8], from: usize, to: usize) -> bool
    requires { from ≤ to }
    ensures { result ≡ has_octet payload.now from to }
{
    if payload.len() < to {
        return false;
    }
    has_set(&payload[from..to])
}

/// Whether a reserved octet of the payload or one of its padding is not zero (6.4.2.3, 6.5.3.3).
fn has_reserved(payload: &[u8], what: &What) -> bool
    ensures { result ≡ has_reserved payload.now what.now }
{
    match what {
        What::Lacpdu(_) => {
            has_octet(payload, 19, 22)
                || has_octet(payload, 39, 42)
                || has_octet(payload, 46, 58)
                || has_octet(payload, 60, 110)
        }
        What::Marker(_) => has_octet(payload, 16, 18) || has_octet(payload, 20, 110),
        What::Refused(_) => false,
    }
}

/// Whether the octet at this offset is this one; false if there is none.
fn is_octet(payload: &[u8], at: usize, octet: u8) -> bool
    ensures { result ≡ is_octet payload.now at octet }
{
    match payload.get(at) {
        Some(found) => *found == octet,
        None => false,
    }
}

/// Whether a TLV type, or the type or length of the Terminator, is another one (6.4.2.3, 6.5.3.3). The type of a marker's TLV says
/// what it is.
fn has_other_types(payload: &[u8], what: &What) -> bool
    ensures { result ≡ has_other_types payload.now what.now }
{
    match what {
        What::Lacpdu(_) => {
            !(is_octet(payload, 2, 1)
                && is_octet(payload, 22, 2)
                && is_octet(payload, 42, 3)
                && is_octet(payload, 58, 0)
                && is_octet(payload, 59, 0))
        }
        What::Marker(_) => !(is_octet(payload, 18, 0) && is_octet(payload, 19, 0)),
        What::Refused(_) => false,
    }
}

/// Octet 1 of the payload, the version; 0 if there is none.
fn version_in(payload: &[u8]) -> u8
    ensures { result ≡ version_in payload.now }
{
    match payload.get(1) {
        Some(version) => *version,
        None => 0,
    }
}

/// What a payload holds that is read so.
fn what_of(content: Result<Pdu, WireFault>) -> What
    ensures { result ≡ what_of content }
{
    match content {
        Ok(Pdu::Lacpdu(lacpdu)) => What::Lacpdu(lacpdu),
        Ok(Pdu::Marker(marker)) => What::Marker(marker),
        Err(fault) => What::Refused(fault),
    }
}

/// What the payload of a frame of the slow protocols holds, or why it is refused (6.4.2.3, 6.5.3.3).
fn what_in(payload: &[u8]) -> What
    ensures { result ≡ what_in payload.now }
{
    what_of(decode(payload))
}

/// How many octets the packet's frame has from its destination address on, without so many tags.
fn frame_length(packet: &Packet, tags: u8) -> u32
    ensures { result ≡ frame_length packet.now tags }
{
    let more: u32 = match packet.link {
        LinkType::Ethernet => 0,
        LinkType::Cooked => 2,
        LinkType::Cooked2 => 6,
    };
    packet.original.saturating_sub(more + 4 * (tags as u32))
}

/// The frame of the slow protocols with this number, header and payload.
fn slow_frame(number: u64, packet: &Packet, header: Header, payload: &[u8]) -> SlowFrame
    ensures { result ≡ slow_frame number packet.now header payload.now }
{
    let what = what_in(payload);
    let source = header.source;
    SlowFrame {
        number,
        interface: header.interface,
        nanoseconds: packet.time.unwrap_or(0),
        source,
        destination: header.destination,
        tags: header.tags,
        length: frame_length(packet, header.tags),
        version: version_in(payload),
        reserved: has_reserved(payload, &what),
        other_types: has_other_types(payload, &what),
        what,
    }
}

// promise: what stands before a payload is read as Ethernet, Linux cooked headers and 802.1Q have it, behind two tags at most
// contract: `frame_in` (`SlowFrames`, `Headers`)
// promise: a payload is what `slowpdu` reads, or its first fault
// contract: `frame_in` (`SlowFrames`, `Contents`)
/// The frame of the slow protocols in a packet with these captured octets; None if it is another frame.
pub fn frame_in(number: u64, packet: &Packet, octets: &[u8]) -> Option<SlowFrame>
    ensures { result ≡ frame_in number packet.now octets.now }
{
    match header_of(packet, octets) {
        Some(header) if header.ether_type == SLOW_TYPE => Some(slow_frame(
            number,
            packet,
            header,
            &octets[header.start..],
        )),
        _ => None,
    }
}
