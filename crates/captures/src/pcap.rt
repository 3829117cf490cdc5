ghost use Rattle.std.specs.Prelude.{◌≡◌, ◌≤◌, length, IfOk, IfErr};
ghost use Rattle.captures.specs.Pcap.{link_of_file, packet_in, whole};
ghost use Rattle.captures.specs.Wanted.{IsWithin, WantsMore};

use crate::fault::{Cause, Stop, refused};
use crate::link::{LinkType, link_at};
use crate::number::{Order, number16, number32};
use crate::packet::{MOST_CAPTURED, Packet};
use crate::time::{Unit, nanoseconds};

/// The octets of the header of a file.
pub(crate) const FILE_HEADER: usize = 24;

/// The octets of the header of a packet.
const PACKET_HEADER: usize = 16;

/// The link type that the header of a file names. Refused: a version other than 2.4, and another link type.
pub(crate) fn link_of_file(order: Order, octets: &[u8]) -> Result<LinkType, Stop>
    ensures link { result ≡ link_of_file order octets.now }
    ensures wants { IfErr result (λ e. WantsMore octets.now e) }
{
    if octets.len() < FILE_HEADER {
        return Err(Stop::Wants(FILE_HEADER));
    }
    let major = number16(order, octets, 4);
    let minor = number16(order, octets, 6);
    if major != 2 || minor != 4 {
        return Err(refused(4, Cause::Version(major, minor)));
    }
    link_at(20, number32(order, octets, 20) % 65_536)
}

/// Whether the octets have all that is captured, from the offset `start` on. Refused at the offset `at`: more than
/// `MOST_CAPTURED` octets.
pub(crate) fn whole(octets: &[u8], start: usize, captured: u32, at: usize) -> Result<usize, Stop>
    requires { start ≤ 28 }
    ensures end { result ≡ whole octets.now start captured at }
    ensures within { IfOk result (λ end. (start ≤ end) × (end ≤ length octets.now)) }
    ensures wants { IfErr result (λ e. WantsMore octets.now e) }
{
    if captured > MOST_CAPTURED {
        return Err(refused(at, Cause::Captured(captured)));
    }
    let end = start + captured as usize;
    if octets.len() < end {
        return Err(Stop::Wants(end));
    }
    Ok(end)
}

/// The packet at the beginning of the octets, with its header.
pub(crate) fn packet_in(
    order: Order,
    unit: Unit,
    link: LinkType,
    octets: &[u8],
) -> Result<Packet, Stop>
    ensures packet { result ≡ packet_in order unit link octets.now }
    ensures within { IfOk result (λ p. IsWithin octets.now p) }
    ensures wants { IfErr result (λ e. WantsMore octets.now e) }
{
    if octets.len() < PACKET_HEADER {
        return Err(Stop::Wants(PACKET_HEADER));
    }
    let captured = number32(order, octets, 8);
    let end = whole(octets, PACKET_HEADER, captured, 8)?;
    let time = nanoseconds(unit, number32(order, octets, 0), number32(order, octets, 4));
    Ok(Packet {
        interface: 0,
        link,
        time: Some(time),
        original: number32(order, octets, 12),
        start: PACKET_HEADER,
        end,
    })
}
