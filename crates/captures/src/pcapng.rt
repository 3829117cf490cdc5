ghost use Rattle.std.specs.Prelude.{◌≡◌, ◌≤◌, ◌+◌, ℕ, List, length, IfOk, IfErr};
ghost use Rattle.captures.specs.Pcapng.{order_of_section, section_in, length_in, stamped_packet, simple_packet, described, room};
ghost use Rattle.captures.specs.Wanted.{IsWithin, WantsMore};

use crate::fault::{Cause, Stop, refused};
use crate::interface::Interface;
use crate::number::{Order, number16, number32};
use crate::packet::Packet;
use crate::pcap::whole;
use crate::time::stamp_time;

/// The type of a section header block, in both orders of octets.
pub(crate) const SECTION: u32 = 0x0a0d_0d0a;

/// The octets of a section header block that are read.
const SECTION_HEADER: usize = 16;

/// The octets before the captured ones in an enhanced packet block, and in a packet block.
const STAMPED_HEADER: usize = 28;

/// The octets before the captured ones in a simple packet block.
const SIMPLE_HEADER: usize = 12;

/// The length of the block, at least `least`. Refused: a smaller one, and one that is no multiple of 4.
pub(crate) fn length_in(order: Order, octets: &[u8], least: u32) -> Result<u32, Stop>
    requires { 8 ≤ length octets.now }
    ensures length { result ≡ length_in order octets.now least }
    ensures least { IfOk result (λ n. least ≤ n) }
    ensures wants { IfErr result (λ e. WantsMore octets.now e) }
{
    let length = number32(order, octets, 4);
    if length % 4 != 0 || length < least {
        return Err(refused(4, Cause::Length(length)));
    }
    Ok(length)
}

/// The order of octets that a section header block tells.
fn order_of_section(octets: &[u8]) -> Result<Order, Stop>
    requires { 16 ≤ length octets.now }
    ensures order { result ≡ order_of_section octets.now }
    ensures wants { IfErr result (λ e. WantsMore octets.now e) }
{
    match number32(Order::Big, octets, 8) {
        0x1a2b_3c4d => Ok(Order::Big),
        0x4d3c_2b1a => Ok(Order::Little),
        other => Err(refused(8, Cause::SectionOrder(other))),
    }
}

/// The order of octets and the length of the section header block. Refused: a number that tells no order, a length that
/// it cannot have, and a version other than 1.
pub(crate) fn section_in(octets: &[u8]) -> Result<(Order, u32), Stop>
    ensures section { result ≡ section_in octets.now }
    ensures least { IfOk result (λ x. 12 ≤ x.1) }
    ensures wants { IfErr result (λ e. WantsMore octets.now e) }
{
    if octets.len() < SECTION_HEADER {
        return Err(Stop::Wants(SECTION_HEADER));
    }
    let order = order_of_section(octets)?;
    let length = length_in(order, octets, 28)?;
    let major = number16(order, octets, 12);
    if major != 1 {
        return Err(refused(12, Cause::Version(major, number16(order, octets, 14))));
    }
    Ok((order, length))
}

/// The interface with this number.
fn described(interfaces: &[Interface], number: u32, at: usize) -> Result<Interface, Stop>
    ensures interface { result ≡ described interfaces.now number at }
    ensures wants { (b : List ℕ) → IfErr result (λ e. WantsMore b e) }
{
    match interfaces.get(number as usize) {
        Some(interface) => Ok(*interface),
        None => Err(refused(at, Cause::Interface(number))),
    }
}

/// The captured octets, if the block has room for them behind its header and before its second length.
fn room(captured: u32, header: u32, length: u32, at: usize) -> Result<u32, Stop>
    requires { header + 4 ≤ length }
    ensures captured { result ≡ room captured header length at }
    ensures wants { (b : List ℕ) → IfErr result (λ e. WantsMore b e) }
{
    if captured > length - header - 4 {
        return Err(refused(at, Cause::Length(captured)));
    }
    Ok(captured)
}

/// The packet of an enhanced packet block, or of the older packet block, which has the interface in two octets.
pub(crate) fn stamped_packet(
    order: Order,
    interfaces: &[Interface],
    octets: &[u8],
    is_older: bool,
) -> Result<(Packet, u32), Stop>
    requires { 8 ≤ length octets.now }
    ensures packet { result ≡ stamped_packet order interfaces.now octets.now is_older }
    ensures least { IfOk result (λ x. 12 ≤ x.1) }
    ensures within { IfOk result (λ x. IsWithin octets.now x.0) }
    ensures wants { IfErr result (λ e. WantsMore octets.now e) }
{
    let length = length_in(order, octets, 32)?;
    if octets.len() < STAMPED_HEADER {
        return Err(Stop::Wants(STAMPED_HEADER));
    }
    let number = if is_older {
        u32::from(number16(order, octets, 8))
    } else {
        number32(order, octets, 8)
    };
    let interface = described(interfaces, number, 8)?;
    let high = u64::from(number32(order, octets, 12));
    let stamp = high * 4_294_967_296 + u64::from(number32(order, octets, 16));
    let Some(time) = stamp_time(interface.timing.units, interface.timing.shift, stamp) else {
        return Err(refused(12, Cause::Time));
    };
    let captured = room(number32(order, octets, 20), 28, length, 20)?;
    let end = whole(octets, STAMPED_HEADER, captured, 20)?;
    let packet = Packet {
        interface: number,
        link: interface.link,
        time: Some(time),
        original: number32(order, octets, 24),
        start: STAMPED_HEADER,
        end,
    };
    Ok((packet, length))
}

/// The packet of a simple packet block, which is of the first interface and has no time. What is captured of it is
/// what the interface's limit leaves.
pub(crate) fn simple_packet(
    order: Order,
    interfaces: &[Interface],
    octets: &[u8],
) -> Result<(Packet, u32), Stop>
    requires { 8 ≤ length octets.now }
    ensures packet { result ≡ simple_packet order interfaces.now octets.now }
    ensures least { IfOk result (λ x. 12 ≤ x.1) }
    ensures within { IfOk result (λ x. IsWithin octets.now x.0) }
    ensures wants { IfErr result (λ e. WantsMore octets.now e) }
{
    let length = length_in(order, octets, 16)?;
    if octets.len() < SIMPLE_HEADER {
        return Err(Stop::Wants(SIMPLE_HEADER));
    }
    let interface = described(interfaces, 0, 0)?;
    let original = number32(order, octets, 8);
    let limit = interface.snapshot;
    let captured = if limit == 0 {
        original
    } else {
        original.min(limit)
    };
    let captured = room(captured, 12, length, 8)?;
    let end = whole(octets, SIMPLE_HEADER, captured, 8)?;
    let packet = Packet {
        interface: 0,
        link: interface.link,
        time: None,
        original,
        start: SIMPLE_HEADER,
        end,
    };
    Ok((packet, length))
}
