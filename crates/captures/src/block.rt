ghost use Rattle.std.specs.Prelude.{◌≡◌, ◌≤◌, IfOk, IfErr};
ghost use Rattle.captures.specs.Blocks.{block_in, HoldsWithin, is_record, without_packet};
ghost use Rattle.captures.specs.Wanted.{WantsMore};

use crate::description::interface_in;
use crate::fault::Stop;
use crate::interface::Interface;
use crate::number::{Order, number32};
use crate::packet::Packet;
use crate::pcapng::{SECTION, length_in, section_in, simple_packet, stamped_packet};

/// What a block of pcapng says.
#[derive(Clone, Copy)]
pub(crate) enum Block {
    /// The block begins a section with this order of octets.
    Section(Order),
    /// The block describes an interface.
    Interface(Interface),
    /// The block holds a packet.
    Packet(Packet),
    /// The block holds no packet, and has a number like one.
    Record,
    /// The block is skipped.
    Other,
}

/// Whether Wireshark gives blocks of this type numbers as it does packets: custom blocks, entries of the journal, and the
/// three events of sysdig.
fn is_record(kind: u32) -> bool
    ensures { result ≡ is_record kind }
{
    matches!(kind, 9 | 0xbad | 0x4000_0bad | 0x204 | 0x216 | 0x221)
}

/// What a block without a packet says by its type.
fn without_packet(kind: u32) -> Block
    ensures { result ≡ without_packet kind }
{
    if is_record(kind) {
        Block::Record
    } else {
        Block::Other
    }
}

/// What the block at the beginning of the octets says, and its length.
pub(crate) fn block_in(
    order: Order,
    interfaces: &[Interface],
    octets: &[u8],
) -> Result<(Block, u32), Stop>
    ensures block { result ≡ block_in order interfaces.now octets.now }
    ensures least { IfOk result (λ x. 12 ≤ x.1) }
    ensures within { IfOk result (λ x. HoldsWithin octets.now x.0) }
    ensures wants { IfErr result (λ e. WantsMore octets.now e) }
{
    if octets.len() < 8 {
        return Err(Stop::Wants(8));
    }
    match number32(order, octets, 0) {
        SECTION => {
            let (order, length) = section_in(octets)?;
            Ok((Block::Section(order), length))
        }
        1 => {
            let (interface, length) = interface_in(order, octets)?;
            Ok((Block::Interface(interface), length))
        }
        2 => {
            let (packet, length) = stamped_packet(order, interfaces, octets, true)?;
            Ok((Block::Packet(packet), length))
        }
        3 => {
            let (packet, length) = simple_packet(order, interfaces, octets)?;
            Ok((Block::Packet(packet), length))
        }
        6 => {
            let (packet, length) = stamped_packet(order, interfaces, octets, false)?;
            Ok((Block::Packet(packet), length))
        }
        kind => Ok((without_packet(kind), length_in(order, octets, 12)?)),
    }
}
