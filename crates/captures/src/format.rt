ghost use Rattle.std.specs.Prelude.{◌≡◌, ◌<◌, IfOk, IfErr};
ghost use Rattle.captures.specs.Formats.{format_in};
ghost use Rattle.captures.specs.Wanted.{WantsMore};

use crate::fault::{Cause, Stop, refused};
use crate::link::LinkType;
use crate::number::{Order, number32};
use crate::pcap::{FILE_HEADER, link_of_file};
use crate::pcapng::{SECTION, section_in};
use crate::time::Unit;

/// What comes next in a capture.
#[derive(Clone, Copy, Debug, PartialEq, Eq)]
pub enum Format {
    /// The beginning of the file.
    Start,
    /// A packet of pcap.
    Packet {
        /// The order of octets.
        order: Order,
        /// The unit of the fraction of a second.
        unit: Unit,
        /// What each packet begins with.
        link: LinkType,
    },
    /// A block of pcapng.
    Block {
        /// The order of octets in the section.
        order: Order,
    },
    /// The second length of a block of pcapng.
    SecondLength {
        /// The order of octets in the section.
        order: Order,
        /// The first length of the block.
        length: u32,
    },
}

/// What comes behind the head of the file, and how many octets that has. Refused: gzip, and any other format.
pub(crate) fn format_in(octets: &[u8]) -> Result<(Format, usize), Stop>
    ensures format { result ≡ format_in octets.now }
    ensures taken { IfOk result (λ x. 0 < x.1) }
    ensures wants { IfErr result (λ e. WantsMore octets.now e) }
{
    if octets.len() < 4 {
        return Err(Stop::Wants(4));
    }
    if octets[0] == 0x1f && octets[1] == 0x8b {
        return Err(refused(0, Cause::Gzip));
    }
    let (order, unit) = match number32(Order::Big, octets, 0) {
        0xa1b2_c3d4 => (Order::Big, Unit::Micro),
        0xa1b2_3c4d => (Order::Big, Unit::Nano),
        0xd4c3_b2a1 => (Order::Little, Unit::Micro),
        0x4d3c_b2a1 => (Order::Little, Unit::Nano),
        SECTION => {
            let (order, length) = section_in(octets)?;
            return Ok((Format::SecondLength { order, length }, length as usize - 4));
        }
        other => return Err(refused(0, Cause::Format(other))),
    };
    let link = link_of_file(order, octets)?;
    Ok((Format::Packet { order, unit, link }, FILE_HEADER))
}
