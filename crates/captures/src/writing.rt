ghost use Rattle.std.specs.Prelude.{◌≡◌, ◌≤◌, ◌++◌, length, OnOk};
ghost use Rattle.captures.specs.Pcap.{most_captured};
ghost use Rattle.captures.specs.Writing.{number_octets, magic, link_number, file_header, packet_octets};

use crate::link::LinkType;
use crate::number::Order;
use crate::time::Unit;
use std::alloc::AllocError;

/// The largest snapshot length: the header of a file names it.
const SNAPSHOT: u32 = 262_144;

/// Appends a number of two octets.
fn put16(out: &mut Vec<u8>, order: Order, number: u16) -> Result<(), AllocError>
    ensures { OnOk result (out.new.items ≡ out.old.items ++ number_octets order 2 number) }
{
    match order {
        Order::Big => out.extend_from_slice(&number.to_be_bytes()),
        Order::Little => out.extend_from_slice(&number.to_le_bytes()),
    }
}

/// Appends a number of four octets.
fn put32(out: &mut Vec<u8>, order: Order, number: u32) -> Result<(), AllocError>
    ensures { OnOk result (out.new.items ≡ out.old.items ++ number_octets order 4 number) }
{
    match order {
        Order::Big => out.extend_from_slice(&number.to_be_bytes()),
        Order::Little => out.extend_from_slice(&number.to_le_bytes()),
    }
}

/// The number that begins a file with this unit.
fn magic(unit: Unit) -> u32
    ensures { result ≡ magic unit }
{
    match unit {
        Unit::Micro => 0xa1b2_c3d4,
        Unit::Nano => 0xa1b2_3c4d,
    }
}

impl LinkType {
    /// The number of the link type.
    pub fn number(self) -> u16
        ensures { result ≡ link_number self }
    {
        match self {
            LinkType::Ethernet => 1,
            LinkType::Cooked => 113,
            LinkType::Cooked2 => 276,
        }
    }
}

/// Appends the header of a file of pcap, version 2.4. `AllocError` if memory is refused.
pub fn put_file_header(
    out: &mut Vec<u8>,
    order: Order,
    unit: Unit,
    link: LinkType,
) -> Result<(), AllocError>
    ensures { OnOk result (out.new.items ≡ out.old.items ++ file_header order unit link) }
{
    put32(out, order, magic(unit))?;
    put16(out, order, 2)?;
    put16(out, order, 4)?;
    put32(out, order, 0)?;
    put32(out, order, 0)?;
    put32(out, order, SNAPSHOT)?;
    put32(out, order, u32::from(link.number()))
}

/// Appends a packet of pcap: its seconds and the units of the fraction, how many octets it had, and those that were
/// captured. `AllocError` if memory is refused.
pub fn put_packet(
    out: &mut Vec<u8>,
    order: Order,
    seconds: u32,
    fraction: u32,
    original: u32,
    octets: &[u8],
) -> Result<(), AllocError>
    requires { length octets.now ≤ most_captured }
    ensures { OnOk result (out.new.items ≡ out.old.items ++ packet_octets order seconds fraction original octets.now) }
{
    put32(out, order, seconds)?;
    put32(out, order, fraction)?;
    put32(out, order, octets.len() as u32)?;
    put32(out, order, original)?;
    out.extend_from_slice(octets)
}
