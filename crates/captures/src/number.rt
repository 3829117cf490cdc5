ghost use Rattle.std.specs.Prelude.{◌≡◌, ◌+◌, ◌≤◌, length};
ghost use Rattle.captures.specs.Numbers.{number_at};

use byteorder::{BigEndian, ByteOrder, LittleEndian};

/// The order of the octets of a number: that of the machine that wrote the capture.
#[derive(Clone, Copy, Debug, PartialEq, Eq)]
pub enum Order {
    /// The most significant octet first.
    Big,
    /// The least significant octet first.
    Little,
}

/// The number in the two octets from this offset on.
pub(crate) fn number16(order: Order, octets: &[u8], at: usize) -> u16
    requires { at + 2 ≤ length octets.now }
    ensures { result ≡ number_at order octets.now at 2 }
{
    match order {
        Order::Big => BigEndian::read_u16(&octets[at..]),
        Order::Little => LittleEndian::read_u16(&octets[at..]),
    }
}

/// The number in the eight octets from this offset on.
pub(crate) fn number64(order: Order, octets: &[u8], at: usize) -> u64
    requires { at + 8 ≤ length octets.now }
    ensures { result ≡ number_at order octets.now at 8 }
{
    match order {
        Order::Big => BigEndian::read_u64(&octets[at..]),
        Order::Little => LittleEndian::read_u64(&octets[at..]),
    }
}

/// The number in the four octets from this offset on.
pub(crate) fn number32(order: Order, octets: &[u8], at: usize) -> u32
    requires { at + 4 ≤ length octets.now }
    ensures { result ≡ number_at order octets.now at 4 }
{
    match order {
        Order::Big => BigEndian::read_u32(&octets[at..]),
        Order::Little => LittleEndian::read_u32(&octets[at..]),
    }
}
