ghost use Rattle.std.specs.Prelude.{◌≡◌, ◌<◌, ◌≤◌, length, drop};
ghost use Rattle.slowpdu.specs.declared.frames.Kind.TheVariants.{Data, TooShort};
ghost use Rattle.slowpdu.specs.Frames.{frame_octets, IsControl, IsFrameOfKind, IsSlowProtocolsFrame};

use crate::constants::{FRAME_LEN, HEADER_LEN, SLOW_TYPE};
use crate::encoding::put_octets;

/// The kinds of received frames (profile).
#[derive(Clone, Copy, Debug, PartialEq, Eq)]
pub enum Kind<'a> {
    /// A slow protocols frame, EtherType 0x8809, whatever its destination address. This is its payload: what follows
    /// octet 13.
    Control(&'a [u8]),
    /// Any other frame of at least 14 octets.
    Data,
    /// Fewer than 14 octets, so no Ethernet frame.
    TooShort,
}

// promise: a control frame is 01-80-C2-00-00-02, source, 0x8809, payload, and a receiver finds that payload
// contract: `frame`; `what_is_framed_is_control`
/// A control frame of 124 octets with this source address and payload; the destination is 01-80-C2-00-00-02, the
/// Slow_Protocols_Multicast address, and the EtherType 0x8809 (6.4.2.2, 6.5.3.2).
pub fn frame(src: [u8; 6], payload: &[u8; 110]) -> [u8; 124]
    ensures { result ≡ frame_octets src payload.now }
{
    let mut octets = [0; FRAME_LEN];
    put_octets(&mut octets, 0, &[0x01, 0x80, 0xc2, 0x00, 0x00, 0x02]);
    put_octets(&mut octets, 6, &src);
    put_octets(&mut octets, 12, &SLOW_TYPE);
    put_octets(&mut octets, HEADER_LEN, payload);
    octets
}

// promise: a received frame is too short exactly below 14 octets; else control exactly if octets 12, 13 are 0x88, 0x09, with what follows
//    as its payload; else data
// contract: `classify` (`kind`, `too_short`, `control`, `data`)
// not said: the destination
/// The kind of a received frame. Its length has no upper bound, and its addresses are not read (profile).
pub fn classify(octets: &[u8]) -> Kind<'_>
    ensures kind { IsFrameOfKind octets.now result }
    ensures too_short { length octets.now < 14 → result ≡ TooShort }
    ensures control { 14 ≤ length octets.now → IsSlowProtocolsFrame octets.now → IsControl (drop 14 octets.now) result }
    ensures data { 14 ≤ length octets.now → (IsSlowProtocolsFrame octets.now → ⊥) → result ≡ Data }
{
    if octets.len() < HEADER_LEN {
        Kind::TooShort
    } else if octets[12] == SLOW_TYPE[0] && octets[13] == SLOW_TYPE[1] {
        Kind::Control(&octets[HEADER_LEN..])
    } else {
        Kind::Data
    }
}
