use crate::given::{end, mac, said};
use captures::{LinkType, Order, Unit, put_file_header, put_packet};
use slowpdu::{Marker, MarkerKind, frame};
use std::alloc::{AllocError, Global};
use std::process::Abort;
use std::test::Fail;

/// The frame of an LACPDU from port 1 of one system to port 1 of another, with their states.
fn lacpdu(actor: u8, own: u8, partner: u8, seen: u8) -> [u8; 124] {
    let (actor, partner) = (end(actor, 1, 1, own), end(partner, 1, 1, seen));
    crate::given::lacpdu(actor.system.mac, actor, partner)
}

/// Active, Long Timeout, aggregatable, synchronized, collecting, distributing.
const UP: u8 = 0x3d;

/// A capture of frames, each with its second and how many octets it had.
fn capture(alloc: Global, frames: &[(u32, u32, [u8; 124])]) -> Result<Vec<u8>, AllocError> {
    let mut out = Vec::new(alloc);
    put_file_header(&mut out, Order::Little, Unit::Micro, LinkType::Ethernet)?;
    for (second, original, octets) in frames {
        put_packet(&mut out, Order::Little, *second, 0, *original, octets)?;
    }
    Ok(out)
}

/// Whether a capture has just this finding, or none for the empty text.
fn has_just(
    alloc: Global,
    frames: &[(u32, u32, [u8; 124])],
    line: &str,
) -> Result<bool, AllocError> {
    let (answer, text) = said(alloc, &capture(alloc, frames)?)?;
    let count: usize = if line.is_empty() { 0 } else { 1 };
    let Ok(summary) = answer else {
        return Ok(false);
    };
    let text = text.as_str();
    let found = text.matches("finding ").count();
    Ok(summary.findings == count && text.contains(line) && found == count)
}

#[test]
fn a_type_or_a_terminator_is_another_one(rt: HostRuntime) -> Result<(), Fail> {
    // 6.4.2.3: behind the 14 octets of a header TLV types at 2, 22 and 42 (Actor 1, Partner 2, Collector 3), Terminator type and
    // length at 58 and 59 (0); the octets beside a Terminator are reserved.
    let line =
        "finding 24 end 02-00-00-00-00-02 port 1 packet 2 at 1.000000: a TLV type or a Terminator other than the standard's (6.4.2.3). Look for a fault of the sender: a receiver does not check these octets, and reads the rest.\n";
    for at in [16, 36, 56, 71, 72, 73, 74] {
        let mut other = lacpdu(2, UP, 1, UP);
        if let Some(octet) = other.get_mut(at) {
            *octet = 9;
        }
        let frames = [(100, 124, lacpdu(1, UP, 2, UP)), (101, 124, other)];
        let reserved = at == 71 || at == 74;
        let line = if reserved { "finding 8 " } else { line };
        assert!(rt; has_just(rt.alloc(), &frames, line)?, "{at}");
    }
    // 6.5.3.3: in a marker the Terminator is at 18 and 19 behind the header, between pad and reserved octets.
    let asks = Marker {
        kind: MarkerKind::Response,
        port: 1,
        system: mac(1),
        id: 7,
    };
    let rows = [
        (31, "finding 8 "),
        (32, "finding 24 "),
        (33, "finding 24 "),
        (34, "finding 8 "),
    ];
    for (at, line) in rows {
        let mut other = frame(mac(2), &asks.encode());
        if let Some(octet) = other.get_mut(at) {
            *octet = 9;
        }
        assert!(rt; has_just(rt.alloc(), &[(100, 124, other)], line)?, "{at}");
    }
    Ok(())
}
