ghost use Rattle.std.specs.Prelude.{◌<◌, length};

use captures::{
    Cause, LinkType, MOST_CAPTURED, Order, Reader, Stop, Unit, put_file_header, put_packet,
};
use std::alloc::{AllocError, Global};
use std::process::Abort;

/// A file of pcap with microseconds and two packets, the least significant octet first.
const LITTLE: [u8; 63] = [
    // the number of microseconds, the least significant octet first; version 2.4; reserved
    0xd4, 0xc3, 0xb2, 0xa1, 0x02, 0x00, 0x04, 0x00, 0x00, 0x00, 0x00, 0x00, 0x00, 0x00, 0x00, 0x00,
    // snapshot length 65535, Ethernet
    0xff, 0xff, 0x00, 0x00, 0x01, 0x00, 0x00, 0x00,
    // second 1597647644, microsecond 654321, 5 octets captured of 124
    0x1c, 0x2b, 0x3a, 0x5f, 0xf1, 0xfb, 0x09, 0x00, 0x05, 0x00, 0x00, 0x00, 0x7c, 0x00, 0x00, 0x00,
    // the captured octets
    0x01, 0x80, 0xc2, 0x00, 0x00,
    // a second later, microsecond 7, 2 octets captured of 60, and these
    0x1d, 0x2b, 0x3a, 0x5f, 0x07, 0x00, 0x00, 0x00, 0x02, 0x00, 0x00, 0x00, 0x3c, 0x00, 0x00, 0x00,
    0xaa, 0xbb,
];

/// A file of pcap with nanoseconds and one packet, the most significant octet first.
const BIG: [u8; 44] = [
    // the number of nanoseconds, the most significant octet first; version 2.4; reserved
    0xa1, 0xb2, 0x3c, 0x4d, 0x00, 0x02, 0x00, 0x04, 0x00, 0x00, 0x00, 0x00, 0x00, 0x00, 0x00, 0x00,
    // snapshot length 96; Linux cooked 2, 276
    0x00, 0x00, 0x00, 0x60, 0x00, 0x00, 0x01, 0x14,
    // second 3, nanosecond 999999999, 4 octets captured of 126, and these
    0x00, 0x00, 0x00, 0x03, 0x3b, 0x9a, 0xc9, 0xff, 0x00, 0x00, 0x00, 0x04, 0x00, 0x00, 0x00, 0x7e,
    0x88, 0x09, 0x01, 0x02,
];

/// A file of pcapng with two sections, one of each order of octets.
pub(crate) const BLOCKS: [u8; 308] = [
    // a section, 32 octets, the most significant octet first, version 1.0, its length not told, the end of the options
    0x0a, 0x0d, 0x0d, 0x0a, 0x00, 0x00, 0x00, 0x20, 0x1a, 0x2b, 0x3c, 0x4d, 0x00, 0x01, 0x00, 0x00,
    0xff, 0xff, 0xff, 0xff, 0xff, 0xff, 0xff, 0xff, 0x00, 0x00, 0x00, 0x00, 0x00, 0x00, 0x00, 0x20,
    // an interface: 44 octets, Ethernet, at most 6 octets of a packet
    0x00, 0x00, 0x00, 0x01, 0x00, 0x00, 0x00, 0x2c, 0x00, 0x01, 0x00, 0x00, 0x00, 0x00, 0x00, 0x06,
    // its option if_name, eth10, filled up to 8 octets
    0x00, 0x02, 0x00, 0x05, 0x65, 0x74, 0x68, 0x31, 0x30, 0x00, 0x00, 0x00,
    // its option if_tsresol: 10^-9
    0x00, 0x09, 0x00, 0x01, 0x09, 0x00, 0x00, 0x00,
    // the end of the options, and the second length
    0x00, 0x00, 0x00, 0x00, 0x00, 0x00, 0x00, 0x2c,
    // a custom block, which holds no packet
    0x00, 0x00, 0x0b, 0xad, 0x00, 0x00, 0x00, 0x10, 0x01, 0x02, 0x03, 0x04, 0x00, 0x00, 0x00, 0x10,
    // an enhanced packet block: 40 octets, interface 0, upper and lower half of the time in nanoseconds, 5 octets of 124
    0x00, 0x00, 0x00, 0x06, 0x00, 0x00, 0x00, 0x28, 0x00, 0x00, 0x00, 0x00, 0x16, 0x30, 0x7f, 0xd0,
    0x40, 0x31, 0xcd, 0x15, 0x00, 0x00, 0x00, 0x05, 0x00, 0x00, 0x00, 0x7c,
    // the captured octets, filled up, and the second length
    0x01, 0x80, 0xc2, 0x00, 0x00, 0x00, 0x00, 0x00, 0x00, 0x00, 0x00, 0x28,
    // a simple packet block: 24 octets; the packet had 70 octets, of which the interface lets 6 be captured
    0x00, 0x00, 0x00, 0x03, 0x00, 0x00, 0x00, 0x18, 0x00, 0x00, 0x00, 0x46,
    // the captured octets, filled up, and the second length
    0xa1, 0xa2, 0xa3, 0xa4, 0xa5, 0xa6, 0x00, 0x00, 0x00, 0x00, 0x00, 0x18,
    // a section with the least significant octet first, 28 octets
    0x0a, 0x0d, 0x0d, 0x0a, 0x1c, 0x00, 0x00, 0x00, 0x4d, 0x3c, 0x2b, 0x1a, 0x01, 0x00, 0x00, 0x00,
    0xff, 0xff, 0xff, 0xff, 0xff, 0xff, 0xff, 0xff, 0x1c, 0x00, 0x00, 0x00,
    // an interface: Linux cooked 2, no limit, and no options
    0x01, 0x00, 0x00, 0x00, 0x14, 0x00, 0x00, 0x00, 0x14, 0x01, 0x00, 0x00, 0x00, 0x00, 0x00, 0x00,
    0x14, 0x00, 0x00, 0x00,
    // an interface: Linux cooked 1
    0x01, 0x00, 0x00, 0x00, 0x20, 0x00, 0x00, 0x00, 0x71, 0x00, 0x00, 0x00, 0x00, 0x00, 0x00, 0x00,
    // if_tsresol: 2^-10
    0x09, 0x00, 0x01, 0x00, 0x8a, 0x00, 0x00, 0x00,
    // the end of the options, and the second length
    0x00, 0x00, 0x00, 0x00, 0x20, 0x00, 0x00, 0x00,
    // a packet block: 36 octets, interface 1, 9 packets lost, 1536 units of 1/1024 s, 4 octets of 85
    0x02, 0x00, 0x00, 0x00, 0x24, 0x00, 0x00, 0x00, 0x01, 0x00, 0x09, 0x00, 0x00, 0x00, 0x00, 0x00,
    0x00, 0x06, 0x00, 0x00, 0x04, 0x00, 0x00, 0x00, 0x55, 0x00, 0x00, 0x00,
    // the captured octets, and the second length
    0xb1, 0xb2, 0xb3, 0xb4, 0x24, 0x00, 0x00, 0x00,
    // an enhanced packet block of interface 0: 2^32 + 2 microseconds, 1 octet of 77
    0x06, 0x00, 0x00, 0x00, 0x24, 0x00, 0x00, 0x00, 0x00, 0x00, 0x00, 0x00, 0x01, 0x00, 0x00, 0x00,
    0x02, 0x00, 0x00, 0x00, 0x01, 0x00, 0x00, 0x00, 0x4d, 0x00, 0x00, 0x00,
    // the captured octet, filled up, and the second length
    0xc1, 0x00, 0x00, 0x00, 0x24, 0x00, 0x00, 0x00,
];

/// What was read of a packet but its time: its interface and what its link is, how many octets it had, and those that were captured.
type Seen<'a> = (u32, LinkType, u32, &'a [u8]);

/// What was read of a capture: its packets and their times, and the offset and the cause of the refusal, if there is one.
#[derive(Drop)]
struct Capture<'a> {
    packets: Vec<Seen<'a>>,
    times: Vec<Option<u64>>,
    fault: Option<(usize, Cause)>,
}

/// Reads a whole capture.
fn read<'a>(alloc: Global, octets: &'a [u8]) -> Result<Capture<'a>, AllocError> {
    let mut reader = Reader::new();
    let mut packets = Vec::new(alloc);
    let mut times = Vec::new(alloc);
    let mut rest = octets;
    let mut fault = None;
    for _ in 0..1000 {
        let at = octets.len().wrapping_sub(rest.len());
        match reader.read(rest) {
            Ok(step) => {
                if let Some(packet) = step.packet {
                    let captured = packet.octets(rest);
                    packets.push((packet.interface, packet.link, packet.original, captured))?;
                    times.push(packet.time)?;
                }
                if step.taken > rest.len() {
                    fault = Some((octets.len(), Cause::CutShort));
                    break;
                }
                rest = &rest[step.taken..];
            }
            Err(Stop::Wants(_)) => {
                if let Err(end) = reader.end(rest.len()) {
                    fault = Some((at.wrapping_add(end.at), end.cause));
                }
                break;
            }
            Err(Stop::Refused(refusal)) => {
                fault = Some((at.wrapping_add(refusal.at), refusal.cause));
                break;
            }
        }
    }
    Ok(Capture {
        packets,
        times,
        fault,
    })
}

/// A capture is read to its end, and has these packets with these times.
fn reads(
    rt: &impl Abort,
    alloc: Global,
    octets: &[u8],
    packets: &[Seen<'_>],
    times: &[Option<u64>],
) -> Result<(), AllocError> {
    let capture = read(alloc, octets)?;
    assert_eq!(rt; capture.packets.as_slice(), packets);
    assert_eq!(rt; capture.times.as_slice(), times);
    assert_eq!(rt; capture.fault, None);
    Ok(())
}

#[test]
fn captures_of_both_formats_are_read(rt: HostRuntime) -> Result<(), AllocError> {
    const LITTLE_SEEN: [Seen<'static>; 2] = [
        (0, LinkType::Ethernet, 124, &[0x01, 0x80, 0xc2, 0, 0]),
        (0, LinkType::Ethernet, 60, &[0xaa, 0xbb]),
    ];
    const BIG_SEEN: [Seen<'static>; 1] = [(0, LinkType::Cooked2, 126, &[0x88, 0x09, 0x01, 0x02])];
    let times = [
        Some(1_597_647_644_654_321_000),
        Some(1_597_647_645_000_007_000),
    ];
    reads(&rt, rt.alloc(), &LITTLE, &LITTLE_SEEN, &times)?;
    reads(&rt, rt.alloc(), &BIG, &BIG_SEEN, &[Some(3_999_999_999)])?;
    const SEEN: [Seen<'static>; 4] = [
        (0, LinkType::Ethernet, 124, &[0x01, 0x80, 0xc2, 0, 0]),
        (
            0,
            LinkType::Ethernet,
            70,
            &[0xa1, 0xa2, 0xa3, 0xa4, 0xa5, 0xa6],
        ),
        (1, LinkType::Cooked, 85, &[0xb1, 0xb2, 0xb3, 0xb4]),
        (0, LinkType::Cooked2, 77, &[0xc1]),
    ];
    let times = [
        Some(1_598_918_400_123_456_789),
        None,
        Some(1_500_000_000),
        Some(4_294_967_298_000),
    ];
    reads(&rt, rt.alloc(), &BLOCKS, &SEEN, &times)?;
    Ok(())
}

/// Whether a block of this type with 16 octets is a record without a packet.
fn is_record(kind: u32) -> bool {
    let mut block = [0, 0, 0, 0, 0, 0, 0, 16, 1, 2, 3, 4, 0, 0, 0, 16];
    block[..4].copy_from_slice(&kind.to_be_bytes());
    let mut reader = Reader::new();
    let _ = reader.read(&BLOCKS[..32]);
    let _ = reader.read(&BLOCKS[28..32]);
    match reader.read(&block) {
        Ok(step) => step.is_record && step.packet.is_none() && step.taken == 12,
        Err(_) => false,
    }
}

#[test]
fn some_blocks_without_a_packet_have_a_number(rt: HostRuntime) {
    for kind in [9, 0xbad, 0x4000_0bad, 0x204, 0x216, 0x221] {
        assert!(rt; is_record(kind), "{kind:x}");
    }
    for kind in [
        0, 4, 5, 7, 8, 10, 11, 0xbac, 0xbae, 0x201, 0x205, 0x208, 0x217,
    ] {
        assert!(rt; !is_record(kind), "{kind:x}");
    }
    assert!(rt; !is_record(0x4000_0bae));
}

/// A beginning of a file is refused as cut short, unless it has one of these lengths.
fn is_cut(rt: &impl Abort, alloc: Global, file: &[u8], ends: &[usize]) -> Result<(), AllocError> {
    for n in 0..file.len() {
        let cut = Some((n, Cause::CutShort));
        let fault = if ends.contains(&n) { None } else { cut };
        assert_eq!(rt; read(alloc, &file[..n])?.fault, fault, "{n}");
    }
    Ok(())
}

#[test]
fn a_capture_is_cut_at_every_length(rt: HostRuntime) -> Result<(), AllocError> {
    let ends = [32, 76, 92, 132, 156, 184, 204, 236, 272];
    is_cut(&rt, rt.alloc(), &LITTLE, &[24, 45])?;
    is_cut(&rt, rt.alloc(), &BLOCKS, &ends)
}

/// The refusal of a file in which one octet is another.
fn with_octet(
    alloc: Global,
    file: &[u8],
    at: usize,
    octet: u8,
) -> Result<Option<(usize, Cause)>, AllocError> {
    let mut changed = Vec::from_slice(alloc, file)?;
    if let Some(place) = changed.get_mut(at) {
        *place = octet;
    }
    Ok(read(alloc, &changed)?.fault)
}

/// An octet that is another, by its place and value, and the offset and the cause of the refusal.
type Refused = (usize, u8, usize, Cause);

/// A file in which one octet is another is refused like this.
fn refuses(
    rt: &impl Abort,
    alloc: Global,
    file: &[u8],
    rows: &[Refused],
) -> Result<(), AllocError> {
    for (at, octet, offset, cause) in rows {
        let fault = with_octet(alloc, file, *at, *octet)?;
        assert_eq!(rt; fault, Some((*offset, *cause)), "{at}");
    }
    Ok(())
}

#[test]
fn each_fault_has_its_offset_and_a_section_64_interfaces(
    rt: HostRuntime,
) -> Result<(), AllocError> {
    const OF_LITTLE: [Refused; 5] = [
        (0, 0xd5, 0, Cause::Format(0xd5c3_b2a1)),
        (4, 3, 4, Cause::Version(3, 4)),
        (6, 3, 4, Cause::Version(2, 3)),
        (20, 2, 20, Cause::LinkType(2)),
        (34, 4, 32, Cause::Captured(262_149)),
    ];
    const OF_BLOCKS: [Refused; 15] = [
        (8, 0x1b, 8, Cause::SectionOrder(0x1b2b_3c4d)),
        (13, 2, 12, Cause::Version(2, 0)),
        (7, 34, 4, Cause::Length(34)),
        (7, 24, 4, Cause::Length(24)),
        (31, 36, 28, Cause::SecondLength(36)),
        (37, 4, 36, Cause::Description(262_188)),
        (41, 105, 40, Cause::LinkType(105)),
        (51, 32, 50, Cause::Length(32)),
        (63, 2, 62, Cause::Length(2)),
        (64, 20, 64, Cause::Resolution(20)),
        (64, 192, 64, Cause::Resolution(192)),
        (103, 1, 100, Cause::Interface(1)),
        (115, 9, 112, Cause::Length(9)),
        (47, 9, 140, Cause::Length(9)),
        (287, 0x40, 284, Cause::Time),
    ];
    refuses(&rt, rt.alloc(), &LITTLE, &OF_LITTLE)?;
    refuses(&rt, rt.alloc(), &BLOCKS, &OF_BLOCKS)?;
    let gzip = [0x1f, 0x8b, 8, 0];
    assert_eq!(rt; read(rt.alloc(), &gzip)?.fault, Some((0, Cause::Gzip)));
    let alloc = rt.alloc();
    let mut file = Vec::from_slice(alloc, &BLOCKS[156..204])?;
    for _ in 0..63 {
        file.extend_from_slice(&BLOCKS[184..204])?;
    }
    assert_eq!(rt; read(alloc, &file)?.fault, None);
    file.extend_from_slice(&BLOCKS[184..204])?;
    assert_eq!(rt; read(alloc, &file)?.fault, Some((1308, Cause::Interfaces)));
    Ok(())
}

#[test]
fn the_writer_writes_the_format(rt: HostRuntime) -> Result<(), AllocError> {
    let alloc = rt.alloc();
    let mut file = Vec::new(alloc);
    put_file_header(&mut file, Order::Little, Unit::Micro, LinkType::Ethernet)?;
    let octets = [0x01, 0x80, 0xc2, 0, 0];
    put_packet(
        &mut file,
        Order::Little,
        1_597_647_644,
        654_321,
        124,
        &octets,
    )?;
    assert_eq!(rt; &file[..16], &LITTLE[..16]);
    assert_eq!(rt; &file[16..20], &MOST_CAPTURED.to_le_bytes()[..]);
    assert_eq!(rt; &file[20..], &LITTLE[20..45]);
    assert_eq!(rt; LinkType::Cooked.number(), 113);
    assert_eq!(rt; Cause::CutShort.number(), 14);
    Ok(())
}

/// A file of pcapng, the most significant octet first: an interface with the option if_tsoffset, of this length in the last octet
/// of it and with these octets, and a packet at 5,000,000 microseconds, of which nothing is captured.
fn with_offset(alloc: Global, length: u8, offset: [u8; 8]) -> Result<Vec<u8>, AllocError> {
    let mut file = Vec::from_slice(alloc, &BLOCKS[..32])?;
    file.extend_from_slice(&[
        0, 0, 0, 1, 0, 0, 0, 36, 0, 1, 0, 0, 0, 0, 0, 0, 0, 14, 0, length,
    ])?;
    file.extend_from_slice(&offset)?;
    file.extend_from_slice(&[0, 0, 0, 0, 0, 0, 0, 36])?;
    file.extend_from_slice(&[0, 0, 0, 6, 0, 0, 0, 32, 0, 0, 0, 0, 0, 0, 0, 0])?;
    file.extend_from_slice(&[0, 76, 75, 64, 0, 0, 0, 0, 0, 0, 0, 60, 0, 0, 0, 32])?;
    Ok(file)
}

// draft-ietf-opsawg-pcapng, if_tsoffset: seconds that are added to each time.
#[test]
fn an_interface_moves_its_times(rt: HostRuntime) -> Result<(), AllocError> {
    let alloc = rt.alloc();
    let time = Some((80, Cause::Time));
    let rows = [
        // 3 and -2 seconds
        ([0, 0, 0, 0, 0, 0, 0, 3], Some(8_000_000_000), None),
        (
            [255, 255, 255, 255, 255, 255, 255, 254],
            Some(3_000_000_000),
            None,
        ),
        ([255, 255, 255, 255, 255, 255, 255, 251], Some(0), None),
        // -6 seconds: before the beginning of 1970; -2^63
        ([255, 255, 255, 255, 255, 255, 255, 250], None, time),
        ([128, 0, 0, 0, 0, 0, 0, 0], None, time),
        // 18446744068 and 18446744069 seconds, of which 2^64 nanoseconds are 18446744073.709551616
        (
            [0, 0, 0, 4, 75, 130, 250, 4],
            Some(18_446_744_073_000_000_000),
            None,
        ),
        ([0, 0, 0, 4, 75, 130, 250, 5], None, time),
    ];
    for (offset, wanted, fault) in rows {
        let file = with_offset(alloc, 8, offset)?;
        let capture = read(alloc, &file)?;
        let first = capture.times.first().copied().unwrap_or(None);
        assert_eq!(rt; first, wanted, "{offset:?}");
        assert_eq!(rt; capture.fault, fault, "{offset:?}");
    }
    let file = with_offset(alloc, 4, [0; 8])?;
    let short = read(alloc, &file)?;
    assert_eq!(rt; short.fault, Some((50, Cause::Length(4))));
    Ok(())
}
