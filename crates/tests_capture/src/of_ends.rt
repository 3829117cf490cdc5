use crate::given::{lacpdu, said};
use lagtool_capture::Gaps;
use lagtypes::Key;
use slowpdu::Info;
use std::alloc::{AllocError, Global};
use std::process::Abort;
use std::test::Fail;

/// The median of these times in milliseconds, in tenths of a second.
fn median_of(milliseconds: &[u64]) -> Option<usize> {
    let mut gaps = Gaps::none();
    for time in milliseconds {
        gaps.add(Some(time.saturating_mul(1_000_000)));
        gaps.add(None);
    }
    gaps.median()
}

#[test]
fn medians_are_cut_to_a_tenth_and_the_lower_of_two(rt: HostRuntime) {
    let rows: [(&[u64], usize); 18] = [
        (&[0], 0),
        (&[99], 0),
        (&[100], 1),
        (&[190], 1),
        (&[1_000], 10),
        (&[1_290], 12),
        (&[30_049], 300),
        (&[99_990], 999),
        (&[100_000], 1000),
        (&[7_200_000], 1000),
        (&[1_000, 3_000], 10),
        (&[3_000, 1_000], 10),
        (&[1_000, 1_000, 3_000, 3_000], 10),
        (&[9_000, 100, 3_000, 2_000], 20),
        (&[5_000, 100, 2_000], 20),
        (&[100, 100, 100, 90_000, 90_000], 1),
        (&[100, 100, 90_000, 90_000, 90_000], 900),
        (&[200_000, 300_000, 50], 1000),
    ];
    assert_eq!(rt; median_of(&[]), None);
    for (times, tenths) in rows {
        assert_eq!(rt; median_of(times), Some(tenths), "{times:?}");
    }
}

/// A port of the system with this number: active, aggregatable, synchronized, collecting, distributing.
fn end(system: u8, port: u16) -> Info {
    crate::given::end(system, 1, port, 0x3d)
}

/// An LACPDU of a capture: its interface, its Actor and its Partner.
type Told = (u8, Info, Info);

/// A section of pcapng with two interfaces of Ethernet, the most significant octet first.
const SECTION: [u8; 68] = [
    // a section, 28 octets, version 1.0, its length not told
    0x0a, 0x0d, 0x0d, 0x0a, 0, 0, 0, 28, 0x1a, 0x2b, 0x3c, 0x4d, 0, 1, 0, 0, 0xff, 0xff, 0xff,
    0xff, 0xff, 0xff, 0xff, 0xff, 0, 0, 0, 28,
    // two interfaces, 20 octets each, with no limit and no options
    0, 0, 0, 1, 0, 0, 0, 20, 0, 1, 0, 0, 0, 0, 0, 0, 0, 0, 0, 20, 0, 0, 0, 1, 0, 0, 0, 20, 0, 1, 0,
    0, 0, 0, 0, 0, 0, 0, 0, 20,
];

/// A capture of these LACPDUs, all at one time.
fn capture(alloc: Global, told: &[Told]) -> Result<Vec<u8>, AllocError> {
    let mut file = Vec::from_slice(alloc, &SECTION)?;
    for (interface, actor, partner) in told {
        // an enhanced packet block of 156 octets, with 124 octets of 124
        file.extend_from_slice(&[0, 0, 0, 6, 0, 0, 0, 156, 0, 0, 0, *interface])?;
        file.extend_from_slice(&[0, 0, 0, 0, 0, 0, 0, 1, 0, 0, 0, 124, 0, 0, 0, 124])?;
        file.extend_from_slice(&lacpdu(actor.system.mac, *actor, *partner))?;
        file.extend_from_slice(&[0, 0, 0, 156])?;
    }
    Ok(file)
}

/// Whether the explanation of these LACPDUs has each of these texts.
fn tells(alloc: Global, told: &[Told], texts: &[&str]) -> Result<bool, AllocError> {
    let (answer, report) = said(alloc, &capture(alloc, told)?)?;
    let mut has_all = answer.is_ok();
    for text in texts {
        has_all = has_all && report.as_str().contains(*text);
    }
    Ok(has_all)
}

#[test]
fn an_end_is_named_on_its_interface_and_by_its_port(rt: HostRuntime) -> Result<(), Fail> {
    let mut keyed = end(2, 2);
    keyed.key = Key(2);
    let told = [
        // The first that names port 1 of system 1 is on another interface than the second, and has the port number of that one.
        (1, end(3, 2), end(1, 1)),
        (0, end(1, 1), end(2, 2)),
        (0, end(2, 2), end(1, 1)),
        (1, end(1, 1), keyed),
    ];
    let texts = [
        "end 02-00-00-00-00-01 port 1 is P2 names P3 named by 02-00-00-00-00-02 port 2 lacpdus 1",
        "end 02-00-00-00-00-02 port 2 is P3 names P2 named by 02-00-00-00-00-01 port 1 lacpdus 1",
        "end 02-00-00-00-00-01 interface 1 port 1 is P2 names P4 named by 02-00-00-00-00-03 interface 1 port 2 lacpdus 1",
        "end 02-00-00-00-00-03 interface 1 port 2 is P1 names P2 lacpdus 1",
    ];
    assert!(rt; tells(rt.alloc(), &told, &texts)?);
    let told = [
        (0, end(2, 4), end(1, 2)),
        (0, end(2, 3), end(1, 1)),
        (0, end(1, 1), end(2, 3)),
        (0, end(1, 2), end(2, 4)),
    ];
    let texts = [
        "end 02-00-00-00-00-02 port 4 is P1 names P2 named by 02-00-00-00-00-01 port 2 lacpdus 1",
        "end 02-00-00-00-00-02 port 3 is P3 names P4 named by 02-00-00-00-00-01 port 1 lacpdus 1",
        "end 02-00-00-00-00-01 port 1 is P4 names P3 named by 02-00-00-00-00-02 port 3 lacpdus 1",
        "end 02-00-00-00-00-01 port 2 is P2 names P1 named by 02-00-00-00-00-02 port 4 lacpdus 1",
    ];
    assert!(rt; tells(rt.alloc(), &told, &texts)?);
    Ok(())
}
