use crate::links::frames::{FAST, UP, a_to_b, at, each_at, observed, on, shows};
use findings::{Findings, LinkEnd, MOST_ENDS, Rule, What};
use slowpdu::{Marker, MarkerKind, WireFault};
use std::process::Abort;

// 6.4.2.2: the source is the individual address of the port; the first bit of a group's address on the wire is 1.
#[test]
fn a_source_is_no_individual_address(rt: HostRuntime) {
    let mut frame = at(0, a_to_b(FAST, FAST));
    let rows = [
        ([1, 0, 0x5e, 0, 0, 9], true),
        ([0x33, 0x33, 0, 0, 0, 1], true),
        ([0xff; 6], true),
        ([0; 6], false),
        ([2, 1, 1, 1, 1, 1], false),
        ([0, 0, 0, 0, 0, 7], false),
        ([0xfe, 0xff, 0xff, 0xff, 0xff, 0xff], false),
    ];
    for (source, is_group) in rows {
        frame.source = source;
        if is_group || source == [0; 6] {
            shows(&rt, &[frame, frame], 1000, &[(25, 1)]);
        } else {
            shows(&rt, &[frame, frame], 1000, &[]);
        }
    }
}

#[test]
fn frames_are_not_as_the_standard_has_them(rt: HostRuntime) {
    // Each has one frame of system A.
    let frame = at(0, a_to_b(FAST, FAST));
    let mut other = frame;
    other.version = 2;
    shows(&rt, &[frame, other], 1000, &[(6, 2)]);
    let mut other = frame;
    other.length = 123;
    shows(&rt, &[frame, other], 1000, &[(7, 2)]);
    other.length = 128;
    shows(&rt, &[frame, other], 1000, &[]);
    let mut other = frame;
    other.reserved = true;
    shows(&rt, &[frame, other, other], 1000, &[(8, 2)]);
    let mut other = frame;
    other.destination = Some([0x01, 0x80, 0xc2, 0, 0, 3]);
    shows(&rt, &[frame, other], 1000, &[(9, 2)]);
    other.destination = None;
    shows(&rt, &[frame, other], 1000, &[]);
    let mut other = frame;
    other.tags = 1;
    shows(&rt, &[frame, other], 1000, &[(10, 2)]);
    let mut other = frame;
    other.other_types = true;
    shows(&rt, &[frame, other], 1000, &[(24, 2)]);
    // Each frame of one end breaks another rule.
    let said = a_to_b(UP, UP);
    let mut frames = each_at([0, 1000, 2000, 3000, 4000, 5000, 6000], said);
    frames[0].tags = 2;
    frames[1].other_types = true;
    frames[2].destination = Some([0x01, 0x80, 0xc2, 0, 0, 0x0e]);
    frames[3].reserved = true;
    frames[4].length = 60;
    frames[5].version = 3;
    let expected = [(6, 6), (7, 5), (8, 4), (9, 3), (10, 1), (24, 2)];
    shows(&rt, &frames, 7000, &expected);
}

#[test]
fn an_end_is_named_by_what_it_sends(rt: HostRuntime) {
    let lacpdu = at(0, a_to_b(FAST, FAST));
    let system = lacpdu.source;
    let mut marker = lacpdu;
    marker.what = What::Marker(Marker {
        kind: MarkerKind::Information,
        port: 7,
        system,
        id: 1,
    });
    let mut response = lacpdu;
    response.what = What::Marker(Marker {
        kind: MarkerKind::Response,
        port: 7,
        system,
        id: 1,
    });
    let mut refused = lacpdu;
    refused.what = What::Refused(WireFault::Short { have: 46 });
    refused.version = 9;
    refused.reserved = true;
    refused.other_types = true;
    let end = |port: Option<u16>| LinkEnd {
        interface: 0,
        source: [2, 0, 0, 0, 0, 0xa],
        port,
    };
    let elsewhere = on(1, lacpdu);
    let findings = observed(&[lacpdu, marker, lacpdu, response, elsewhere]);
    assert_eq!(rt; findings.count(), 4);
    assert_eq!(rt; findings.end(0), Some(end(Some(1))));
    assert_eq!(rt; findings.end(1), Some(end(Some(7))));
    assert_eq!(rt; findings.end(2), Some(end(None)));
    assert!(rt; findings.end(3).is_some());
    assert_eq!(rt; findings.end(4), None);
    assert_eq!(rt; observed(&[refused]).end(0), Some(end(None)));
    // What a refused payload has as version and reserved octets means nothing.
    shows(&rt, &[refused], 1000, &[]);
}

#[test]
fn ends_after_the_first_64_are_left_out(rt: HostRuntime) {
    let mut findings = Findings::new();
    for port in 1..=66 {
        let mut said = a_to_b(FAST, FAST);
        said.actor.port.number = port;
        let mut frame = at(0, said);
        frame.tags = 1;
        findings.observe(&frame);
    }
    assert_eq!(rt; MOST_ENDS, 64);
    assert_eq!(rt; findings.count(), 64);
    assert_eq!(rt; findings.left_out(), 2);
    // one more frame of each of the first end and the last
    for port in [1, 66] {
        let mut said = a_to_b(FAST, FAST);
        said.actor.port.number = port;
        findings.observe(&at(10, said));
    }
    assert_eq!(rt; findings.count(), 64);
    assert_eq!(rt; findings.left_out(), 3);
    let ports = [(0, 1), (1, 2), (63, 64)];
    for (index, port) in ports {
        let is_there = match findings.end(index) {
            Some(end) => end.port == Some(port),
            None => false,
        };
        assert!(rt; is_there);
    }
    assert!(rt; findings.finding(63, Rule::Tag, 0).is_some());
    assert!(rt; findings.finding(64, Rule::Tag, 0).is_none());
}

#[test]
fn rules_have_numbers_from_1_and_texts(rt: HostRuntime) {
    let mut number: u8 = 0;
    for rule in Rule::ALL {
        number = number.wrapping_add(1);
        assert_eq!(rt; rule.number(), number);
        assert!(rt; !rule.name().is_empty());
        assert!(rt; rule.clause().starts_with("6."));
        assert!(rt; rule.advice().ends_with("."));
        // They stand between quotation marks in a record.
        for text in [rule.name(), rule.clause(), rule.advice()] {
            assert!(rt; !text.contains("\""));
            assert!(rt; !text.contains("\\"));
        }
    }
    assert_eq!(rt; Rule::Rate.name(), "more than three LACPDUs in a second");
    assert_eq!(rt; Rule::Rate.clause(), "6.4.16");
    assert_eq!(rt;
        Rule::Passive.advice(),
        "Set LACP to active at one end at least."
    );
}
