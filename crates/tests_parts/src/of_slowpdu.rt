ghost use Rattle.std.specs.Prelude.{◌+◌, ◌≤◌, length};

use crate::comparing::{prints, same, same_in_row};
use bitflags::Flags;
use lagtypes::{Key, Party, PortId, State, SystemId};
use slowpdu::{
    Info, Kind, Lacpdu, Marker, MarkerKind, Pdu, WireFault, classify, decode, encode_then_decode,
    frame, respond,
};
use std::alloc::{AllocError, Global};
use std::process::Abort;

/// Writes octets into a payload, from this offset on.
fn put_octets(payload: &mut [u8], offset: usize, octets: &[u8])
    requires { offset + length octets.now ≤ length payload.old }
{
    payload[offset..offset + octets.len()].copy_from_slice(octets);
}

/// The payload of an LACPDU of system 32768/02-00-00-00-00-01, key 1, port 128/1, state c7; its partner is unknown and
/// has the state 02.
fn lacpdu_payload() -> [u8; 110] {
    let mut payload = [0; 110];
    put_octets(&mut payload, 0, &[1, 1, 1, 20, 0x80, 0, 2, 0, 0, 0, 0, 1]);
    put_octets(&mut payload, 12, &[0, 1, 0, 0x80, 0, 1, 0xc7]);
    put_octets(&mut payload, 22, &[2, 20]);
    put_octets(&mut payload, 38, &[2, 0, 0, 0, 3, 16]);
    payload
}

/// The LACPDU in that payload.
fn lacpdu() -> Lacpdu {
    let actor = Info {
        system: SystemId {
            priority: 32768,
            mac: [2, 0, 0, 0, 0, 1],
        },
        key: Key(1),
        port: PortId {
            priority: 128,
            number: 1,
        },
        state: State::from_bits_retain(0xc7),
    };
    let partner = Info {
        state: State::from_bits_retain(0x02),
        ..Info::default()
    };
    Lacpdu {
        actor,
        partner,
        max_delay: 0,
    }
}

/// The payload of a marker of port 1 of that system, with the highest identifier.
fn marker_payload() -> [u8; 110] {
    let mut payload = [0; 110];
    put_octets(
        &mut payload,
        0,
        &[2, 1, 1, 16, 0, 1, 2, 0, 0, 0, 0, 1, 255, 255, 255, 255],
    );
    payload
}

/// The Marker PDU in that payload.
fn marker() -> Marker {
    Marker {
        kind: MarkerKind::Information,
        port: 1,
        system: [2, 0, 0, 0, 0, 1],
        id: 4294967295,
    }
}

/// The same LACPDU as a version 2 might send it: with other TLV types, ones in every reserved octet, and more octets at
/// the end.
fn version_2() -> [u8; 150] {
    let mut payload = [0xff; 150];
    put_octets(&mut payload, 0, &lacpdu_payload());
    put_octets(&mut payload, 1, &[2, 9]);
    put_octets(&mut payload, 19, &[255, 255, 255, 9]);
    put_octets(&mut payload, 39, &[255, 255, 255, 9]);
    put_octets(&mut payload, 46, &[255; 64]);
    payload
}

/// The payload of that marker, with other pad octets.
fn padded_marker() -> [u8; 110] {
    let mut payload = marker_payload();
    put_octets(&mut payload, 16, &[0xbe, 0xef]);
    payload
}

/// The same marker of version 2, with ones in the pad, the Terminator and every reserved octet.
fn marker_of_version_2() -> [u8; 110] {
    let mut payload = [0xff; 110];
    put_octets(
        &mut payload,
        0,
        &[2, 2, 1, 16, 0, 1, 2, 0, 0, 0, 0, 1, 255, 255, 255, 255],
    );
    payload
}

/// The first octets, this many.
fn first(octets: &[u8], count: usize) -> &[u8] {
    octets.get(..count).unwrap_or(octets)
}

#[test]
fn payloads_are_read_whatever_the_other_octets_are(rt: HostRuntime) {
    let longer = version_2();
    let rows: [(&[u8], Pdu); 6] = [
        (&lacpdu_payload(), Pdu::Lacpdu(lacpdu())),
        (&longer, Pdu::Lacpdu(lacpdu())),
        (first(&longer, 110), Pdu::Lacpdu(lacpdu())),
        (&marker_payload(), Pdu::Marker(marker())),
        (&padded_marker(), Pdu::Marker(marker())),
        (&marker_of_version_2(), Pdu::Marker(marker())),
    ];
    for (place, (payload, pdu)) in rows.iter().enumerate() {
        same_in_row(&rt, place, &decode(*payload), &Ok(*pdu));
    }
}

/// More octets than any length field has room for.
const MANY: usize = 70_000;

/// These octets, and ones behind them.
fn padded(alloc: Global, octets: &[u8]) -> Result<Vec<u8>, AllocError> {
    let mut all = Vec::new(alloc);
    all.extend_from_slice(octets)?;
    all.resize(MANY, 0xff)?;
    Ok(all)
}

#[test]
fn nothing_is_too_long(rt: HostRuntime) -> Result<(), AllocError> {
    let payload = padded(rt.alloc(), &lacpdu_payload())?;
    same(&rt, "decode", &decode(&payload), &Ok(Pdu::Lacpdu(lacpdu())));
    let control = padded(rt.alloc(), &frame([2, 0, 0, 0, 0, 3], &marker_payload()))?;
    let behind = control.as_slice().get(14..).unwrap_or(&[]);
    same(
        &rt,
        "a control frame",
        &classify(&control),
        &Kind::Control(behind),
    );
    let data = padded(rt.alloc(), &[])?;
    same(&rt, "a data frame", &classify(&data), &Kind::Data);
    Ok(())
}

/// These octets with some of them changed.
fn changed<const N: usize>(octets: [u8; N], changes: &[(usize, u8)]) -> [u8; N] {
    let mut all = octets;
    for (at, octet) in changes {
        if let Some(there) = all.get_mut(*at) {
            *there = *octet;
        }
    }
    all
}

/// This many of the first octets are refused as too few.
fn is_short(rt: &impl Abort, payload: &[u8], have: usize) {
    let short = WireFault::Short { have };
    same(rt, "decode", &decode(first(payload, have)), &Err(short));
    same(rt, "number", &short.number(), &1);
}

#[test]
fn payloads_are_short_whatever_stands_there(rt: HostRuntime) {
    is_short(&rt, &lacpdu_payload(), 0);
    is_short(&rt, &lacpdu_payload(), 109);
    let mut bad_length = lacpdu_payload();
    put_octets(&mut bad_length, 3, &[19]);
    is_short(&rt, &[3; 110], 109);
    is_short(&rt, &bad_length, 109);
}

/// What refusals print.
const REFUSALS: &str = "fewer than 110 octets: 109
octet 0 names neither LACP (1) nor the Marker protocol (2): 3
the length field at 43 is wrong: 15
octet 2 of a Marker PDU is neither 1 nor 2: 255";

#[test]
fn payloads_are_refused_for_the_first_cause_and_say_it(rt: HostRuntime) -> Result<(), AllocError> {
    let lacpdu = lacpdu_payload();
    let marker = marker_payload();
    let bad_length = |at, found| WireFault::BadLength { at, found };
    let rows = [
        (lacpdu, [(0, 3), (3, 0)], WireFault::OtherSubtype(3), 2),
        (lacpdu, [(3, 19), (23, 18)], bad_length(3, 19), 3),
        (lacpdu, [(43, 15), (23, 19)], bad_length(23, 19), 3),
        (lacpdu, [(43, 15), (43, 15)], bad_length(43, 15), 3),
        (marker, [(2, 3), (3, 15)], bad_length(3, 15), 3),
        (marker, [(2, 3), (2, 3)], WireFault::MarkerTlv(3), 4),
    ];
    for (place, (payload, changes, fault, number)) in rows.iter().enumerate() {
        let answer = decode(&changed(*payload, changes));
        same_in_row(&rt, place, &answer, &Err(*fault));
        same_in_row(&rt, place, &fault.number(), number);
    }
    let faults = [
        WireFault::Short { have: 109 },
        WireFault::OtherSubtype(3),
        WireFault::BadLength { at: 43, found: 15 },
        WireFault::MarkerTlv(255),
    ];
    for (fault, text) in faults.iter().zip(REFUSALS.lines()) {
        prints(&rt, rt.alloc(), fault, text)?;
    }
    Ok(())
}

#[test]
fn parties_are_what_an_end_names(rt: HostRuntime) {
    let rows = [(0x1e, true), (0x04, true), (0xfb, false), (0x00, false)];
    for (place, (octet, aggregatable)) in rows.iter().enumerate() {
        let end = Info {
            state: State::from_bits_retain(*octet),
            ..each_field(0x10)
        };
        let party = Party {
            system: SystemId {
                priority: 0x1011,
                mac: [0x12, 0x13, 0x14, 0x15, 0x16, 0x17],
            },
            key: Key(0x1819),
            port: PortId {
                priority: 0x1a1b,
                number: 0x1c1d,
            },
            aggregatable: *aggregatable,
        };
        same_in_row(&rt, place, &end.party(), &party);
    }
}

#[test]
fn pdus_are_written_as_read_and_markers_answered_once(rt: HostRuntime) {
    same(&rt, "the LACPDU", &lacpdu().encode(), &lacpdu_payload());
    same(&rt, "the marker", &marker().encode(), &marker_payload());
    let read = Pdu::Lacpdu(lacpdu());
    same(&rt, "read back", &encode_then_decode(&read), &Ok(read));
    let read = Pdu::Marker(marker());
    same(&rt, "read back", &encode_then_decode(&read), &Ok(read));
    let response = Marker {
        kind: MarkerKind::Response,
        ..marker()
    };
    same(&rt, "to a marker", &respond(&marker()), &Some(response));
    same(&rt, "to a response", &respond(&response), &None);
}

fn is_of_kind(rt: &impl Abort, octets: &[u8], kind: Kind<'_>) {
    same(rt, "classify", &classify(octets), &kind);
}

#[test]
fn frames_are_told_apart_by_their_type(rt: HostRuntime) {
    let payload = marker_payload();
    let sent = frame([2, 0, 0, 0, 0, 3], &payload);
    let header = [0x01, 0x80, 0xc2, 0, 0, 2, 2, 0, 0, 0, 0, 3, 0x88, 0x09];
    let (front, rest) = (&sent[..14], &sent[14..]);
    same(&rt, "the header", &front, &header.as_slice());
    same(&rt, "the payload", &rest, &payload.as_slice());
    is_of_kind(&rt, &sent, Kind::Control(&payload));
    is_of_kind(&rt, front, Kind::Control(&[]));
    is_of_kind(&rt, &sent[..13], Kind::TooShort);
    is_of_kind(&rt, &changed(sent, &[(0, 2)]), Kind::Control(&payload));
    is_of_kind(&rt, &changed(sent, &[(12, 8)]), Kind::Data);
    is_of_kind(&rt, &changed(sent, &[(12, 0x87)]), Kind::Data);
    is_of_kind(&rt, &changed(sent, &[(13, 0xcc)]), Kind::Data);
}

/// An LACPDU in which no two fields are equal.
const EACH_FIELD: [u8; 46] = [
    1, 1, 1, 20, 0x10, 0x11, 0x12, 0x13, 0x14, 0x15, 0x16, 0x17, 0x18, 0x19, 0x1a, 0x1b, 0x1c,
    0x1d, 0x1e, 0, 0, 0, 2, 20, 0x20, 0x21, 0x22, 0x23, 0x24, 0x25, 0x26, 0x27, 0x28, 0x29, 0x2a,
    0x2b, 0x2c, 0x2d, 0x2e, 0, 0, 0, 3, 16, 0x30, 0x31,
];

/// The number in two octets, of which the second is one more than the first.
fn word(first: u8, place: u8) -> u16 {
    let high = first.wrapping_add(place);
    u16::from_be_bytes([high, high.wrapping_add(1)])
}

/// The participant information in 15 octets that rise by one from this first one.
fn each_field(first: u8) -> Info {
    Info {
        system: SystemId {
            priority: word(first, 0),
            mac: [
                first.wrapping_add(2),
                first.wrapping_add(3),
                first.wrapping_add(4),
                first.wrapping_add(5),
                first.wrapping_add(6),
                first.wrapping_add(7),
            ],
        },
        key: Key(word(first, 8)),
        port: PortId {
            priority: word(first, 10),
            number: word(first, 12),
        },
        state: State::from_bits_retain(first.wrapping_add(14)),
    }
}

/// A response in which no two fields are equal.
const EACH_FIELD_OF_A_MARKER: [u8; 16] = [
    2, 1, 2, 16, 0x40, 0x41, 0x42, 0x43, 0x44, 0x45, 0x46, 0x47, 0x48, 0x49, 0x4a, 0x4b,
];

#[test]
fn each_field_of_both_pdus_has_its_place(rt: HostRuntime) {
    let mut payload = [0; 110];
    put_octets(&mut payload, 0, &EACH_FIELD);
    let said = Lacpdu {
        actor: each_field(0x10),
        partner: each_field(0x20),
        max_delay: 0x3031,
    };
    same(&rt, "decode", &decode(&payload), &Ok(Pdu::Lacpdu(said)));
    same(&rt, "encode", &said.encode(), &payload);
    let mut payload = [0; 110];
    put_octets(&mut payload, 0, &EACH_FIELD_OF_A_MARKER);
    let said = Marker {
        kind: MarkerKind::Response,
        port: 0x4041,
        system: [0x42, 0x43, 0x44, 0x45, 0x46, 0x47],
        id: 0x4849_4a4b,
    };
    same(&rt, "decode", &decode(&payload), &Ok(Pdu::Marker(said)));
    same(&rt, "encode", &said.encode(), &payload);
}
