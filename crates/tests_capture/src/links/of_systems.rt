use crate::links::frames::{A, B, FAST, Said, UP, a_to_b, at, info, on, said_by, shows};
use findings::SlowFrame;
use lagtypes::Key;
use slowpdu::Info;
use std::process::Abort;

/// Active, Short Timeout, aggregatable: a port that joins no aggregator.
const APART: u8 = 0x07;

/// A port of system A to a port of system A: their numbers.
fn a_to_a(port: u16, partner: u16) -> Said {
    let mut said = a_to_b(APART, APART);
    said.partner = info(A, APART);
    said.actor.port.number = port;
    said.partner.port.number = partner;
    said
}

#[test]
fn ports_of_one_system_hear_each_other_or_themselves(rt: HostRuntime) {
    // 6.3.2: a System Identifier is of one system. Two ports of A are on one cable.
    let frames = [
        at(0, a_to_a(1, 2)),
        at(500, a_to_a(2, 1)),
        at(1000, a_to_a(1, 2)),
        at(1500, a_to_a(2, 1)),
    ];
    shows(&rt, &frames, 2000, &[(30, 1), (30, 2)]);
    // 6.3.6: they have the keys 1 and 2.
    let (mut one, mut two) = (a_to_a(1, 2), a_to_a(2, 1));
    one.partner.key = Key(2);
    two.actor.key = Key(2);
    let frames = [
        at(0, one),
        at(500, two),
        at(1000, one),
        at(1500, two),
        at(2000, one),
        at(2500, two),
    ];
    shows(&rt, &frames, 3000, &[(30, 1), (30, 2)]);
    // A port that hears what it sends names itself once it does. No other end is heard on its interface.
    let nobody = said_by(info(A, 0x47), Info::default());
    let itself = a_to_a(1, 1);
    let frames = [
        at(0, nobody),
        at(1000, itself),
        at(2000, itself),
        at(3001, itself),
    ];
    shows(&rt, &frames[..1], 500, &[]);
    shows(&rt, &frames[..3], 3000, &[(30, 2)]);
    // Its LACPDUs come back: they go in both directions.
    shows(&rt, &frames, 3500, &[(30, 2)]);
}

// 6.4.14: A's port 1 leads to B, and its port 2, with the same key, hears itself.
#[test]
fn a_port_of_a_bundle_hears_itself(rt: HostRuntime) {
    let first = |milliseconds: u64| at(milliseconds, a_to_b(UP, UP));
    let second = |milliseconds: u64| {
        let mut said = a_to_b(0x05, 0x05);
        said.actor.port.number = 2;
        said.partner = said.actor;
        on(1, at(milliseconds, said))
    };
    let frames = [
        first(0),
        second(500),
        first(2000),
        second(2500),
        first(8001),
        second(8501),
    ];
    shows(&rt, &frames[..4], 3000, &[(30, 2)]);
    shows(&rt, &frames, 9000, &[(29, 5), (29, 6), (30, 2)]);
}

// Two machines have one System Identifier: each names the other, and itself.
#[test]
fn two_machines_have_one_system_identifier(rt: HostRuntime) {
    let copy = |milliseconds: u64, said: Said| {
        let mut frame = at(milliseconds, said);
        frame.source = [2, 0, 0, 0, 0, B];
        frame
    };
    let frames = |one: Said, other: Said| {
        [
            at(0, one),
            copy(500, other),
            at(1000, one),
            copy(1500, other),
        ]
    };
    let apart = frames(a_to_a(1, 2), a_to_a(2, 1));
    shows(&rt, &apart, 2000, &[(30, 1), (30, 2)]);
    // Their ports have one number, too: each names the partner that the other one names.
    let alike = frames(a_to_a(1, 1), a_to_a(1, 1));
    let expected = [(16, 3), (30, 1), (16, 4), (30, 2)];
    shows(&rt, &alike, 2000, &expected);
}

#[test]
fn systems_are_told_apart_by_priority_and_address(rt: HostRuntime) {
    // 6.3.2: a System Identifier is a priority and a MAC address.
    let frames = |said: Said| [at(0, said), at(1000, said)];
    let mut said = a_to_a(1, 2);
    said.partner.system.priority = 1;
    shows(&rt, &frames(said), 2000, &[]);
    let mut said = a_to_a(1, 2);
    said.actor.system.priority = 1;
    shows(&rt, &frames(said), 2000, &[]);
    shows(&rt, &frames(a_to_b(FAST, FAST)), 2000, &[]);
    // What a Defaulted or Expired end names is not what it hears.
    for state in [0x47, 0x87, 0xc7] {
        let mut said = a_to_a(1, 2);
        said.actor.state = info(A, state).state;
        let frames: [SlowFrame; 2] = [at(0, said), at(1000, said)];
        shows(&rt, &frames, 2000, &[]);
    }
    // Of the Actor's state only Defaulted and Expired count, of the Partner's nothing.
    for (own, seen) in [(0x00, 0xc1), (FAST, 0xff)] {
        let mut said = a_to_a(1, 2);
        said.actor.state = info(A, own).state;
        said.partner.state = info(A, seen).state;
        shows(&rt, &[at(0, said)], 500, &[(30, 1)]);
    }
}
