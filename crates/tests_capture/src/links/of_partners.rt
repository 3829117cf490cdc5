use crate::links::frames::{
    A, B, C, FAST, Said, UP, a_to_b, at, b_to_a, info, observed, on, said_by, shows,
};
use findings::{LinkEnd, Rule, SlowFrame};
use lagtypes::Key;
use slowpdu::Info;
use std::process::Abort;

// 6.4.9, recordPDU: the Partner is who sent the last LACPDU. B answers A, and A goes on to name another.
#[test]
fn who_answers_is_not_who_is_named(rt: HostRuntime) {
    let answer = at(500, b_to_a(FAST, FAST));
    let mut said = a_to_b(FAST, FAST);
    said.partner = info(C, FAST);
    let frames = [at(0, said), answer, at(1000, said), at(2000, said)];
    shows(&rt, &frames, 3000, &[(2, 4)]);
    // The first one may have been on its way.
    shows(&rt, &frames[..3], 3000, &[]);
    let mut said = a_to_b(FAST, FAST);
    said.partner.port.number = 2;
    let frames = [at(0, said), answer, at(1000, said), at(2000, said)];
    shows(&rt, &frames, 3000, &[(3, 4)]);
    shows(&rt, &frames[..3], 3000, &[]);
    let mut said = a_to_b(FAST, FAST);
    said.partner.key = Key(2);
    let frames = [at(0, said), answer, at(1000, said), at(2000, said)];
    shows(&rt, &frames, 3000, &[(4, 4)]);
    shows(&rt, &frames[..3], 3000, &[]);
    // An end that is Defaulted or Expired names a partner of former times.
    said.actor = info(A, 0x87);
    let frames = [at(0, said), answer, at(1000, said), at(2000, said)];
    shows(&rt, &frames, 3000, &[]);
}

#[test]
fn the_latest_answer_counts_for_90_seconds(rt: HostRuntime) {
    // B changes its key from 1 to 2 and says so.
    let said = a_to_b(FAST, FAST);
    let answer = b_to_a(FAST, FAST);
    let mut other_said = said;
    other_said.partner.key = Key(2);
    let mut other_answer = answer;
    other_answer.actor.key = Key(2);
    let before = [at(0, said), at(500, answer), at(900, other_answer)];
    let frames = |third: Said, fourth: Said| {
        [
            before[0],
            before[1],
            before[2],
            at(1000, third),
            at(2000, fourth),
        ]
    };
    shows(&rt, &frames(other_said, other_said), 3000, &[]);
    // one LACPDU was on its way
    shows(&rt, &frames(said, other_said), 3000, &[]);
    shows(&rt, &frames(said, said), 3000, &[(4, 5)]);
    // 6.4.4: Long_Timeout_Time is 90 seconds. B answers 500 milliseconds after the beginning and is not heard any more.
    let named = a_to_b(UP, UP);
    let mut said = named;
    said.partner = info(C, UP);
    let frames = |last: u64| {
        [
            at(0, named),
            at(500, b_to_a(UP, UP)),
            at(30_000, named),
            at(60_000, named),
            at(90_400, said),
            at(last, said),
        ]
    };
    shows(&rt, &frames(90_500), 90_500, &[(2, 6)]);
    shows(&rt, &frames(90_501), 90_500, &[]);
}

#[test]
fn the_partner_is_the_end_that_answers(rt: HostRuntime) {
    let mut said = a_to_b(FAST, FAST);
    said.partner = info(C, FAST);
    // Another link on the same interface comes between: C and a system D.
    let other = said_by(info(C, FAST), info(0xd, FAST));
    let frames = [
        at(0, said),
        at(100, other),
        at(500, b_to_a(FAST, FAST)),
        at(600, other),
        at(1000, said),
        at(2000, said),
    ];
    let shown = match observed(&frames).finding(0, Rule::System, 0) {
        Some(finding) => Some((finding.end, finding.shown)),
        None => None,
    };
    let end = |system: u8| LinkEnd {
        interface: 0,
        source: [2, 0, 0, 0, 0, system],
        port: Some(1),
    };
    assert!(rt; shown.is_some());
    if let Some((of, shown)) = shown {
        assert_eq!(rt; of, end(A));
        assert_eq!(rt; shown.number, 6);
        assert_eq!(rt; shown.nanoseconds, 1_002_000_000_000);
        assert_eq!(rt; shown.partner, Some(end(B)));
    }
}

#[test]
fn links_cabled_anew_or_in_one_capture_are_not_mixed(rt: HostRuntime) {
    // A is cabled to C, which answers at once.
    let mut said = a_to_b(FAST, FAST);
    said.partner = info(C, FAST);
    let mut answer = b_to_a(FAST, FAST);
    answer.actor = info(C, FAST);
    let frames = |third: u64| {
        [
            at(0, a_to_b(FAST, FAST)),
            at(500, b_to_a(FAST, FAST)),
            at(third, said),
            at(1850, answer),
            at(2600, said),
            at(3500, said),
        ]
    };
    shows(&rt, &frames(1750), 3500, &[]);
    // It is synchronized with C too soon.
    shows(&rt, &frames(1000), 3500, &[(27, 3)]);
    let of = |system: u8, partner: u8| said_by(info(system, FAST), info(partner, FAST));
    let frames = [
        at(0, of(A, B)),
        at(10, of(C, 0xd)),
        at(500, of(B, A)),
        at(510, of(0xd, C)),
        at(1000, of(A, B)),
        at(1010, of(C, 0xd)),
        at(1500, of(B, A)),
        at(1510, of(0xd, C)),
    ];
    shows(&rt, &frames, 3000, &[]);
}

// 6.3.6: a LAG has one partner system. A's port 1 leads to B; its port 2, with the same key, leads to C.
#[test]
fn links_of_one_system_lead_to_two(rt: HostRuntime) {
    let of = |milliseconds: u64, actor: Info, partner: u8| at(
        milliseconds,
        said_by(actor, info(partner, FAST)),
    );
    let port = |system: u8, number: u16, key: u16, state: u8| {
        let mut actor = info(system, state);
        actor.port.number = number;
        actor.key = Key(key);
        actor
    };
    let frames = |one: Info, two: Info, was: u8, is: u8| {
        let first = |milliseconds: u64| of(milliseconds, one, B);
        let second = |milliseconds: u64, partner: u8| on(1, of(milliseconds, two, partner));
        [
            first(0),
            second(500, was),
            first(2000),
            second(2500, was),
            first(4000),
            second(4500, is),
            first(6000),
            second(6500, is),
            first(8000),
            first(8001),
        ]
    };
    let (one, two) = (port(A, 1, 7, UP), port(A, 2, 7, UP));
    let split = frames(one, two, C, C);
    shows(&rt, &split, 8500, &[(29, 10)]);
    shows(&rt, &split[..9], 8500, &[]);
    // Port 2 is cabled to B, too; or leads there from the beginning, as to one system of two switches.
    shows(&rt, &frames(one, two, C, B), 8500, &[]);
    shows(&rt, &frames(one, two, B, B), 8500, &[]);
    // It has a key of its own; it is one of another system.
    shows(&rt, &frames(one, port(A, 2, 9, UP), C, C), 8500, &[]);
    shows(&rt, &frames(one, port(0xd, 2, 7, UP), C, C), 8500, &[]);
    // Either port may not be aggregated.
    let rows = [
        (port(A, 1, 7, 0x39), two, (14, 1)),
        (one, port(A, 2, 7, 0x39), (14, 2)),
        (port(A, 1, 7, 0x7d), two, (12, 9)),
    ];
    for (one, two, expected) in rows {
        shows(&rt, &frames(one, two, C, C), 8500, &[expected]);
    }
    // What port 2 says of C is of former times.
    for state in [0x7d, 0xbd] {
        shows(&rt, &frames(one, port(A, 2, 7, state), C, C), 8500, &[]);
    }
    // Port 2 was heard 90 seconds before the last LACPDU, and longer ago.
    let slow = |last: u64| {
        let mut other = a_to_b(UP, UP);
        other.actor.port.number = 2;
        other.partner = info(C, UP);
        let other = on(1, at(500, other));
        [
            at(0, a_to_b(UP, UP)),
            at(500, b_to_a(UP, UP)),
            other,
            at(60_000, a_to_b(UP, UP)),
            at(last, a_to_b(UP, UP)),
        ]
    };
    shows(&rt, &slow(90_500), 90_500, &[(29, 5)]);
    shows(&rt, &slow(90_501), 90_500, &[]);
}

// 6.4.9: each of three systems records who spoke last. So none of them has the partner of another.
#[test]
fn a_third_system_speaks_on_the_link(rt: HostRuntime) {
    let of = |actor: u8, partner: u8| said_by(info(actor, FAST), info(partner, FAST));
    let frames = [
        at(0, of(A, C)),
        at(300, of(B, A)),
        at(600, of(C, B)),
        at(1000, of(A, C)),
        at(1300, of(B, A)),
        at(1600, of(C, B)),
        at(2000, of(A, C)),
    ];
    // Each names another system than the one that answers it, too.
    shows(&rt, &frames, 3000, &[(2, 7), (26, 7)]);
    shows(&rt, &frames[..6], 3000, &[]);
    // A and B name each other, and C names A, which B does too; or B, which A does too.
    let rows = [(A, [(26, 6), (16, 5)]), (B, [(16, 4), (26, 6)])];
    for (named, expected) in rows {
        let pair = [
            at(0, of(A, B)),
            at(100, of(B, A)),
            at(600, of(C, named)),
            at(1000, of(A, B)),
            at(1100, of(B, A)),
            at(2000, of(A, B)),
        ];
        shows(&rt, &pair, 3000, &expected);
    }
    let pair = |third: SlowFrame, last: u64| {
        [
            at(0, of(A, B)),
            at(100, of(B, A)),
            third,
            at(1000, of(A, B)),
            at(last, of(A, B)),
        ]
    };
    // One that names neither may be of another link; so may one on another interface.
    shows(&rt, &pair(at(600, of(C, 0xd)), 2000), 3000, &[]);
    let elsewhere = on(1, at(600, of(C, B)));
    shows(&rt, &pair(elsewhere, 2000), 3000, &[]);
    // So may one that names another port of A.
    let mut said = of(C, A);
    said.partner.port.number = 2;
    shows(&rt, &pair(at(600, said), 2000), 3000, &[]);
    // What C has recorded of B is of former times; another one than A has recorded it.
    for state in [0x47, 0x87] {
        let mut said = of(C, B);
        said.actor = info(C, state);
        shows(&rt, &pair(at(600, said), 2000), 3000, &[(16, 4)]);
    }
    // B and C were heard 90 seconds before the last LACPDU; then B was heard longer ago.
    let slow = |actor: u8, partner: u8| said_by(info(actor, UP), info(partner, UP));
    let frames = |last: u64| {
        [
            at(0, slow(A, B)),
            at(500, slow(B, A)),
            at(600, slow(C, A)),
            at(60_000, slow(A, B)),
            at(last, slow(A, B)),
        ]
    };
    shows(&rt, &frames(90_500), 90_500, &[(2, 5), (26, 5)]);
    shows(&rt, &frames(90_501), 90_500, &[(2, 5)]);
}

// 6.4.9: two ends record one partner, so both hear it.
#[test]
fn two_actors_are_on_one_segment(rt: HostRuntime) {
    let mut rival = a_to_b(FAST, FAST);
    rival.actor = info(C, FAST);
    let said = a_to_b(FAST, FAST);
    let frames = [at(0, said), at(500, rival), at(1000, said)];
    shows(&rt, &frames, 2000, &[(16, 3)]);
    // on another interface, or long ago
    let elsewhere = on(1, at(500, rival));
    shows(&rt, &[at(0, said), elsewhere, at(1000, said)], 2000, &[]);
    let said = a_to_b(FAST, UP);
    rival.partner = info(B, UP);
    let frames = [at(0, said), at(500, rival), at(90_501, said)];
    shows(&rt, &frames[..2], 2000, &[]);
    let of_first = observed(&frames).finding(0, Rule::Segment, 0);
    assert!(rt; of_first.is_none());
}
