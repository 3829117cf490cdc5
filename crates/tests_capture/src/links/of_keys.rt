use crate::links::frames::{A, B, C, FAST, Said, UP, a_to_b, at, b_to_a, info, on, said_by, shows};
use findings::SlowFrame;
use lagtypes::Key;
use slowpdu::Info;
use std::process::Abort;

/// What ports with this number say on the interface with this number, and with these keys at their two ends.
fn link(milliseconds: u64, number: u16, keys: (u16, u16)) -> SlowFrame {
    let said = keyed(a_to_b(FAST, FAST), number, keys);
    on(u32::from(number), at(milliseconds, said))
}

/// The same, but of ports with this number and these keys.
fn keyed(said: Said, number: u16, keys: (u16, u16)) -> Said {
    let mut other = said;
    other.actor.port.number = number;
    other.partner.port.number = number;
    other.actor.key = Key(keys.0);
    other.partner.key = Key(keys.1);
    other
}

// 6.3.6: two groups of A lead to two groups of B, one to one: the keys of their links differ at both ends.
#[test]
fn two_bundles_are_between_two_systems(rt: HostRuntime) {
    let frames = |third: (u16, u16), fourth: (u16, u16)| {
        [
            link(0, 1, (10, 10)),
            link(10, 4, fourth),
            link(20, 2, (10, 10)),
            link(30, 3, third),
            link(1000, 1, (10, 10)),
            link(1010, 4, fourth),
            link(1020, 2, (10, 10)),
            link(1030, 3, third),
            link(2000, 1, (10, 10)),
            link(2010, 4, fourth),
            link(2020, 2, (10, 10)),
            link(2030, 3, third),
        ]
    };
    shows(&rt, &frames((20, 20), (20, 20)), 3000, &[]);
    shows(&rt, &frames((20, 30), (20, 30)), 3000, &[]);
    // One port of B is in the group of no other link. What comes between does not hide it.
    let expected = [(15, 10), (15, 12)];
    shows(&rt, &frames((20, 20), (20, 30)), 3000, &expected);
    // The cables of one link of each group are crossed: every link is beside one that shares a key.
    let expected = [(15, 9), (15, 10), (15, 11), (15, 12)];
    shows(&rt, &frames((10, 20), (20, 10)), 3000, &expected);
}

#[test]
fn keys_of_two_links_are_judged_by_their_latest(rt: HostRuntime) {
    // 6.3.6: both links of two systems carry, each in an aggregator of its own, since B gives them the keys 1 and 2.
    let (first, answer) = (a_to_b(FAST, FAST), b_to_a(FAST, FAST));
    let (second, reply) = (keyed(first, 2, (1, 2)), keyed(answer, 2, (2, 1)));
    let other = |milliseconds: u64, said: Said| on(1, at(milliseconds, said));
    let frames = [
        at(0, first),
        at(10, answer),
        other(20, second),
        other(30, reply),
        at(1000, first),
        at(1010, answer),
        other(1020, second),
        other(1030, reply),
        at(2000, first),
        at(2010, answer),
        other(2020, second),
        other(2030, reply),
    ];
    let expected = [(15, 9), (15, 10), (15, 11), (15, 12)];
    shows(&rt, &frames, 2500, &expected);
    // What an end has said before counts no more.
    let frames = [
        link(0, 1, (1, 1)),
        link(100, 2, (1, 2)),
        link(1000, 1, (1, 1)),
        link(1100, 2, (1, 1)),
        link(2000, 1, (1, 1)),
        link(2100, 2, (1, 1)),
        link(3000, 1, (1, 1)),
    ];
    shows(&rt, &frames, 3500, &[]);
}

#[test]
fn keys_differ_within_a_pair_of_systems_at_one_time(rt: HostRuntime) {
    // 6.3.6: a LAG ID has the keys of both systems.
    let second = |from: Info, to: Info, keys: (u16, u16)| {
        on(1, at(400, keyed(said_by(from, to), 2, keys)))
    };
    let first = at(0, a_to_b(FAST, FAST));
    let again = at(1000, a_to_b(FAST, FAST));
    let third = at(2000, a_to_b(FAST, FAST));
    let (a, b, c) = (info(A, FAST), info(B, FAST), info(C, FAST));
    let frames = |other: SlowFrame| [first, other, again, third];
    shows(&rt, &frames(second(a, b, (2, 1))), 3000, &[(15, 4)]);
    shows(&rt, &frames(second(a, b, (1, 2))), 3000, &[(15, 4)]);
    shows(&rt, &frames(second(a, b, (1, 1))), 3000, &[]);
    shows(&rt, &frames(second(a, c, (2, 2))), 3000, &[]);
    // The first LACPDU of the two may have been on its way.
    shows(&rt, &frames(second(a, b, (2, 1)))[..3], 3000, &[]);
    // The other link was heard 90 seconds before, and longer ago.
    let slow = |milliseconds: u64| at(milliseconds, a_to_b(UP, UP));
    let other = second(info(A, UP), info(B, UP), (2, 1));
    let answer = at(400, b_to_a(UP, UP));
    let frames = [slow(0), answer, other, slow(90_000), slow(90_400)];
    shows(&rt, &frames, 90_400, &[(15, 5)]);
    let frames = [slow(0), answer, other, slow(90_000), slow(90_401)];
    shows(&rt, &frames, 90_400, &[]);
    // 6.3.6: the frames of one interface stand behind those of the other, as `mergecap -a` writes them: no time is judged between
    // the two.
    let said = a_to_b(UP, UP);
    let other = keyed(said, 2, (2, 1));
    let second = |milliseconds: u64| on(1, at(milliseconds, other));
    let frames = [
        at(0, said),
        at(70_000, said),
        at(100_000, said),
        second(9_999),
        second(10_000),
        second(10_500),
    ];
    shows(&rt, &frames, 10_500, &[(28, 4)]);
}
