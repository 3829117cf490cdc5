use crate::links::frames::{A, B, C, FAST, UP, a_to_b, at, b_to_a, each_at, info, on, shows};
use slowpdu::Info;
use std::process::Abort;

#[test]
fn silence_is_longer_than_a_timeout(rt: HostRuntime) {
    // 6.4.4, 6.4.13: Short_Timeout_Time is 3 seconds, Long_Timeout_Time 90.
    let short = [
        at(0, a_to_b(FAST, FAST)),
        at(500, b_to_a(FAST, FAST)),
        at(2000, b_to_a(FAST, FAST)),
        at(3001, a_to_b(FAST, FAST)),
    ];
    shows(&rt, &short, 4000, &[(11, 4)]);
    let in_time = [at(0, a_to_b(FAST, FAST)), at(3000, a_to_b(FAST, FAST))];
    shows(&rt, &in_time, 4000, &[]);
    // up to the end of the capture
    let long = [at(0, a_to_b(FAST, UP)), at(500, a_to_b(FAST, UP))];
    shows(&rt, &long, 90_500, &[]);
    shows(&rt, &long, 90_501, &[(11, 2)]);
    // 6.4.13: one active end is enough for both to send.
    let said = a_to_b(0x3c, FAST);
    shows(&rt, &[at(0, said), at(3001, said)], 4000, &[(11, 2)]);
    let said = a_to_b(UP, 0x3e);
    shows(&rt, &[at(0, said), at(3001, said)], 4000, &[(11, 2)]);
    let said = a_to_b(0x3c, 0x3e);
    shows(&rt, &[at(0, said), at(3001, said)], 4000, &[(5, 1)]);
    // A state that lasted, and is over when the next LACPDU comes.
    let rows = [
        (a_to_b(0x45, 0x00), a_to_b(0x05, UP)),
        (a_to_b(UP, 0x0d), a_to_b(UP, UP)),
        (a_to_b(0x0d, 0x05), a_to_b(0x0d, 0x0d)),
    ];
    for (lasts, is_over) in rows {
        let frames = [at(0, lasts), at(2500, lasts), at(9000, is_over)];
        shows(&rt, &frames, 9500, &[]);
    }
}

#[test]
fn ends_that_are_expired_or_hear_nothing(rt: HostRuntime) {
    // 6.4.12: behind Expired, which lasts 3 seconds, comes Defaulted, and an end that is on defaults may send each 30 seconds.
    let heard = a_to_b(FAST, FAST);
    let mut expired = a_to_b(0x8f, 0x03);
    expired.partner.state = info(B, 0x03).state;
    let mut defaulted = a_to_b(0x47, 0x00);
    defaulted.partner = Info::default();
    let frames = [
        at(0, heard),
        at(1000, heard),
        at(3000, expired),
        at(5000, expired),
        at(35_000, defaulted),
        at(65_000, defaulted),
    ];
    let expected = [(12, 5), (13, 5), (18, 4)];
    shows(&rt, &frames[..5], 36_000, &expected);
    // Before it is Expired it may not.
    let frames = [at(0, heard), at(3001, expired)];
    shows(&rt, &frames, 3500, &[(11, 2), (18, 2)]);
    // 6.4.12: an end that hears its partner is CURRENT; without it is 3 seconds in EXPIRED, then DEFAULTED.
    let said = a_to_b(0x45, 0x00);
    let frames = each_at([0, 2000, 4000, 6000, 6001], said);
    shows(&rt, &frames, 7000, &[(12, 5)]);
    let expired = a_to_b(0x87, 0x3d);
    let frames = [at(0, said), at(2000, expired), at(6001, said)];
    shows(&rt, &frames, 7000, &[(12, 3)]);
    let frames = [at(0, said), at(4000, a_to_b(0x05, 0x3d)), at(7000, said)];
    shows(&rt, &frames, 8000, &[]);
}

#[test]
fn lacpdus_go_in_one_direction_until_an_end_is_heard(rt: HostRuntime) {
    // 6.4.12: an end that hears its partner is CURRENT; it hears nothing for the timeout that it asks for.
    let said = a_to_b(FAST, UP);
    let alone = [at(0, said), at(1500, said), at(3001, said)];
    shows(&rt, &alone, 3400, &[(18, 3)]);
    let frames = [at(0, said), at(1500, said), at(3000, said)];
    shows(&rt, &frames, 3400, &[]);
    let facing = |interface: u32| {
        let mut other = b_to_a(UP, UP);
        other.partner = info(C, UP);
        on(interface, at(500, other))
    };
    shows(&rt, &[alone[0], facing(0), alone[1], alone[2]], 3400, &[]);
    let frames = [alone[0], facing(1), alone[1], alone[2]];
    shows(&rt, &frames, 3400, &[(18, 4)]);
    // The partner starts 10 seconds late: LACPDUs come in both directions.
    let said = a_to_b(FAST, UP);
    let mut facing = b_to_a(UP, UP);
    facing.partner = info(C, UP);
    let frames = [
        at(0, said),
        at(1500, said),
        at(3001, said),
        at(9000, said),
        at(10_000, facing),
    ];
    shows(&rt, &frames, 11_000, &[]);
    shows(&rt, &frames[..4], 11_000, &[(18, 3)]);
}

// 6.4.12: current_while_timer runs for the timeout that the end asked for when it was started.
#[test]
fn an_end_that_comes_to_ask_for_short_timeout_waits_anew(rt: HostRuntime) {
    let long = a_to_b(UP, UP);
    let short = a_to_b(FAST, UP);
    let frames = [
        at(0, long),
        at(20_000, short),
        at(23_000, short),
        at(23_001, short),
    ];
    shows(&rt, &frames, 24_000, &[(18, 4)]);
    shows(&rt, &frames[..3], 24_000, &[]);
    let frames = each_at([0, 45_000, 90_000, 90_001], long);
    shows(&rt, &frames, 91_000, &[(18, 4)]);
    shows(&rt, &frames[..3], 91_000, &[]);
}
