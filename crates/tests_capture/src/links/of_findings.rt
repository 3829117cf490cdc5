use crate::links::frames::{A, B, C, FAST, UP, a_to_b, at, b_to_a, each_at, info, said_by, shows};
use slowpdu::Info;
use std::process::Abort;

#[test]
fn ends_are_passive_individual_or_lose_synchronization(rt: HostRuntime) {
    // 6.4.13: no end sends LACPDUs periodically.
    let frames = [at(0, a_to_b(0x3c, 0x3c)), at(500, b_to_a(0x3c, 0x3c))];
    shows(&rt, &frames, 200_000, &[(5, 1), (5, 2)]);
    let frames = [at(0, a_to_b(0x3c, UP)), at(500, b_to_a(UP, 0x3c))];
    shows(&rt, &frames, 1000, &[]);
    // Of a Defaulted end's partner nothing is known.
    shows(&rt, &[at(0, a_to_b(0x44, 0x00))], 1000, &[]);
    // 6.3.5: the Aggregation bit of one end is 0.
    let frames = [at(0, a_to_b(0x39, UP)), at(500, b_to_a(UP, 0x39))];
    shows(&rt, &frames, 1000, &[(14, 1)]);
    let frames = [at(0, a_to_b(0x39, 0x39)), at(500, b_to_a(0x39, 0x39))];
    shows(&rt, &frames, 1000, &[]);
    // 6.4.15: the port leaves its aggregator.
    let up = a_to_b(FAST, FAST);
    let down = a_to_b(0x07, FAST);
    let frames = [at(0, up), at(1000, down), at(2000, down)];
    shows(&rt, &frames, 3000, &[(13, 2)]);
    shows(&rt, &[at(0, down), at(1000, up), at(2000, up)], 3000, &[]);
}

// 6.4.12: current information expires for the second time.
#[test]
fn an_end_is_expired_again_and_again(rt: HostRuntime) {
    let heard = a_to_b(0x05, 0x05);
    let expired = a_to_b(0x85, 0x05);
    let frames = [
        at(0, expired),
        at(1000, heard),
        at(2000, expired),
        at(2500, expired),
        at(3000, heard),
        at(4000, expired),
        at(5000, heard),
        at(6000, expired),
    ];
    shows(&rt, &frames, 7000, &[(23, 6)]);
    shows(&rt, &frames[..5], 7000, &[]);
}

// 6.4.4, 6.4.15: the port waits for 2 seconds, give or take 0.25, before it is attached to its aggregator.
#[test]
fn an_end_is_synchronized_too_soon(rt: HostRuntime) {
    let (up, down) = (a_to_b(FAST, FAST), a_to_b(0x07, FAST));
    let other = said_by(info(A, FAST), info(C, FAST));
    // it was synchronized at 1000 milliseconds, and is not at 1500
    let again = |last: u64| [at(0, up), at(1000, up), at(1500, down), at(last, up)];
    shows(&rt, &again(2749), 3000, &[(13, 3), (27, 4)]);
    shows(&rt, &again(2750), 3000, &[(13, 3)]);
    // two LACPDUs without Synchronization
    let frames = [at(0, up), at(900, down), at(1700, down), at(1749, up)];
    shows(&rt, &frames, 3000, &[(13, 2), (27, 4)]);
    // The clock steps back by 2 seconds between two of them.
    let frames = [at(5000, up), at(5500, down), at(4000, down), at(5200, up)];
    shows(&rt, &frames, 6000, &[(13, 2), (28, 3)]);
    // another partner
    shows(&rt, &[at(0, other), at(1749, up)], 3000, &[(27, 2)]);
    shows(&rt, &[at(0, other), at(1750, up)], 3000, &[]);
    let frames = [at(0, other), at(500, down), at(1749, up)];
    shows(&rt, &frames, 3000, &[(13, 2), (27, 3)]);
    let frames = [at(0, other), at(500, down), at(2249, up)];
    shows(&rt, &frames, 3000, &[(13, 2)]);
    // nobody, at its start: Defaulted
    let nobody = said_by(info(A, 0x47), Info::default());
    shows(&rt, &[at(0, nobody), at(1000, up)], 3000, &[(27, 2)]);
    // A port that has just come up is not known to wait from its first LACPDU on.
    shows(&rt, &[at(0, down), at(1000, up)], 3000, &[]);
    // It goes on to be synchronized, and one that is Defaulted has no partner to wait for.
    shows(&rt, &[at(0, up), at(1000, up)], 3000, &[]);
    let alone = said_by(info(A, 0x4f), Info::default());
    shows(&rt, &[at(0, other), at(1000, alone)], 3000, &[]);
}

#[test]
fn a_partner_is_not_synchronized_or_does_not_collect(rt: HostRuntime) {
    // 6.4.15: the Mux machine of one end is in ATTACHED, and goes on to COLLECTING once the partner is synchronized.
    let said = a_to_b(0x0d, 0x05);
    let frames = each_at([0, 3000, 6000, 6001], said);
    shows(&rt, &frames, 7000, &[(22, 4)]);
    shows(&rt, &frames[..3], 7000, &[]);
    let between = at(3000, a_to_b(0x0d, 0x0d));
    let frames = [at(0, said), between, at(6000, said), at(12_000, said)];
    shows(&rt, &frames, 13_000, &[]);
    let collects = a_to_b(0x1d, 0x05);
    shows(&rt, &[at(0, collects), at(7000, collects)], 8000, &[]);
    let apart = a_to_b(0x05, 0x05);
    shows(&rt, &[at(0, apart), at(7000, apart)], 8000, &[]);
    // Without a partner it is Defaulted for too long, and no more.
    let alone = a_to_b(0x4d, 0x00);
    shows(&rt, &[at(0, alone), at(6001, alone)], 7000, &[(12, 2)]);
    // 6.4.15: frames that are distributed are collected.
    let said = a_to_b(UP, 0x0d);
    let frames = each_at([0, 1000, 2000, 3000, 3001], said);
    shows(&rt, &frames, 4000, &[(17, 5)]);
    let frames = [
        at(0, said),
        at(1000, a_to_b(UP, UP)),
        at(2000, said),
        at(4000, said),
    ];
    shows(&rt, &frames, 5000, &[]);
}

#[test]
fn a_clock_steps_back_and_directions_stand_apart(rt: HostRuntime) {
    // A step back is told, and no time is judged over it.
    let said = a_to_b(FAST, FAST);
    let fourth = each_at([5000, 6000, 7000, 1000], said);
    shows(&rt, &fourth, 1500, &[(28, 4)]);
    let mut rival = a_to_b(FAST, FAST);
    rival.actor = info(C, FAST);
    let frames = [at(5000, said), at(5500, rival), at(1000, said)];
    shows(&rt, &frames, 1500, &[(28, 3)]);
    // 6.4.16: the clock steps back by 3 seconds between two of four LACPDUs that are a second apart.
    let apart = each_at([5000, 6000, 7000, 5500, 6500], said);
    shows(&rt, &apart, 7000, &[(28, 4)]);
    // By a second it is in the order of what several interfaces receive; the first step is told, and no other.
    shows(&rt, &[at(5000, said), at(4000, said)], 5000, &[]);
    let (back, again) = (at(3999, said), at(2000, said));
    shows(&rt, &[at(5000, said), back, again], 5000, &[(28, 2)]);
    // The frames of one direction stand behind those of the other: B hears A, and responds.
    let (said, answer) = (a_to_b(FAST, FAST), b_to_a(FAST, FAST));
    let frames = [
        at(0, said),
        at(2500, said),
        at(5000, said),
        at(100, answer),
        at(2600, answer),
        at(5100, answer),
    ];
    shows(&rt, &frames, 5100, &[(28, 4)]);
    shows(&rt, &frames[3..], 5100, &[(18, 3)]);
}

#[test]
fn frames_of_a_healthy_link_or_too_many(rt: HostRuntime) {
    let frames = [
        at(0, a_to_b(FAST, FAST)),
        at(500, b_to_a(FAST, FAST)),
        at(1000, a_to_b(FAST, FAST)),
        at(1500, b_to_a(FAST, FAST)),
        at(2000, a_to_b(FAST, FAST)),
        at(2500, b_to_a(FAST, FAST)),
    ];
    shows(&rt, &frames, 4000, &[]);
    // 6.4.16: no more than three LACPDUs in any Fast_Periodic_Time, a second.
    let said = a_to_b(FAST, FAST);
    // within two whole seconds, two in each
    let across = each_at([600, 900, 1200, 1500], said);
    shows(&rt, &across, 2000, &[(1, 4)]);
    // the fourth comes a second after the first
    let apart = each_at([0, 300, 600, 1000], said);
    shows(&rt, &apart, 2000, &[]);
    // the fifth is one too many as well
    let more = each_at([0, 300, 600, 999, 1100], said);
    shows(&rt, &more, 2000, &[(1, 4)]);
    // in a merged capture they stand out of order
    let merged = each_at([900, 300, 600, 1200], said);
    shows(&rt, &merged, 2000, &[(1, 4)]);
    let apart = each_at([900, 300, 0, 1000], said);
    shows(&rt, &apart, 2000, &[]);
    let mut said = at(0, a_to_b(FAST, FAST));
    said.nanoseconds = 0;
    shows(&rt, &[said, said, said, said], 200_000, &[]);
    let mut unheard = at(0, a_to_b(0x47, 0x00));
    unheard.nanoseconds = 0;
    let later = at(0, a_to_b(0x47, 0x00));
    shows(&rt, &[unheard, later], 1000, &[]);
}
