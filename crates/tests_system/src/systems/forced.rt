use crate::systems::{Case, DATA, Given, LAST, Row, Side, TWO, plays_cases};
use lagsystem::{Assignment, SystemFault};

/// A data frame of conversation 0.
const FIRST: [u8; 14] = [2, 0, 0, 0, 0, 0x10, 2, 0, 0, 0, 0, 0x10, 8, 0];

/// A data frame of conversation 1.
const SECOND: [u8; 14] = [2, 0, 0, 0, 0, 0x11, 2, 0, 0, 0, 0, 0x10, 8, 0];

/// A data frame of conversation 3.
const FOURTH: [u8; 14] = [2, 0, 0, 0, 0, 0x13, 2, 0, 0, 0, 0, 0x10, 8, 0];

/// A data frame of conversation 254.
const LAST_BUT_ONE: [u8; 14] = [2, 0, 0, 0, 0, 0xa4, 2, 0, 0, 0, 0, 0x5a, 8, 0];

/// A data frame of conversation 304, if there are 4096 of them.
const WIDE: [u8; 14] = [2, 0, 0, 0, 1, 0x20, 2, 0, 0, 0, 0, 0x10, 8, 0];

/// Ports 1 and 2 come to distribute in aggregator 1, and port 3 in aggregator 2.
const ALL_UP: [Row<'static>; 7] = [
    Row::Links(&[1, 2, 3]),
    Row::Takes(1, Side::Of(2, 1, 1, 0x0d), Side::Of(1, 1, 1, 0x05)),
    Row::Takes(2, Side::Of(2, 2, 1, 0x0d), Side::Of(1, 2, 1, 0x05)),
    Row::Takes(3, Side::Of(3, 3, 1, 0x0d), Side::Of(1, 3, 1, 0x05)),
    Row::Ticks(20),
    Row::Distributing(1, &[1, 2]),
    Row::Distributing(2, &[3]),
];

/// Conversations of aggregator 1 wait on both of its ports: of each port one behind its marker, and one for a marker.
const HELD_IN_THE_FIRST: [Row<'static>; 14] = [
    Row::Offers(1, &FIRST, Ok(1)),
    Row::Offers(1, &DATA, Ok(1)),
    Row::Offers(1, &LAST_BUT_ONE, Ok(1)),
    Row::Offers(1, &SECOND, Ok(2)),
    Row::Offers(1, &FOURTH, Ok(2)),
    Row::Offers(1, &LAST, Ok(2)),
    Row::Moves(1, 0, 2, Ok(())),
    Row::Moves(1, 3, 1, Ok(())),
    Row::Sends(1, Side::Of(1, 1, 1, 0x3d), Side::Of(2, 1, 1, 0x0d)),
    Row::Marks(1, 1),
    Row::Sends(2, Side::Of(1, 2, 1, 0x3d), Side::Of(2, 2, 1, 0x0d)),
    Row::Marks(2, 2),
    Row::Moves(1, 48, 2, Ok(())),
    Row::Moves(1, 255, 1, Ok(())),
];

/// Port 1 goes over to aggregator 2, in which conversations come to wait on it and on port 3.
const HELD_IN_THE_SECOND: [Row<'static>; 10] = [
    Row::Takes(1, Side::Of(3, 1, 1, 0x0d), Side::Of(1, 1, 1, 0x3d)),
    Row::Ticks(20),
    Row::Distributing(1, &[2]),
    Row::Distributing(2, &[1, 3]),
    Row::Offers(2, &FIRST, Ok(1)),
    Row::Offers(2, &DATA, Ok(1)),
    Row::Offers(2, &SECOND, Ok(3)),
    Row::Offers(2, &FOURTH, Ok(3)),
    Row::Moves(2, 48, 3, Ok(())),
    Row::Moves(2, 3, 1, Ok(())),
];

/// Conversation 0 waits behind marker 1 on port 1 since 20 ticks.
const BEHIND_1: Assignment = Assignment::Flushing {
    port: 1,
    id: 1,
    preferred: Some(2),
    age: 20,
};

/// Conversation 3 waits behind marker 2 on port 2 since 20 ticks.
const BEHIND_2: Assignment = Assignment::Flushing {
    port: 2,
    id: 2,
    preferred: Some(1),
    age: 20,
};

/// What waits on port 1.
const ON_PORT_1: [Row<'static>; 4] = [
    Row::Conversing(1, 0, Some(BEHIND_1)),
    Row::Wanted(1, 48, 1, Some(2)),
    Row::Wanted(1, 254, 1, None),
    Row::Wanted(2, 48, 1, Some(3)),
];

/// What is On its port, or waits on another port than port 1.
const ELSEWHERE: [Row<'static>; 7] = [
    Row::Conversing(1, 1, Some(Assignment::On(2))),
    Row::Conversing(1, 3, Some(BEHIND_2)),
    Row::Wanted(1, 255, 2, Some(1)),
    Row::Conversing(2, 0, Some(Assignment::On(1))),
    Row::Conversing(2, 1, Some(Assignment::On(3))),
    Row::Wanted(2, 3, 3, Some(1)),
    Row::Next(Some(3)),
];

/// There is no port 0 and no port 4.
const NO_SUCH_PORT: [Row<'static>; 2] = [
    Row::ForcesPort(0, Err(SystemFault::NoPort)),
    Row::ForcesPort(4, Err(SystemFault::NoPort)),
];

/// What waited on port 1 is free, once.
const FORCED: [Row<'static>; 6] = [
    Row::ForcesPort(1, Ok(4)),
    Row::Free(1, 0, Some(2)),
    Row::Free(1, 48, Some(2)),
    Row::Free(1, 254, None),
    Row::Free(2, 48, Some(3)),
    Row::ForcesPort(1, Ok(0)),
];

/// Then it goes on other ports, and ports 2 and 3 are forced likewise.
const GOES_ON: [Row<'static>; 17] = [
    Row::Offers(1, &FIRST, Ok(2)),
    Row::Offers(1, &DATA, Ok(2)),
    Row::Offers(1, &LAST_BUT_ONE, Ok(2)),
    Row::Offers(2, &DATA, Ok(3)),
    Row::Offers(2, &FIRST, Ok(1)),
    Row::Offers(1, &FOURTH, Err(SystemFault::Held)),
    Row::Offers(2, &FOURTH, Err(SystemFault::Held)),
    Row::ForcesPort(3, Ok(1)),
    Row::Offers(2, &FOURTH, Ok(1)),
    Row::Offers(1, &FOURTH, Err(SystemFault::Held)),
    Row::ForcesPort(2, Ok(2)),
    Row::Free(1, 3, Some(1)),
    Row::Free(1, 255, Some(1)),
    Row::Conversing(1, 1, Some(Assignment::On(2))),
    // port 1 is preferred, but distributes in the other aggregator
    Row::Offers(1, &FOURTH, Ok(2)),
    Row::Offers(1, &LAST, Ok(2)),
    Row::ForcesPort(2, Ok(0)),
];

/// The conversation has a number above those of 256 conversations.
const ABOVE_255: [Row<'static>; 8] = [
    Row::Offers(1, &WIDE, Ok(1)),
    Row::ForcesPort(1, Ok(0)),
    Row::Moves(1, 304, 2, Ok(())),
    Row::Wanted(1, 304, 1, Some(2)),
    Row::ForcesPort(2, Ok(0)),
    Row::ForcesPort(1, Ok(1)),
    Row::Free(1, 304, Some(2)),
    Row::Offers(1, &WIDE, Ok(2)),
];

const THREE_LONG: Given<'static> = Given {
    ports: &[1, 2, 3],
    short: false,
    ..TWO
};

const THREE_MANY_LONG: Given<'static> = Given {
    conversations: 4096,
    ports: &[1, 2, 3],
    short: false,
    ..TWO
};

const CASES: [Case<'static>; 2] = [
    (
        "what waits",
        THREE_LONG,
        &[
            &ALL_UP,
            &HELD_IN_THE_FIRST,
            &HELD_IN_THE_SECOND,
            &ON_PORT_1,
            &ELSEWHERE,
            &NO_SUCH_PORT,
            &ON_PORT_1,
            &ELSEWHERE,
            &FORCED,
            &ELSEWHERE,
            &GOES_ON,
        ],
    ),
    ("above 255", THREE_MANY_LONG, &[&ALL_UP, &ABOVE_255]),
];

#[test]
fn what_waits_on_a_port_is_forced(rt: HostRuntime) -> Result<(), SystemFault> {
    plays_cases(&rt, rt.alloc(), &CASES)
}
