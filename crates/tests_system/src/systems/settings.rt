use crate::systems::{Case, DATA, Given, ONE, Response, Row, Side, THIRD, TWO, plays_cases};
use lagsystem::{AggId, BadConfig, Choice, MuxState, PortStatus, SystemFault};

const SELECTED: Choice = Choice::Selected(AggId(1));

const STANDBY: Choice = Choice::Standby(AggId(1));

/// Ports 3 and 4 come up, and distribute.
const TWO_UP: [Row<'static>; 4] = [
    Row::Links(&[3, 4]),
    Row::Joins(2, &[3, 4]),
    Row::Ticks(20),
    Row::Distributing(1, &[3, 4]),
];

const HELD_BEFORE: [Row<'static>; 17] = [
    Row::Holds(1, true, Ok(())),
    Row::Status(1, PortStatus::LinkDown),
    Row::Link(1, true),
    Row::Status(1, PortStatus::Held),
    Row::Joins(2, &[1]),
    Row::Ticks(20),
    Row::Chosen(1, Choice::Unselected),
    Row::Mux(1, MuxState::Detached),
    Row::Status(1, PortStatus::Held),
    // an LACPDU that does not name the port
    Row::Takes(1, Side::Of(2, 1, 1, 0x0d), Side::Nobody(0)),
    Row::Sends(1, Side::Of(1, 1, 1, 0x07), Side::Of(2, 1, 1, 0x05)),
    Row::Joins(2, &[1]),
    Row::Holds(1, false, Ok(())),
    Row::Chosen(1, SELECTED),
    Row::Status(1, PortStatus::Waiting(20)),
    Row::Ticks(20),
    Row::Distributing(1, &[1]),
];

const HELD: [Row<'static>; 15] = [
    Row::Offers(1, &DATA, Ok(3)),
    Row::Offers(1, &THIRD, Ok(3)),
    Row::Sends(3, Side::Of(1, 3, 1, 0x3f), Side::Of(2, 3, 1, 0x0d)),
    Row::Holds(3, true, Ok(())),
    Row::Chosen(3, Choice::Unselected),
    Row::Mux(3, MuxState::Detached),
    Row::Status(3, PortStatus::Held),
    Row::Distributing(1, &[4]),
    Row::Wanted(1, 48, 3, None),
    Row::Timers(3, 10, 0, true),
    Row::Offers(1, &DATA, Err(SystemFault::Held)),
    Row::Sends(3, Side::Of(1, 3, 1, 0x07), Side::Of(2, 3, 1, 0x0d)),
    Row::Marks(3, 5),
    Row::Releases(3, Response(3, 1, 5), 2),
    Row::Offers(1, &DATA, Ok(4)),
];

const LET_GO: [Row<'static>; 9] = [
    // the peer's port has left its aggregator
    Row::Takes(3, Side::Of(2, 3, 1, 0x05), Side::Of(1, 3, 1, 0x07)),
    Row::Timers(3, 30, 0, false),
    Row::Holds(3, true, Ok(())),
    Row::Timers(3, 30, 0, false),
    Row::Status(3, PortStatus::Held),
    Row::Holds(3, false, Ok(())),
    Row::Status(3, PortStatus::Waiting(20)),
    Row::Holds(3, false, Ok(())),
    Row::Status(3, PortStatus::Waiting(20)),
];

const RESTARTED: [Row<'static>; 11] = [
    Row::Holds(3, true, Ok(())),
    Row::Holds(4, true, Ok(())),
    Row::Distributing(1, &[]),
    Row::Offers(1, &DATA, Err(SystemFault::NoneDistributing)),
    Row::Holds(5, true, Err(SystemFault::NoPort)),
    Row::Mode(5, true, true, Err(SystemFault::NoPort)),
    Row::Restart,
    Row::Link(3, true),
    Row::Status(3, PortStatus::NoLacpdu),
    Row::Joins(2, &[3]),
    Row::Chosen(3, SELECTED),
];

/// Ports 1, 2 and 3 come up, with one link for each aggregator: port 1 is its member.
const ONE_OF_THREE: [Row<'static>; 6] = [
    Row::Links(&[1, 2, 3]),
    Row::Joins(2, &[1, 2, 3]),
    Row::Ticks(20),
    Row::Chosen(1, SELECTED),
    Row::Chosen(2, STANDBY),
    Row::Chosen(3, STANDBY),
];

const HELD_STANDBY: [Row<'static>; 9] = [
    Row::Holds(2, true, Ok(())),
    Row::Chosen(2, Choice::Unselected),
    Row::Mux(2, MuxState::Detached),
    Row::Link(1, false),
    Row::Chosen(3, SELECTED),
    Row::Holds(2, false, Ok(())),
    Row::Chosen(2, STANDBY),
    Row::Holds(3, true, Ok(())),
    Row::Chosen(2, SELECTED),
];

const BAD: Result<(), SystemFault> = Err(SystemFault::BadConfig(BadConfig::MaxLinks));

const RAISED: [Row<'static>; 17] = [
    Row::Limit(Some(0), BAD),
    Row::Limit(Some(65), BAD),
    Row::Limit(Some(2), Ok(())),
    Row::Chosen(2, SELECTED),
    Row::Chosen(3, STANDBY),
    Row::Limit(Some(1), Err(SystemFault::OverLimit)),
    Row::Chosen(2, SELECTED),
    Row::Holds(2, true, Ok(())),
    Row::Chosen(3, SELECTED),
    Row::Holds(3, true, Ok(())),
    Row::Limit(Some(1), Ok(())),
    Row::Holds(2, false, Ok(())),
    Row::Chosen(2, STANDBY),
    Row::Holds(3, false, Ok(())),
    Row::Limit(None, Ok(())),
    Row::Chosen(2, SELECTED),
    Row::Chosen(3, SELECTED),
];

const DOWN: [Row<'static>; 5] = [
    // without a limit a port whose link is down stays a member; it does not count against a new one
    Row::Link(1, false),
    Row::Chosen(1, SELECTED),
    Row::Limit(Some(2), Ok(())),
    Row::Chosen(1, Choice::Unselected),
    Row::Restart,
];

const AGAIN: [Row<'static>; 3] = [Row::Link(1, true), Row::Link(2, true), Row::Link(3, true)];

const JOINED: [Row<'static>; 3] = [
    Row::Joins(2, &[1, 2, 3]),
    Row::Chosen(2, SELECTED),
    Row::Chosen(3, STANDBY),
];

const OTHER_MODES: [Row<'static>; 16] = [
    Row::Link(1, true),
    Row::Joins(2, &[1]),
    Row::Silent(1),
    Row::Mode(1, true, true, Ok(())),
    Row::Silent(1),
    Row::Mode(1, false, true, Ok(())),
    Row::Sends(1, Side::Of(1, 1, 1, 0x06), Side::Of(2, 1, 1, 0x0d)),
    Row::Mode(1, false, false, Ok(())),
    Row::Sends(1, Side::Of(1, 1, 1, 0x04), Side::Of(2, 1, 1, 0x0d)),
    // the whole of the long time: the partner is told only now
    Row::Timers(1, 900, 20, false),
    Row::Joins(2, &[1]),
    Row::Timers(1, 900, 20, true),
    // a restart goes back to the configured mode
    Row::Restart,
    Row::Link(1, true),
    Row::Ticks(10),
    Row::Sends(1, Side::Of(1, 1, 1, 0xc7), Side::Nobody(0x02)),
];

const BEGINS_TO_SEND: [Row<'static>; 4] = [
    Row::Link(1, true),
    Row::Quiet(1, 40),
    Row::Mode(1, true, true, Ok(())),
    Row::Sends(1, Side::Of(1, 1, 1, 0x47), Side::Nobody(0x08)),
];

const DELAYED: [Row<'static>; 10] = [
    Row::Link(1, true),
    Row::Joins(2, &[1]),
    Row::Delay(27),
    Row::Silent(1),
    Row::Mode(1, true, false, Ok(())),
    Row::SendsWith(1, Side::Of(1, 1, 1, 0x05), Side::Of(2, 1, 1, 0x0d), 27),
    Row::Restart,
    Row::Link(1, true),
    Row::Ticks(10),
    Row::SendsWith(1, Side::Of(1, 1, 1, 0xc7), Side::Nobody(0x02), 27),
];

/// Two partners; the aggregator of the second one is not in use. No more than one aggregator carries at a time.
const ONE_OF_TWO_IN_USE: [Row<'static>; 10] = [
    Row::Uses(2, false, Ok(())),
    Row::Links(&[1, 2]),
    Row::Joins(2, &[1]),
    Row::Joins(3, &[2]),
    Row::Ticks(20),
    Row::Chosen(1, SELECTED),
    Row::Chosen(2, Choice::Standby(AggId(2))),
    Row::Status(2, PortStatus::Standby(AggId(2))),
    Row::Distributing(1, &[1]),
    Row::Distributing(2, &[]),
];

/// The other aggregator carries in the same tick, since wait_while of its port has expired.
const THE_OTHER_ONE: [Row<'static>; 14] = [
    // nothing has asked it to send: what its partner says of it is right
    Row::Timers(2, 10, 0, false),
    Row::Uses(1, false, Ok(())),
    Row::Chosen(1, STANDBY),
    Row::Mux(1, MuxState::Waiting),
    Row::Timers(1, 10, 20, true),
    Row::Distributing(1, &[]),
    Row::Distributing(2, &[]),
    Row::Sends(1, Side::Of(1, 1, 1, 0x07), Side::Of(2, 1, 1, 0x0d)),
    Row::Uses(2, true, Ok(())),
    Row::Chosen(2, Choice::Selected(AggId(2))),
    Row::Distributing(1, &[]),
    Row::Distributing(2, &[2]),
    Row::Sends(2, Side::Of(1, 2, 1, 0x3f), Side::Of(3, 2, 1, 0x0d)),
    Row::Status(1, PortStatus::Standby(AggId(1))),
];

const NO_SUCH_AGGREGATOR: [Row<'static>; 5] = [
    Row::Uses(3, false, Err(SystemFault::NoAggregator)),
    Row::Uses(0, false, Err(SystemFault::NoAggregator)),
    Row::Distributing(2, &[2]),
    Row::Uses(2, true, Ok(())),
    Row::Distributing(2, &[2]),
];

/// A restart keeps what was set.
const STILL_ONE_IN_USE: [Row<'static>; 6] = [
    Row::Restart,
    Row::Links(&[1]),
    Row::Joins(2, &[1]),
    Row::Chosen(1, STANDBY),
    Row::Uses(1, true, Ok(())),
    Row::Chosen(1, SELECTED),
];

const LATER_FROM_FIVE: Given<'static> = Given {
    first_marker: 5,
    ports: &[3, 4],
    ..ONE
};

const LATER: Given<'static> = Given {
    ports: &[3, 4],
    ..ONE
};

const THREE_LIMITED: Given<'static> = Given {
    max_links: Some(1),
    ports: &[1, 2, 3],
    ..ONE
};

const PASSIVE: Given<'static> = Given {
    active: false,
    ..ONE
};

const CASES: [Case<'static>; 9] = [
    ("held before", ONE, &[&HELD_BEFORE]),
    ("held", LATER_FROM_FIVE, &[&TWO_UP, &HELD, &LET_GO]),
    ("a restart", LATER, &[&TWO_UP, &RESTARTED]),
    (
        "held on standby",
        THREE_LIMITED,
        &[&ONE_OF_THREE, &HELD_STANDBY],
    ),
    (
        "limits",
        THREE_LIMITED,
        &[&ONE_OF_THREE, &RAISED, &DOWN, &AGAIN, &JOINED],
    ),
    (
        "in use",
        TWO,
        &[
            &ONE_OF_TWO_IN_USE,
            &THE_OTHER_ONE,
            &NO_SUCH_AGGREGATOR,
            &STILL_ONE_IN_USE,
        ],
    ),
    ("modes", ONE, &[&OTHER_MODES]),
    ("begins to send", PASSIVE, &[&BEGINS_TO_SEND]),
    ("delay", ONE, &[&DELAYED]),
];

#[test]
fn settings_are_made_while_ports_run(rt: HostRuntime) -> Result<(), SystemFault> {
    plays_cases(&rt, rt.alloc(), &CASES)
}
