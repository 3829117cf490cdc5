use crate::systems::{
    Case, DATA, Given, ONE, PortFacts, Row, Side, TWO, configured, end, joined, mac, marker, plays,
    plays_cases,
};
use bitflags::Flags;
use lagsystem::{
    AggId, Choice, Group, MuxState, PortStatus, ReceiveState, Received, State, SystemFault,
};
use slowpdu::{MarkerKind, frame};
use std::alloc::Global;
use std::process::Abort;

const SELECTED: Choice = Choice::Selected(AggId(1));

const STANDBY: Choice = Choice::Standby(AggId(1));

/// Port 1 alone is a member, and distributes; ports 2 and 3 are STANDBY.
const MEMBER_1: [Row<'static>; 4] = [
    Row::Chosen(1, SELECTED),
    Row::Chosen(2, STANDBY),
    Row::Chosen(3, STANDBY),
    Row::Distributing(1, &[1]),
];

/// Ports 1, 2 and 3 come up, and an LACPDU of system 2 comes on each; then wait_while expires, and they are so.
const ONE_UP: [Row<'static>; 7] = [
    Row::Links(&[1, 2, 3]),
    Row::RankedJoins(2, &[1, 2, 3]),
    Row::Ticks(20),
    Row::Chosen(1, SELECTED),
    Row::Chosen(2, STANDBY),
    Row::Chosen(3, STANDBY),
    Row::Distributing(1, &[1]),
];

/// Port 3 has taken the place of port 1, and distributes; port 2 is STANDBY still.
const PROMOTED: [Row<'static>; 4] = [
    Row::Chosen(2, STANDBY),
    Row::Chosen(3, SELECTED),
    Row::Mux(2, MuxState::Waiting),
    Row::Distributing(1, &[3]),
];

/// What the readers return for port 2 while it is STANDBY.
fn second_on_standby() -> PortFacts {
    let theirs = end(2, 2, 1, 0x0d);
    let party = Side::Ranked(2, 0x07).info().party();
    PortFacts {
        party: Some(party),
        partner: Some(theirs),
        group: Some(Group::of(&theirs.party(), &party)),
        defaulted: Some(false),
        distributes: Some(false),
        choice: Some(STANDBY),
        mux: Some(MuxState::Waiting),
        receive: Some(ReceiveState::Current),
        state: Some(State::from_bits_retain(0x07)),
        up: Some(true),
        due: Some(false),
        status: Some(PortStatus::Standby(AggId(1))),
        current_while: Some(10),
        wait_while: Some(0),
        ntt: Some(false),
    }
}

/// Plays these rows, list by list, behind those of ONE_UP.
fn plays_after_one(
    rt: &impl Abort,
    alloc: Global,
    case: &str,
    lists: &[&[Row<'_>]],
) -> Result<(), SystemFault> {
    let given = configured(alloc, &LIMITED)?;
    let mut rows = joined(alloc, &[&ONE_UP])?;
    rows.append(&mut joined(alloc, lists)?)?;
    plays(rt, alloc, given, case, &rows)
}

#[test]
fn a_standby_port_carries_no_frames(rt: HostRuntime) -> Result<(), SystemFault> {
    let rows = [
        Row::Shows(2, second_on_standby()),
        Row::Sends(1, Side::Ranked(1, 0x3f), Side::Of(2, 1, 1, 0x0d)),
        Row::Silent(2),
        Row::Offers(1, &DATA, Ok(1)),
        Row::Moves(1, 48, 2, Err(SystemFault::NotDistributing)),
        Row::Hears(1, &DATA, Received::Up(AggId(1))),
        Row::Hears(2, &DATA, Received::Dropped),
    ];
    plays_after_one(&rt, rt.alloc(), "carries", &[&rows])
}

#[test]
fn a_standby_port_answers_markers(rt: HostRuntime) -> Result<(), SystemFault> {
    let asked = frame(mac(9), &marker(MarkerKind::Information, 5, 7, 77).encode());
    let answer = frame(mac(2), &marker(MarkerKind::Response, 5, 7, 77).encode());
    let rows = [
        Row::Links(&[1, 2]),
        Row::RankedJoins(2, &[1, 2]),
        Row::Chosen(2, STANDBY),
        Row::Hears(2, &asked, Received::Respond(answer)),
    ];
    let given = configured(rt.alloc(), &PAIR_LIMITED)?;
    plays(&rt, rt.alloc(), given, "answers", &rows)
}

/// The group of port 1 stays the same, but its partner has another port identifier: it leaves and chooses again, after the port that
/// was STANDBY.
#[test]
fn standby_ports_come_before_ports_that_choose(rt: HostRuntime) -> Result<(), SystemFault> {
    let mut renamed = end(2, 1, 1, 0x0d);
    renamed.port.priority = 127;
    let rows = [
        Row::Takes(1, Side::Exactly(renamed), Side::Ranked(1, 0x3f)),
        Row::Chosen(1, STANDBY),
        Row::Mux(1, MuxState::Waiting),
    ];
    let lists: [&[Row<'_>]; 2] = [&rows, &PROMOTED];
    plays_after_one(&rt, rt.alloc(), "chooses", &lists)
}

const DOWN: [Row<'static>; 5] = [
    Row::Offers(1, &DATA, Ok(1)),
    Row::Link(1, false),
    Row::Chosen(1, Choice::Unselected),
    Row::Mux(1, MuxState::Detached),
    Row::Offers(1, &DATA, Ok(3)),
];

const BACK: [Row<'static>; 3] = [
    Row::Link(1, true),
    Row::RankedJoins(2, &[1]),
    Row::Chosen(1, STANDBY),
];

const SECOND: [Row<'static>; 3] = [
    Row::Link(3, false),
    Row::Chosen(1, STANDBY),
    Row::Distributing(1, &[2]),
];

/// A member is not made STANDBY, though a port with a lower port identifier is. Port 1 comes back as the last.
// port 1 waits for 20 ticks from when it came back
const FIRST: [Row<'static>; 6] = [
    Row::Link(2, false),
    Row::Chosen(1, SELECTED),
    Row::Ticks(19),
    Row::Mux(1, MuxState::Waiting),
    Row::Ticks(1),
    Row::Distributing(1, &[1]),
];

const OUT: Row<'static> = Row::Chosen(1, Choice::Unselected);

const CONFIGURED: [Row<'static>; 2] = [Row::Configures(1, 2, true), OUT];

const OTHER_KEY: [Row<'static>; 2] = [
    Row::Takes(1, Side::Of(2, 1, 2, 0x0d), Side::Ranked(1, 0x3f)),
    OUT,
];

const OWN_SYSTEM: [Row<'static>; 2] = [
    Row::Takes(1, Side::Of(1, 9, 1, 0x0d), Side::Ranked(1, 0x3f)),
    OUT,
];

/// Port 1 hears nothing more; it is EXPIRED after 30 ticks, DEFAULTED after 60.
const HEARS_NOTHING: [Row<'static>; 16] = [
    Row::RankedJoins(2, &[2, 3]),
    Row::Ticks(9),
    Row::Distributing(1, &[1]),
    Row::Ticks(1),
    Row::Distributing(1, &[]),
    Row::Mux(1, MuxState::Attached),
    Row::Chosen(1, SELECTED),
    Row::Chosen(3, STANDBY),
    Row::Ticks(10),
    Row::RankedJoins(2, &[2, 3]),
    Row::Ticks(19),
    Row::Chosen(1, SELECTED),
    Row::Chosen(3, STANDBY),
    Row::Ticks(1),
    Row::Defaulted(1, true),
    Row::Chosen(1, Choice::Unselected),
];

/// A peer that restarts has forgotten the port, but says the same of itself: the port stays a member.
const PEER_RESTARTS: [Row<'static>; 7] = [
    Row::Takes(1, Side::Of(2, 1, 1, 0x45), Side::Nobody(0x08)),
    Row::Chosen(1, SELECTED),
    Row::Mux(1, MuxState::Attached),
    Row::Chosen(2, STANDBY),
    Row::Chosen(3, STANDBY),
    Row::Distributing(1, &[]),
    Row::RankedJoins(2, &[1]),
];

const NONE: Choice = Choice::Unselected;

const RESTARTS: [Row<'static>; 4] = [
    Row::Restart,
    Row::Chosen(1, NONE),
    Row::Chosen(2, NONE),
    Row::Chosen(3, NONE),
];

/// Ports 1 to 4 come up, and an LACPDU of system 2 comes on each.
const FOUR_UP: [Row<'static>; 2] = [
    Row::Links(&[1, 2, 3, 4]),
    Row::RankedJoins(2, &[1, 2, 3, 4]),
];

/// Two members leave in one tick, the 60th, and both STANDBY ports follow.
const TWO_FOLLOW: [Row<'static>; 14] = [
    Row::Ticks(20),
    Row::Chosen(3, STANDBY),
    Row::Chosen(4, STANDBY),
    Row::Distributing(1, &[1, 2]),
    Row::RankedJoins(2, &[3, 4]),
    Row::Ticks(20),
    Row::RankedJoins(2, &[3, 4]),
    Row::Ticks(19),
    Row::Chosen(2, SELECTED),
    Row::Chosen(4, STANDBY),
    Row::Ticks(1),
    Row::Chosen(1, Choice::Unselected),
    Row::Chosen(2, Choice::Unselected),
    Row::Distributing(1, &[3, 4]),
];

/// Ports 1 and 2 have system 2 as their partner, ports 3 and 4 system 3, and port 5 system 4.
const FIVE_UP: [Row<'static>; 7] = [
    Row::Links(&[1, 2, 3, 4, 5]),
    Row::RankedJoins(2, &[1, 2]),
    Row::RankedJoins(3, &[3, 4]),
    Row::RankedJoins(4, &[5]),
    Row::Ticks(20),
    Row::Distributing(1, &[1]),
    Row::Distributing(2, &[3]),
];

const OTHER: Choice = Choice::Standby(AggId(2));

const TWO_AGGREGATORS: [Row<'static>; 15] = [
    Row::Chosen(2, STANDBY),
    Row::Chosen(4, OTHER),
    Row::Chosen(5, Choice::Unselected),
    Row::Link(3, false),
    Row::Chosen(2, STANDBY),
    Row::Distributing(1, &[1]),
    Row::Distributing(2, &[4]),
    Row::Link(1, false),
    Row::Distributing(1, &[2]),
    Row::Distributing(2, &[4]),
    Row::Chosen(5, Choice::Unselected),
    // nobody occupies aggregator 2 any more
    Row::Link(4, false),
    Row::Chosen(5, Choice::Selected(AggId(2))),
    Row::Distributing(1, &[2]),
    Row::Distributing(2, &[]),
];

/// Ready looks at members alone; a port that becomes one waits until its own wait_while has expired.
const MEMBER_ALONE: [Row<'static>; 15] = [
    Row::Links(&[1, 2]),
    Row::RankedJoins(2, &[1]),
    Row::Ticks(15),
    Row::RankedJoins(2, &[2]),
    Row::Ticks(4),
    Row::Distributing(1, &[]),
    Row::Ticks(1),
    Row::Distributing(1, &[1]),
    Row::Ticks(2),
    Row::Link(1, false),
    Row::Chosen(2, SELECTED),
    Row::Ticks(12),
    Row::Mux(2, MuxState::Waiting),
    Row::Ticks(1),
    Row::Distributing(1, &[2]),
];

const UP: [Row<'static>; 3] = [
    Row::Link(1, true),
    Row::RankedJoins(2, &[1]),
    Row::Ticks(20),
];

const STAYS: [Row<'static>; 3] = [
    Row::Link(1, false),
    Row::Chosen(1, SELECTED),
    Row::Mux(1, MuxState::Attached),
];

/// Without a limit Selected stays as it is while the link is down; with one the port becomes UNSELECTED at once, even if
/// there is room.
const LEAVES: [Row<'static>; 3] = [
    Row::Link(1, false),
    Row::Chosen(1, Choice::Unselected),
    Row::Mux(1, MuxState::Detached),
];

const LIMITED: Given<'static> = Given {
    max_links: Some(1),
    ports: &[1, 2, 3],
    ranked: true,
    ..ONE
};

const FOUR_LIMITED_TO_2: Given<'static> = Given {
    max_links: Some(2),
    ports: &[1, 2, 3, 4],
    ranked: true,
    ..ONE
};

const FIVE_LIMITED: Given<'static> = Given {
    max_links: Some(1),
    ports: &[1, 2, 3, 4, 5],
    ranked: true,
    ..TWO
};

const PAIR_LIMITED: Given<'static> = Given {
    max_links: Some(1),
    ports: &[1, 2],
    ranked: true,
    ..ONE
};

const RANKED: Given<'static> = Given {
    ranked: true,
    ..ONE
};

const LIMITED_TO_64: Given<'static> = Given {
    max_links: Some(64),
    ranked: true,
    ..ONE
};

const CASES: [Case<'static>; 12] = [
    (
        "a link goes down",
        LIMITED,
        &[&ONE_UP, &DOWN, &PROMOTED, &BACK, &PROMOTED, &SECOND, &FIRST],
    ),
    (
        "a member is configured",
        LIMITED,
        &[&ONE_UP, &CONFIGURED, &PROMOTED],
    ),
    (
        "a member has another key",
        LIMITED,
        &[&ONE_UP, &OTHER_KEY, &PROMOTED],
    ),
    (
        "a member hears its own system",
        LIMITED,
        &[&ONE_UP, &OWN_SYSTEM, &PROMOTED],
    ),
    (
        "hears nothing",
        LIMITED,
        &[&ONE_UP, &HEARS_NOTHING, &PROMOTED],
    ),
    (
        "the peer restarts",
        LIMITED,
        &[&ONE_UP, &PEER_RESTARTS, &MEMBER_1],
    ),
    ("a restart", LIMITED, &[&ONE_UP, &RESTARTS, &ONE_UP]),
    ("two follow", FOUR_LIMITED_TO_2, &[&FOUR_UP, &TWO_FOLLOW]),
    (
        "two aggregators",
        FIVE_LIMITED,
        &[&FIVE_UP, &TWO_AGGREGATORS],
    ),
    ("a member alone", PAIR_LIMITED, &[&MEMBER_ALONE]),
    ("stays", RANKED, &[&UP, &STAYS]),
    ("leaves", LIMITED_TO_64, &[&UP, &LEAVES]),
];

#[test]
fn standby_ports_follow_members(rt: HostRuntime) -> Result<(), SystemFault> {
    plays_cases(&rt, rt.alloc(), &CASES)
}
