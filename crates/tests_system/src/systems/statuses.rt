use crate::comparing::same;
use crate::systems::{Case, Given, ONE, Row, Side, TWO, config, end, plays, plays_cases};
use lagsystem::{AggId, Choice, PortStatus, SystemFault};

/// A port that hears nobody runs on defaults after 30 ticks, waits for 20 more, and distributes then.
const ALONE: [Row<'static>; 25] = [
    Row::Status(1, PortStatus::LinkDown),
    Row::Timers(1, 0, 0, false),
    Row::Link(1, true),
    Row::Status(1, PortStatus::NoLacpdu),
    Row::Timers(1, 30, 0, false),
    Row::Ticks(9),
    Row::Timers(1, 21, 0, false),
    // Fast_Periodic_Time has passed
    Row::Ticks(1),
    Row::Timers(1, 20, 0, true),
    Row::Ticks(19),
    Row::Status(1, PortStatus::NoLacpdu),
    Row::Timers(1, 1, 0, true),
    Row::Ticks(1),
    Row::Status(1, PortStatus::OnDefaults),
    Row::Timers(1, 0, 20, true),
    Row::Ticks(7),
    Row::Timers(1, 0, 13, true),
    Row::Ticks(12),
    Row::Status(1, PortStatus::OnDefaults),
    Row::Ticks(1),
    Row::Status(1, PortStatus::Distributing),
    Row::Timers(1, 0, 0, true),
    Row::Link(1, false),
    Row::Status(1, PortStatus::LinkDown),
    Row::Timers(1, 0, 0, false),
];

/// Two ports of one group, of which the second hears its peer 6 ticks later. Its peer takes it for synchronized, so it asks
/// to tell it otherwise.
const BOTH_WAIT: [Row<'static>; 18] = [
    Row::Links(&[1, 2]),
    Row::Takes(1, Side::Of(2, 1, 1, 0x05), Side::Of(1, 1, 1, 0x07)),
    Row::Status(1, PortStatus::Waiting(20)),
    Row::Timers(1, 30, 20, false),
    Row::Ticks(6),
    Row::Status(2, PortStatus::NoLacpdu),
    Row::Timers(2, 24, 0, false),
    Row::Takes(2, Side::Of(2, 2, 1, 0x05), Side::Of(1, 2, 1, 0x0f)),
    Row::Status(2, PortStatus::Waiting(20)),
    Row::Timers(2, 30, 20, true),
    Row::Ticks(8),
    Row::Timers(1, 16, 6, false),
    Row::Timers(2, 22, 12, true),
    Row::Sends(2, Side::Of(1, 2, 1, 0x07), Side::Of(2, 2, 1, 0x05)),
    Row::Timers(2, 22, 12, false),
    Row::Ticks(5),
    Row::Status(1, PortStatus::Waiting(1)),
    Row::Status(2, PortStatus::Waiting(7)),
];

/// The first port waits for the second, then both for their peer; the second hears no more.
const BOTH_ATTACH: [Row<'static>; 19] = [
    Row::Ticks(1),
    Row::Status(1, PortStatus::WaitingForMembers),
    Row::Timers(1, 10, 0, false),
    Row::Status(2, PortStatus::Waiting(6)),
    Row::Takes(1, Side::Of(2, 1, 1, 0x05), Side::Of(1, 1, 1, 0x07)),
    Row::Ticks(6),
    Row::Status(1, PortStatus::PartnerNotSynchronized),
    Row::Status(2, PortStatus::PartnerNotSynchronized),
    Row::Timers(1, 24, 0, true),
    Row::Timers(2, 10, 0, true),
    Row::Takes(1, Side::Of(2, 1, 1, 0x0d), Side::Of(1, 1, 1, 0x0f)),
    Row::Status(1, PortStatus::Distributing),
    Row::Status(2, PortStatus::PartnerNotSynchronized),
    Row::Ticks(10),
    Row::Status(1, PortStatus::Distributing),
    Row::Status(2, PortStatus::NoLacpdu),
    Row::Timers(2, 30, 0, true),
    Row::Link(1, false),
    Row::Status(1, PortStatus::LinkDown),
];

const UNSYNCHRONIZED: Row<'static> = Row::Takes(
    1,
    Side::Of(2, 1, 1, 0x05),
    Side::Of(1, 1, 1, 0x0f),
);

/// Only ports in DETACHED and WAITING are waited for: a port in ATTACHED, whose peer is not synchronized, is not (6.4.14).
const IN_ATTACHED: [Row<'static>; 12] = [
    Row::Link(1, true),
    UNSYNCHRONIZED,
    Row::Ticks(20),
    Row::Status(1, PortStatus::PartnerNotSynchronized),
    Row::Link(2, true),
    Row::Takes(2, Side::Of(2, 2, 1, 0x0d), Side::Of(1, 2, 1, 0x07)),
    UNSYNCHRONIZED,
    Row::Ticks(19),
    Row::Status(2, PortStatus::Waiting(1)),
    Row::Ticks(1),
    Row::Status(1, PortStatus::PartnerNotSynchronized),
    Row::Status(2, PortStatus::Distributing),
];

/// Ports 1 to 5 come up. Ports 2 and 3 have the same peer, and port 5 has the system itself as its peer.
const FIVE_PEERS: [Row<'static>; 6] = [
    Row::Links(&[1, 2, 3, 4, 5]),
    Row::Takes(1, Side::Of(2, 1, 1, 0x0d), Side::Of(1, 1, 1, 0x07)),
    Row::Takes(2, Side::Of(3, 2, 1, 0x0d), Side::Of(1, 2, 1, 0x07)),
    Row::Takes(3, Side::Of(3, 3, 1, 0x0d), Side::Of(1, 3, 1, 0x07)),
    Row::Takes(4, Side::Of(4, 4, 1, 0x0d), Side::Of(1, 4, 1, 0x07)),
    Row::Takes(5, Side::Of(1, 9, 1, 0x0d), Side::Of(1, 5, 1, 0x07)),
];

/// Of five ports the first two are links, and the others stay out of their aggregators, until no port hears any more.
const THREE_OUT: [Row<'static>; 18] = [
    Row::Ticks(7),
    Row::Status(1, PortStatus::Waiting(13)),
    Row::Status(2, PortStatus::Waiting(13)),
    Row::Status(3, PortStatus::Standby(AggId(2))),
    Row::Timers(3, 23, 13, false),
    Row::Status(4, PortStatus::NoAggregator),
    Row::Timers(4, 23, 0, false),
    Row::Status(5, PortStatus::OwnSystem),
    Row::Ticks(13),
    Row::Status(1, PortStatus::Distributing),
    Row::Status(2, PortStatus::Distributing),
    Row::Status(3, PortStatus::Standby(AggId(2))),
    Row::Status(4, PortStatus::NoAggregator),
    Row::Status(5, PortStatus::OwnSystem),
    Row::Ticks(10),
    Row::Status(3, PortStatus::NoLacpdu),
    Row::Status(4, PortStatus::NoLacpdu),
    Row::Status(5, PortStatus::NoLacpdu),
];

/// The peer of the first port has the MAC address of the system and a higher priority: it is another system. That of the second
/// is the system itself, under another key.
#[test]
fn a_system_is_its_priority_and_address(rt: HostRuntime) -> Result<(), SystemFault> {
    let mut other = end(1, 9, 6, 0x05);
    other.system.priority = 32767;
    let rows = [
        Row::Links(&[1, 2]),
        Row::Takes(1, Side::Exactly(other), Side::Of(1, 1, 1, 0x07)),
        Row::Status(1, PortStatus::Waiting(20)),
        Row::Chosen(1, Choice::Selected(AggId(1))),
        Row::Takes(2, Side::Of(1, 8, 7, 0x05), Side::Of(1, 2, 1, 0x07)),
        Row::Status(2, PortStatus::OwnSystem),
        Row::Chosen(2, Choice::Unselected),
    ];
    let given = config(rt.alloc(), &[1, 2], 2)?;
    plays(&rt, rt.alloc(), given, "priority and address", &rows)?;
    let status = PortStatus::OwnSystem;
    same(&rt, "number", &status.number(), &4);
    same(&rt, "name", &status.name(), &"own-system");
    Ok(())
}

/// Long_Timeout_Time is 900 ticks.
const LONG_TIMEOUT: [Row<'static>; 6] = [
    Row::Link(1, true),
    Row::Takes(1, Side::Of(2, 1, 1, 0x05), Side::Of(1, 1, 1, 0x05)),
    Row::Timers(1, 900, 20, false),
    Row::Ticks(3),
    Row::Timers(1, 897, 17, false),
    Row::Status(1, PortStatus::Waiting(17)),
];

const PAIR: Given<'static> = Given {
    ports: &[1, 2],
    ..ONE
};

const FIVE_LIMITED: Given<'static> = Given {
    max_links: Some(1),
    ports: &[1, 2, 3, 4, 5],
    ..TWO
};

const LONG: Given<'static> = Given {
    short: false,
    ..ONE
};

const CASES: [Case<'static>; 5] = [
    ("alone", ONE, &[&ALONE]),
    ("with a peer", PAIR, &[&BOTH_WAIT, &BOTH_ATTACH]),
    ("in ATTACHED", PAIR, &[&IN_ATTACHED]),
    ("no links", FIVE_LIMITED, &[&FIVE_PEERS, &THREE_OUT]),
    ("long timeout", LONG, &[&LONG_TIMEOUT]),
];

#[test]
fn ports_tell_why_they_do_not_distribute(rt: HostRuntime) -> Result<(), SystemFault> {
    plays_cases(&rt, rt.alloc(), &CASES)
}
