use crate::systems::{Case, DATA, Given, ONE, Row, Side, config, joined, plays, plays_cases};
use lagsystem::{MuxState, PortStatus, SystemFault};

/// A port with Short Timeout, whose partner has Long Timeout, comes up: its periodic timer, then wait_while, then
/// current_while runs out first.
const ONE_COMES_UP: [Row<'static>; 24] = [
    Row::Waits(None),
    Row::Link(1, true),
    // Fast_Periodic_Time
    Row::Waits(Some(10)),
    Row::Ticks(9),
    Row::Waits(Some(1)),
    Row::Ticks(1),
    Row::Waits(Some(0)),
    Row::Sends(1, Side::Of(1, 1, 1, 0xc7), Side::Nobody(0x02)),
    Row::Waits(Some(10)),
    Row::Takes(1, Side::Of(2, 1, 1, 0x05), Side::Of(1, 1, 1, 0x07)),
    // Aggregate_Wait_Time, before 30 ticks of current_while and 300 of periodic_timer
    Row::Waits(Some(20)),
    Row::Ticks(19),
    Row::Waits(Some(1)),
    Row::Ticks(1),
    Row::Waits(Some(0)),
    Row::Sends(1, Side::Of(1, 1, 1, 0x0f), Side::Of(2, 1, 1, 0x05)),
    Row::Waits(Some(10)),
    Row::Takes(1, Side::Of(2, 1, 1, 0x05), Side::Of(1, 1, 1, 0x0f)),
    // Short_Timeout_Time
    Row::Waits(Some(30)),
    Row::Ticks(29),
    Row::Waits(Some(1)),
    // EXPIRED: the partner has Short Timeout, so an LACPDU is due
    Row::Ticks(1),
    Row::Waits(Some(0)),
    Row::Timers(1, 30, 0, true),
];

/// The peer says that it sees the port otherwise than it is, so that an LACPDU is due.
const OTHER_VIEW: Row<'static> = Row::Takes(1, Side::Of(2, 1, 1, 0x05), Side::Of(1, 1, 1, 0x0f));

/// That LACPDU is sent.
const SENT: Row<'static> = Row::Sends(1, Side::Of(1, 1, 1, 0x07), Side::Of(2, 1, 1, 0x05));

/// Three LACPDUs are sent; a fourth has to wait until the first of them leaves the window.
const THREE_ARE_SENT: [Row<'static>; 20] = [
    Row::Link(1, true),
    OTHER_VIEW,
    Row::Waits(Some(0)),
    SENT,
    Row::Waits(Some(20)),
    Row::Ticks(6),
    OTHER_VIEW,
    SENT,
    Row::Ticks(3),
    OTHER_VIEW,
    SENT,
    Row::Waits(Some(11)),
    // their ages are 9, 3 and 0
    OTHER_VIEW,
    Row::Waits(Some(2)),
    Row::Ticks(1),
    // 10, 4 and 1
    Row::Waits(Some(1)),
    Row::Silent(1),
    Row::Ticks(1),
    Row::Waits(Some(0)),
    SENT,
];

/// Two ports of one aggregator distribute, and hear their peer again.
const BOTH_DISTRIBUTE: [Row<'static>; 14] = [
    Row::Links(&[1, 2]),
    Row::Takes(1, Side::Of(2, 1, 1, 0x0d), Side::Of(1, 1, 1, 0x07)),
    Row::Takes(2, Side::Of(2, 2, 1, 0x0d), Side::Of(1, 2, 1, 0x07)),
    Row::Waits(Some(20)),
    Row::Ticks(20),
    Row::Distributing(1, &[1, 2]),
    Row::Waits(Some(0)),
    Row::Sends(1, Side::Of(1, 1, 1, 0x3f), Side::Of(2, 1, 1, 0x0d)),
    Row::Waits(Some(0)),
    Row::Sends(2, Side::Of(1, 2, 1, 0x3f), Side::Of(2, 2, 1, 0x0d)),
    Row::Waits(Some(10)),
    Row::Takes(1, Side::Of(2, 1, 1, 0x3d), Side::Of(1, 1, 1, 0x3f)),
    Row::Waits(Some(10)),
    Row::Takes(2, Side::Of(2, 2, 1, 0x3d), Side::Of(1, 2, 1, 0x3f)),
];

/// A conversation waits for the response to a marker, which never comes. Then both links go down.
const A_MARKER_IS_LOST: [Row<'static>; 25] = [
    Row::Waits(Some(30)),
    Row::Offers(1, &DATA, Ok(1)),
    Row::Waits(Some(30)),
    Row::Moves(1, 48, 2, Ok(())),
    Row::Waits(Some(0)),
    Row::Marks(1, 1),
    Row::Ticks(12),
    Row::Takes(1, Side::Of(2, 1, 1, 0x3d), Side::Of(1, 1, 1, 0x3f)),
    Row::Takes(2, Side::Of(2, 2, 1, 0x3d), Side::Of(1, 2, 1, 0x3f)),
    // at the 30th tick after the marker
    Row::Waits(Some(18)),
    Row::Ticks(17),
    Row::Waits(Some(1)),
    Row::Ticks(1),
    Row::Waits(Some(0)),
    Row::Marks(1, 2),
    // current_while
    Row::Waits(Some(12)),
    Row::Link(1, false),
    Row::Link(2, false),
    // Timers go on while the link is down: current_while has 12 ticks left, and periodic_timer 250.
    Row::Waits(Some(12)),
    Row::Ticks(12),
    Row::Waits(Some(238)),
    Row::Ticks(237),
    Row::Waits(Some(1)),
    Row::Ticks(1),
    Row::Waits(None),
];

const PAIR: Given<'static> = Given {
    ports: &[1, 2],
    ..ONE
};

const CASES: [Case<'static>; 3] = [
    ("one comes up", ONE, &[&ONE_COMES_UP]),
    ("the window", ONE, &[&THREE_ARE_SENT]),
    (
        "a marker is lost",
        PAIR,
        &[&BOTH_DISTRIBUTE, &A_MARKER_IS_LOST],
    ),
];

#[test]
fn the_first_timer_is_told(rt: HostRuntime) -> Result<(), SystemFault> {
    plays_cases(&rt, rt.alloc(), &CASES)
}

/// Port 2 hears one of two ports of the partner, in turn, as on a wire with a hub: this one.
const PORT_TWO_HEARS_PORT_2: Row<'static> = Row::Takes(
    2,
    Side::Of(2, 2, 1, 0x0d),
    Side::Of(1, 2, 1, 0x07),
);

/// Or the other one.
const PORT_TWO_HEARS_PORT_3: Row<'static> = Row::Takes(
    2,
    Side::Of(2, 3, 1, 0x0d),
    Side::Of(1, 2, 1, 0x07),
);

/// Port 1 is served as well as a port can be.
const PORT_ONE_IS_SERVED: Row<'static> = Row::Joins(2, &[1]);

const STARTS: [Row<'static>; 3] = [Row::Link(1, true), Row::Link(2, true), PORT_ONE_IS_SERVED];

/// Port 2 begins to wait anew, 19 ticks after it did before.
const STARVES: [Row<'static>; 9] = [
    PORT_ONE_IS_SERVED,
    PORT_TWO_HEARS_PORT_2,
    Row::Ticks(19),
    Row::Mux(1, MuxState::Waiting),
    PORT_ONE_IS_SERVED,
    PORT_TWO_HEARS_PORT_3,
    Row::Ticks(19),
    Row::Status(1, PortStatus::WaitingForMembers),
    Row::Distributing(1, &[]),
];

/// Port 2 rests for 20 ticks; then it goes on, and port 1 stays.
const COMES_UP: [Row<'static>; 10] = [
    PORT_ONE_IS_SERVED,
    PORT_TWO_HEARS_PORT_2,
    Row::Ticks(19),
    Row::Distributing(1, &[]),
    Row::Ticks(1),
    Row::Distributing(1, &[1, 2]),
    PORT_ONE_IS_SERVED,
    PORT_TWO_HEARS_PORT_3,
    Row::Ticks(19),
    Row::Distributing(1, &[1]),
];

#[test]
fn a_port_waits_for_another_that_begins_anew_for_ever(rt: HostRuntime) -> Result<(), SystemFault> {
    let mut rows = joined(rt.alloc(), &[&STARTS])?;
    for _ in 0..8 {
        rows.extend_from_slice(&STARVES)?;
    }
    rows.extend_from_slice(&COMES_UP)?;
    let given = config(rt.alloc(), &[1, 2], 1)?;
    plays(&rt, rt.alloc(), given, "one that begins anew", &rows)
}
