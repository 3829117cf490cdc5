use crate::systems::{
    Case, DATA, Given, ONE, PortFacts, Row, Side, TWO, config, end, lacpdu, mac, no_partner, plays,
    plays_cases, port_without_partner,
};
use bitflags::Flags;
use lagsystem::{
    AggId, Choice, Group, MuxState, PortStatus, ReceiveState, Received, State, SystemFault,
    WireFault,
};
use slowpdu::frame;

/// These octets, followed by zeros.
fn padded(head: &[u8]) -> [u8; 124] {
    let mut octets = [0; 124];
    for (place, octet) in octets.iter_mut().zip(head) {
        *place = *octet;
    }
    octets
}

/// A marker that names system 1 and its port 1, with two more octets after it.
fn marker_frame() -> [u8; 124] {
    padded(&[
        1, 0x80, 0xc2, 0, 0, 2, 2, 0, 0, 0, 0, 1, 0x88, 9, 2, 1, 1, 16, 0, 1, 2, 0, 0, 0, 0, 1,
        255, 255, 255, 255, 0xbe, 0xef,
    ])
}

/// The response of port 2 to that marker.
pub(crate) fn response_frame() -> [u8; 124] {
    padded(&[
        1, 0x80, 0xc2, 0, 0, 2, 2, 0, 0, 0, 0, 2, 0x88, 9, 2, 1, 2, 16, 0, 1, 2, 0, 0, 0, 0, 1,
        255, 255, 255, 255,
    ])
}

/// The LACPDU of a peer that has not heard the port comes on it.
const TAKES: Row<'static> = Row::Takes(1, Side::Of(2, 1, 1, 0x07), Side::Nobody(0));

/// The port answers it.
const ANSWERS: Row<'static> = Row::Sends(1, Side::Of(1, 1, 1, 0x07), Side::Of(2, 1, 1, 0x07));

/// Three answers are sent at once, and a fourth only when the first leaves the window.
const THREE_ANSWERS: [Row<'static>; 15] = [
    Row::Link(1, true),
    TAKES,
    ANSWERS,
    TAKES,
    ANSWERS,
    TAKES,
    ANSWERS,
    TAKES,
    Row::Due(1, false),
    Row::Silent(1),
    Row::Quiet(1, 10),
    Row::Ticks(1),
    Row::Due(1, true),
    ANSWERS,
    Row::Restart,
];

/// After a restart.
const ANEW: [Row<'static>; 4] = [
    Row::Silent(1),
    Row::Link(1, true),
    Row::Ticks(10),
    Row::Sends(1, Side::Of(1, 1, 1, 0xc7), Side::Nobody(0x02)),
];

#[test]
fn three_answers_then_the_window_then_a_restart(rt: HostRuntime) -> Result<(), SystemFault> {
    let fresh = [Row::Shows(1, port_without_partner(1))];
    let lists: [&[Row<'_>]; 4] = [&fresh, &THREE_ANSWERS, &fresh, &ANEW];
    plays_cases(&rt, rt.alloc(), &[("three answers", ONE, &lists)])
}

/// Two ports come up in aggregator 1; then the partner of port 1 has another key.
pub(crate) const OTHER_KEY: [Row<'static>; 15] = [
    Row::Links(&[1, 2]),
    Row::Hears(1, &DATA, Received::Dropped),
    Row::Takes(1, Side::Of(2, 1, 1, 0x0d), Side::Of(1, 1, 1, 0x07)),
    Row::Takes(2, Side::Of(2, 2, 1, 0x0d), Side::Of(1, 2, 1, 0x07)),
    Row::Ticks(19),
    Row::Distributing(1, &[]),
    Row::Hears(1, &DATA, Received::Dropped),
    Row::Ticks(1),
    Row::Distributing(1, &[1, 2]),
    Row::Hears(1, &DATA, Received::Up(AggId(1))),
    Row::Takes(1, Side::Of(2, 1, 2, 0x0d), Side::Of(1, 1, 1, 0x07)),
    Row::Distributing(1, &[2]),
    Row::Distributing(2, &[]),
    Row::Chosen(1, Choice::Selected(AggId(2))),
    Row::Mux(1, MuxState::Waiting),
];

const OWN_LACPDU: [Row<'static>; 13] = [
    Row::Link(1, true),
    Row::Takes(1, Side::Of(1, 1, 1, 0x07), Side::Nobody(0)),
    Row::Ticks(29),
    Row::Chosen(1, Choice::Unselected),
    Row::Distributing(1, &[]),
    Row::Ticks(30),
    Row::Defaulted(1, false),
    Row::Ticks(1),
    Row::Defaulted(1, true),
    Row::Ticks(19),
    Row::Distributing(1, &[]),
    Row::Ticks(1),
    Row::Distributing(1, &[1]),
];

#[test]
fn frames_that_change_nothing(rt: HostRuntime) -> Result<(), SystemFault> {
    let mut other = lacpdu(end(1, 1, 1, 0xc7), no_partner(0x02));
    other[0] = 3;
    let other = frame(mac(1), &other);
    let marker = marker_frame();
    let response = response_frame();
    let rows = [
        Row::Keeps(2, &DATA, Received::Disabled),
        Row::Link(2, true),
        Row::Keeps(2, &other, Received::Ignored(WireFault::OtherSubtype(3))),
        Row::Keeps(2, &marker, Received::Respond(response)),
        Row::Keeps(2, &response, Received::Released(0)),
    ];
    plays(
        &rt,
        rt.alloc(),
        config(rt.alloc(), &[2], 1)?,
        "frames",
        &rows,
    )
}

#[test]
fn a_port_is_given_another_key(rt: HostRuntime) -> Result<(), SystemFault> {
    let theirs = end(2, 1, 1, 0x07);
    let party = end(1, 1, 1, 0x04).party();
    let chosen = PortFacts {
        party: Some(party),
        partner: Some(theirs),
        group: Some(Group::of(&party, &theirs.party())),
        defaulted: Some(false),
        distributes: Some(false),
        choice: Some(Choice::Selected(AggId(1))),
        mux: Some(MuxState::Waiting),
        receive: Some(ReceiveState::Current),
        state: Some(State::from_bits_retain(0x07)),
        up: Some(true),
        due: Some(true),
        status: Some(PortStatus::Waiting(20)),
        current_while: Some(30),
        wait_while: Some(20),
        ntt: Some(true),
    };
    let again = PortFacts {
        partner: Some(no_partner(0x02)),
        receive: Some(ReceiveState::Expired),
        state: Some(State::from_bits_retain(0xc7)),
        up: Some(true),
        due: Some(true),
        status: Some(PortStatus::NoLacpdu),
        current_while: Some(30),
        // no row but that of WAITING sets this timer
        wait_while: Some(20),
        ntt: Some(true),
        ..port_without_partner(2)
    };
    let rows = [
        Row::Link(1, true),
        Row::Takes(1, Side::Of(2, 1, 1, 0x07), Side::Nobody(0)),
        Row::Shows(1, chosen),
        Row::Configures(1, 1, false),
        Row::Shows(1, chosen),
        Row::Configures(1, 2, true),
        Row::Shows(1, again),
        Row::Sends(1, Side::Of(1, 1, 2, 0xc7), Side::Nobody(0x02)),
    ];
    plays(
        &rt,
        rt.alloc(),
        config(rt.alloc(), &[1], 1)?,
        "another key",
        &rows,
    )
}

#[test]
fn a_port_that_is_not_there(rt: HostRuntime) -> Result<(), SystemFault> {
    let nothing = PortFacts::default();
    let rows = [
        Row::Unknown(0),
        Row::Unknown(2),
        Row::Unknown(4),
        Row::Shows(0, nothing),
        Row::Shows(2, nothing),
        Row::Shows(4, nothing),
        Row::Has(&[1, 3], 1),
        Row::Distributing(2, &[]),
    ];
    plays(
        &rt,
        rt.alloc(),
        config(rt.alloc(), &[1, 3], 1)?,
        "not there",
        &rows,
    )
}

/// A passive port without a partner: its periodic machine stays in NO_PERIODIC, in which NTT is clear.
const NO_PERIODIC: [Row<'static>; 7] = [
    Row::Link(1, true),
    Row::Quiet(1, 49),
    Row::Distributing(1, &[]),
    Row::Quiet(1, 1),
    Row::Distributing(1, &[1]),
    Row::Due(1, false),
    Row::Quiet(1, 20),
];

const PASSIVE: Given<'static> = Given {
    active: false,
    ..ONE
};

const CASES: [Case<'static>; 3] = [
    ("another key", TWO, &[&OTHER_KEY]),
    ("own system", ONE, &[&OWN_LACPDU]),
    ("no periodic", PASSIVE, &[&NO_PERIODIC]),
];

#[test]
fn frames_of_the_own_system_and_none(rt: HostRuntime) -> Result<(), SystemFault> {
    plays_cases(&rt, rt.alloc(), &CASES)
}
