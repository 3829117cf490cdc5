mod modes;

ghost use Rattle.std.specs.Prelude.{◌≡◌, ◌∷◌, []};
ghost use Rattle.portmachines.specs.Window.{KeepsWindow, within_eleven};

use crate::comparing::{Place, same_in_case};
use bitflags::Flags;
use lagtypes::{AggId, Choice, Key, Party, PortId, State, SystemId};
use portmachines::{
    MuxState, PeriodicState, Port, ReceiveState, Setup, each_call_has_one_effect, window_holds,
};
use slowpdu::{Info, Lacpdu};
use std::process::Abort;

/// What a reader of a port returns.
#[derive(Clone, Copy, Debug, PartialEq)]
enum Fact {
    /// Actor_State.
    State(u8),
    /// Bits 3 to 5 of Actor_State.
    Carries(u8),
    Receive(ReceiveState),
    PeriodicIn(PeriodicState),
    MuxIn(MuxState),
    Ntt(bool),
    Enabled(bool),
    Defaulted(bool),
    Waited(bool),
    Distributes(bool),
    Chosen(Choice),
    OwnParty(Party),
    Partner(Info),
    /// The state of the partner.
    PartnerState(u8),
    CurrentWhile(u16),
    PeriodicTimer(u16),
    WaitWhile(u8),
    /// How many LACPDUs are in the window, and the ages of the first and of the last.
    Ages(usize, Option<u8>, Option<u8>),
}

/// A call of a port, or several, with the expected result; or an expected value of a variable.
#[derive(Clone, Copy)]
enum Step {
    Link(bool),
    Periodic,
    /// `tick`, once.
    Tick,
    /// `tick` and `periodic`, this many times.
    Run(u16),
    /// `tick` and `periodic`, this many times; each time `transmit(0)` returns None.
    Quiet(u16),
    /// The port gets an LACPDU of system 2 with this Actor_State and a Partner that is all zero.
    Take(u8),
    /// The port gets an LACPDU of system 2 with this Actor_State and this Partner.
    Told(u8, Info),
    /// The port gets an LACPDU with this Actor and Partner, and a CollectorMaxDelay of 27.
    Heard(Info, Info),
    Select(Choice),
    Reinit(Party),
    /// `set_mode`: active, and short.
    Mode(bool, bool),
    /// `mux` with this Ready returns this number of rows.
    Mux(bool, u8),
    /// Whether the rows that `mux` fires with this Ready set NTT to true, after it was false.
    Asks(bool, bool),
    /// `transmit(0)` returns an LACPDU with this Actor_State, or None.
    Sends(Option<u8>),
    /// `transmit` with this delay returns this LACPDU.
    SendsAll(u16, Lacpdu),
    /// A reader returns this.
    Is(Fact),
}

fn end(system: u8, state: u8) -> Info {
    Info {
        system: SystemId {
            priority: 32768,
            mac: [2, 0, 0, 0, 0, system],
        },
        key: Key(1),
        port: PortId {
            priority: 128,
            number: 1,
        },
        state: State::from_bits_retain(state),
    }
}

fn zero(state: u8) -> Info {
    Info {
        state: State::from_bits_retain(state),
        ..Info::default()
    }
}

fn party(key: u16) -> Party {
    let end = end(1, 0);
    Party {
        system: end.system,
        key: Key(key),
        port: end.port,
        aggregatable: true,
    }
}

fn port(active: bool, short: bool) -> Port {
    Port::new(Setup {
        party: party(1),
        active,
        short,
    })
}

fn run(port: &mut Port, ticks: u16) {
    for _tick in 0..ticks {
        port.tick();
        port.periodic();
    }
}

/// How many ticks, at most this many, pass before an LACPDU is sent.
fn quiet(port: &mut Port, ticks: u16) -> u16 {
    for tick in 0..ticks {
        run(port, 1);
        if port.transmit(0).is_some() {
            return tick;
        }
    }
    ticks
}

/// Whether the mux rows that fire set NTT to true, after it was false.
fn asks(port: &mut Port, ready: bool) -> bool {
    run(port, 11);
    let _sent = port.transmit(0);
    let before = port.ntt();
    let _fired = port.mux(ready);
    port.ntt() && !before
}

/// What the reader that a fact names returns.
fn read(port: &Port, fact: Fact) -> Fact {
    match fact {
        Fact::State(_) => Fact::State(port.state().bits()),
        Fact::Carries(_) => Fact::Carries(port.state().bits() & 0x38),
        Fact::Receive(_) => Fact::Receive(port.receive_state()),
        Fact::PeriodicIn(_) => Fact::PeriodicIn(port.periodic_state()),
        Fact::MuxIn(_) => Fact::MuxIn(port.mux_state()),
        Fact::Ntt(_) => Fact::Ntt(port.ntt()),
        Fact::Enabled(_) => Fact::Enabled(port.is_enabled()),
        Fact::Defaulted(_) => Fact::Defaulted(port.is_defaulted()),
        Fact::Waited(_) => Fact::Waited(port.has_waited()),
        Fact::Distributes(_) => Fact::Distributes(port.distributes()),
        Fact::Chosen(_) => Fact::Chosen(port.choice()),
        Fact::OwnParty(_) => Fact::OwnParty(port.party()),
        Fact::Partner(_) => Fact::Partner(port.partner()),
        Fact::PartnerState(_) => Fact::PartnerState(port.partner().state.bits()),
        Fact::CurrentWhile(_) => Fact::CurrentWhile(port.current_while()),
        Fact::PeriodicTimer(_) => Fact::PeriodicTimer(port.periodic_timer()),
        Fact::WaitWhile(_) => Fact::WaitWhile(port.wait_while()),
        Fact::Ages(..) => {
            let ages = port.ages();
            let all = ages.as_slice();
            Fact::Ages(all.len(), all.first().copied(), all.last().copied())
        }
    }
}

/// Makes a call that returns something, and compares the result with what the step says; or else looks at a variable.
fn answers(rt: &impl Abort, place: Place<'_>, port: &mut Port, step: Step) {
    match step {
        Step::Quiet(ticks) => same_in_case(rt, place, &quiet(port, ticks), &ticks),
        Step::Mux(ready, rows) => same_in_case(rt, place, &port.mux(ready), &rows),
        Step::Asks(ready, asked) => same_in_case(rt, place, &asks(port, ready), &asked),
        Step::Sends(state) => {
            let sent = port.transmit(0).map(|pdu| pdu.actor.state.bits());
            same_in_case(rt, place, &sent, &state);
        }
        Step::SendsAll(delay, pdu) => same_in_case(rt, place, &port.transmit(delay), &Some(pdu)),
        Step::Is(fact) => same_in_case(rt, place, &read(port, fact), &fact),
        _ => {}
    }
}

/// Does a step.
fn does(rt: &impl Abort, place: Place<'_>, port: &mut Port, step: Step) {
    match step {
        Step::Link(enabled) => port.set_link(enabled),
        Step::Periodic => port.periodic(),
        Step::Tick => port.tick(),
        Step::Run(ticks) => run(port, ticks),
        Step::Take(state) => port.take(&saying(state, zero(0))),
        Step::Told(state, partner) => port.take(&saying(state, partner)),
        Step::Heard(actor, partner) => port.take(&Lacpdu {
            actor,
            partner,
            max_delay: 27,
        }),
        Step::Select(choice) => port.select(choice),
        Step::Reinit(party) => port.reinit(party),
        Step::Mode(active, short) => port.set_mode(active, short),
        _ => answers(rt, place, port, step),
    }
}

fn walk(rt: &impl Abort, case: &str, mut port: Port, steps: &[Step]) {
    for (place, step) in steps.iter().enumerate() {
        does(rt, (case, place), &mut port, *step);
    }
}

const ALONE: [Step; 17] = [
    Step::Periodic,
    Step::Link(true),
    Step::Periodic,
    Step::Run(9),
    Step::Sends(None),
    Step::Run(1),
    Step::Sends(Some(0xc7)),
    Step::Run(20),
    Step::Is(Fact::Receive(ReceiveState::Defaulted)),
    Step::Is(Fact::State(0x47)),
    Step::Select(Choice::Selected(AggId(1))),
    Step::Mux(true, 3),
    Step::Is(Fact::State(0x7f)),
    Step::Select(Choice::Unselected),
    Step::Mux(false, 2),
    Step::Mux(false, 0),
    Step::Is(Fact::State(0x47)),
];

const PASSIVE: [Step; 9] = [
    Step::Link(true),
    Step::Periodic,
    Step::Run(10),
    Step::Is(Fact::PeriodicIn(PeriodicState::NoPeriodic)),
    Step::Sends(None),
    Step::Take(0x07),
    Step::Periodic,
    Step::Is(Fact::PeriodicIn(PeriodicState::Fast)),
    Step::Sends(Some(0x06)),
];

const LONG: [Step; 24] = [
    Step::Take(0x05),
    Step::Is(Fact::Receive(ReceiveState::PortDisabled)),
    Step::Link(true),
    Step::Take(0x05),
    Step::Select(Choice::Selected(AggId(1))),
    Step::Periodic,
    Step::Is(Fact::PeriodicIn(PeriodicState::Slow)),
    Step::Sends(Some(0x05)),
    Step::Quiet(299),
    Step::Run(1),
    Step::Sends(Some(0x05)),
    Step::Run(599),
    Step::Is(Fact::Receive(ReceiveState::Current)),
    Step::Is(Fact::State(0x05)),
    Step::Run(1),
    Step::Is(Fact::Receive(ReceiveState::Expired)),
    Step::Is(Fact::State(0x85)),
    Step::Run(29),
    Step::Is(Fact::Receive(ReceiveState::Expired)),
    Step::Is(Fact::Chosen(Choice::Selected(AggId(1)))),
    Step::Run(1),
    Step::Is(Fact::Receive(ReceiveState::Defaulted)),
    Step::Is(Fact::Chosen(Choice::Unselected)),
    Step::Is(Fact::State(0x45)),
];

const FULL: [Step; 14] = [
    Step::Periodic,
    Step::Link(true),
    Step::Take(0x07),
    Step::Sends(Some(0x07)),
    Step::Take(0x07),
    Step::Sends(Some(0x07)),
    Step::Take(0x07),
    Step::Sends(Some(0x07)),
    Step::Take(0x07),
    Step::Sends(None),
    Step::Is(Fact::Ntt(true)),
    Step::Quiet(10),
    Step::Run(1),
    Step::Sends(Some(0x07)),
];

const ATTACHED: [Step; 8] = [
    Step::Link(true),
    Step::Take(0x07),
    Step::Select(Choice::Selected(AggId(1))),
    Step::Mux(true, 2),
    Step::Is(Fact::State(0x0f)),
    Step::Select(Choice::Unselected),
    Step::Mux(true, 1),
    Step::Is(Fact::State(0x07)),
];

#[test]
fn a_new_port(rt: HostRuntime) {
    let steps = [
        Step::Is(Fact::Ntt(true)),
        Step::Is(Fact::Enabled(false)),
        Step::Is(Fact::Defaulted(true)),
        Step::Is(Fact::Waited(true)),
        Step::Is(Fact::Partner(zero(0))),
        Step::Is(Fact::Receive(ReceiveState::PortDisabled)),
        Step::Is(Fact::MuxIn(MuxState::Detached)),
        Step::Is(Fact::PeriodicIn(PeriodicState::NoPeriodic)),
        Step::Is(Fact::CurrentWhile(0)),
        Step::Is(Fact::PeriodicTimer(0)),
        Step::Is(Fact::WaitWhile(0)),
        Step::Is(Fact::Ages(0, None, None)),
        Step::Periodic,
        Step::Is(Fact::Ntt(false)),
        // an LACPDU while the link is down
        Step::Told(0x07, end(1, 0x06)),
        Step::Is(Fact::Ntt(false)),
        Step::Is(Fact::Partner(zero(0))),
    ];
    walk(&rt, "a new port", port(true, true), &steps);
}

/// A port whose link came up ten ticks ago.
fn port_after_a_second() -> Port {
    let mut port = quiet_port(true, true);
    run(&mut port, 10);
    port
}

const SELECTED: Choice = Choice::Selected(AggId(1));

#[test]
fn readers_and_another_party(rt: HostRuntime) {
    let due = Lacpdu {
        actor: end(1, 0xc7),
        partner: zero(2),
        max_delay: 0,
    };
    let steps = [
        Step::SendsAll(0, due),
        Step::Run(2),
        Step::Is(Fact::Ages(1, Some(2), Some(2))),
        Step::Select(SELECTED),
        Step::Mux(false, 1),
        // in WAITING
        Step::Is(Fact::Ntt(false)),
        Step::Is(Fact::State(0xc7)),
        Step::Is(Fact::Chosen(SELECTED)),
    ];
    walk(&rt, "the readers of a port", port_after_a_second(), &steps);
    let steps = [
        Step::Sends(Some(0xc7)),
        Step::Run(2),
        Step::Select(SELECTED),
        Step::Mux(false, 1),
        Step::Reinit(party(2)),
        Step::Is(Fact::OwnParty(party(2))),
        Step::Is(Fact::Chosen(Choice::Unselected)),
        Step::Is(Fact::Receive(ReceiveState::Expired)),
        Step::Is(Fact::Ages(1, Some(2), Some(2))),
        Step::Is(Fact::Enabled(true)),
        Step::Is(Fact::MuxIn(MuxState::Detached)),
        Step::Is(Fact::Distributes(false)),
    ];
    walk(
        &rt,
        "another party starts the machines again",
        port_after_a_second(),
        &steps,
    );
}

/// A party in which no two parameters are equal.
const DISTINCT: Party = Party {
    system: SystemId {
        priority: 4113,
        mac: [2, 3, 4, 5, 6, 7],
    },
    key: Key(8),
    port: PortId {
        priority: 9,
        number: 10,
    },
    aggregatable: false,
};

/// What the peer of that party says of itself.
fn distinct_peer() -> Info {
    Info {
        system: SystemId {
            priority: 8225,
            mac: [0x12, 0x13, 0x14, 0x15, 0x16, 0x17],
        },
        key: Key(24),
        port: PortId {
            priority: 25,
            number: 26,
        },
        state: State::from_bits_retain(0x06),
    }
}

#[test]
fn each_field_of_an_lacpdu_has_its_source(rt: HostRuntime) {
    let port = Port::new(Setup {
        party: DISTINCT,
        active: true,
        short: false,
    });
    let due = Lacpdu {
        actor: Info {
            system: DISTINCT.system,
            key: DISTINCT.key,
            port: DISTINCT.port,
            state: State::from_bits_retain(0x01),
        },
        partner: distinct_peer(),
        max_delay: 28,
    };
    let steps = [
        Step::Link(true),
        Step::Take(0x07),
        Step::Heard(distinct_peer(), zero(0)),
        Step::Periodic,
        Step::SendsAll(28, due),
    ];
    walk(&rt, "each field of an lacpdu has its source", port, &steps);
}

/// An LACPDU of system 2 with this Actor_State and this Partner information.
fn saying(actor: u8, partner: Info) -> Lacpdu {
    Lacpdu {
        actor: end(2, actor),
        partner,
        max_delay: 0,
    }
}

/// A port whose link is up and that has no LACPDU to send.
fn quiet_port(active: bool, short: bool) -> Port {
    let mut port = port(active, short);
    port.periodic();
    port.set_link(true);
    port.periodic();
    port
}

#[test]
fn what_is_told_of_the_port_is_compared(rt: HostRuntime) {
    let other_key = Info {
        key: Key(2),
        ..end(1, 0x07)
    };
    let rows = [
        (end(1, 0x07), false),
        (end(1, 0xf7), false),
        (end(1, 0x06), true),
        (end(1, 0x05), true),
        (end(1, 0x0f), true),
        (end(1, 0x03), true),
        (other_key, true),
    ];
    for (told, ntt) in &rows {
        let steps = [Step::Told(0x07, *told), Step::Is(Fact::Ntt(*ntt))];
        walk(
            &rt,
            "what is told of the port is compared",
            quiet_port(true, true),
            &steps,
        );
    }
}

/// A port that is active or not records this state of a partner that says the first octet of itself and this of the port.
fn records(rt: &impl Abort, active: bool, actor: u8, told: Info, recorded: u8) {
    let steps = [
        Step::Told(actor, told),
        Step::Is(Fact::PartnerState(recorded)),
    ];
    walk(rt, "records", quiet_port(active, true), &steps);
}

#[test]
fn what_is_recorded_of_synchronization(rt: HostRuntime) {
    // the partner is active, and names the port
    records(&rt, true, 0x0d, end(1, 0x07), 0x0d);
    // it names another port
    records(&rt, true, 0x0d, zero(0x01), 0x05);
    // on an Individual link it need not name the port
    records(&rt, true, 0x09, zero(0x01), 0x09);
    // it is passive: both the port and the LACPDU's Partner information have to be active
    records(&rt, true, 0x0c, end(1, 0x07), 0x0c);
    records(&rt, true, 0x0c, end(1, 0x06), 0x04);
    records(&rt, false, 0x0c, end(1, 0x07), 0x04);
    // it is active: the port need not be
    records(&rt, false, 0x0d, end(1, 0x06), 0x0d);
    // every bit but Synchronization is recorded as it came
    records(&rt, true, 0xff, end(1, 0x07), 0xff);
    records(&rt, true, 0xf5, end(1, 0x07), 0xf5);
}

const STANDBY: Choice = Choice::Standby(AggId(1));

/// A port that is in this state becomes STANDBY: this many rows fire, and it comes to WAITING.
fn becomes_standby(rt: &impl Abort, port: Port, from: MuxState, rows: u8) {
    let steps = [
        Step::Is(Fact::MuxIn(from)),
        Step::Select(STANDBY),
        Step::Mux(true, rows),
        Step::Is(Fact::MuxIn(MuxState::Waiting)),
        Step::Is(Fact::Carries(0)),
        Step::Is(Fact::Chosen(STANDBY)),
    ];
    walk(rt, "becomes standby", port, &steps);
}

/// A port that has heard this Actor_State.
fn hearing_port(state: u8) -> Port {
    let mut port = quiet_port(true, true);
    port.take(&saying(state, end(1, 0x07)));
    port
}

/// A port that has heard an LACPDU with this Actor_State and is SELECTED. `mux` was called with this Ready.
fn selected_port(state: u8, ready: bool) -> Port {
    let mut port = hearing_port(state);
    port.select(SELECTED);
    let _fired = port.mux(ready);
    port
}

/// From each state: how many rows fire, and where they lead.
#[test]
fn a_port_on_standby_waits(rt: HostRuntime) {
    becomes_standby(&rt, hearing_port(0x07), MuxState::Detached, 1);
    let waiting = selected_port(0x07, false);
    becomes_standby(&rt, waiting, MuxState::Waiting, 0);
    let attached = selected_port(0x07, true);
    becomes_standby(&rt, attached, MuxState::Attached, 2);
    let distributing = selected_port(0x0f, true);
    becomes_standby(&rt, distributing, MuxState::CollectingDistributing, 3);
}

/// A STANDBY port waits for wait_while as a SELECTED one does, and stays in WAITING until it is SELECTED.
const PROMOTED: [Step; 15] = [
    Step::Select(STANDBY),
    Step::Mux(false, 1),
    Step::Is(Fact::WaitWhile(20)),
    Step::Run(20),
    Step::Is(Fact::Waited(true)),
    // no row fires while it is STANDBY
    Step::Mux(true, 0),
    Step::Select(SELECTED),
    // nor while it is not Ready
    Step::Mux(false, 0),
    Step::Mux(true, 1),
    Step::Is(Fact::MuxIn(MuxState::Attached)),
    Step::Select(STANDBY),
    // by way of DETACHED
    Step::Asks(true, true),
    Step::Select(Choice::Unselected),
    Step::Mux(true, 1),
    Step::Is(Fact::MuxIn(MuxState::Detached)),
];

/// The information six times, each time with another one of its six parameters changed.
fn with_one_changed(end: Info) -> [Info; 6] {
    let mut ends = [end; 6];
    ends[0].system.priority = 4113;
    ends[1].system.mac = [2, 0, 0, 0, 1, 9];
    ends[2].key = Key(8);
    ends[3].port.priority = 9;
    ends[4].port.number = 10;
    ends[5].state = State::from_bits_retain(end.state.bits() & 0xfb);
    ends
}

/// A SELECTED port stays so while its partner says the same of itself, and becomes UNSELECTED when it says this.
fn notices(rt: &impl Abort, actor: Info) {
    let steps = [
        Step::Select(SELECTED),
        Step::Told(0x3f, end(1, 0x07)),
        Step::Is(Fact::Chosen(SELECTED)),
        Step::Heard(actor, end(1, 0x07)),
        Step::Is(Fact::Chosen(Choice::Unselected)),
        Step::Is(Fact::Partner(actor)),
    ];
    walk(rt, "notices", hearing_port(0x07), &steps);
}

#[test]
fn each_parameter_of_both_ends_is_compared(rt: HostRuntime) {
    for told in &with_one_changed(end(1, 0x07)) {
        let steps = [
            Step::Told(0x0d, *told),
            Step::Is(Fact::Ntt(true)),
            Step::Is(Fact::PartnerState(0x05)),
        ];
        walk(
            &rt,
            "each parameter of the port is compared",
            quiet_port(true, true),
            &steps,
        );
    }
    for actor in &with_one_changed(end(2, 0x07)) {
        notices(&rt, *actor);
    }
}

#[test]
fn timers_count_and_what_is_asked_stays_asked(rt: HostRuntime) {
    let steps = [
        Step::Select(SELECTED),
        Step::Mux(false, 1),
        Step::Is(Fact::CurrentWhile(30)),
        Step::Is(Fact::PeriodicTimer(10)),
        Step::Is(Fact::WaitWhile(20)),
        // the link is up as before
        Step::Link(true),
        Step::Is(Fact::CurrentWhile(30)),
        Step::Is(Fact::PeriodicTimer(10)),
        Step::Is(Fact::WaitWhile(20)),
        Step::Tick,
        Step::Is(Fact::CurrentWhile(29)),
        Step::Is(Fact::PeriodicTimer(9)),
        Step::Is(Fact::WaitWhile(19)),
        // on defaults
        Step::Run(29),
        Step::Is(Fact::CurrentWhile(0)),
        Step::Is(Fact::PeriodicTimer(300)),
        Step::Is(Fact::WaitWhile(0)),
        Step::Is(Fact::Partner(zero(0x08))),
    ];
    walk(
        &rt,
        "each timer counts by itself",
        quiet_port(true, true),
        &steps,
    );
    let steps = [
        Step::Told(0x07, end(1, 0x06)),
        Step::Told(0x07, end(1, 0x07)),
        Step::Is(Fact::Ntt(true)),
    ];
    walk(
        &rt,
        "what is asked stays asked",
        quiet_port(true, true),
        &steps,
    );
}

#[test]
fn mux_rows_ask_and_a_start_while_the_link_is_down(rt: HostRuntime) {
    let steps = [
        Step::Told(0x05, end(1, 0x07)),
        Step::Select(SELECTED),
        // to WAITING
        Step::Asks(false, false),
        Step::Select(Choice::Unselected),
        // from WAITING to DETACHED
        Step::Asks(false, true),
        Step::Select(SELECTED),
        // to ATTACHED
        Step::Asks(true, true),
        Step::Select(Choice::Unselected),
        // from ATTACHED to DETACHED
        Step::Asks(false, true),
    ];
    walk(
        &rt,
        "each mux row but the first asks",
        quiet_port(true, true),
        &steps,
    );
    let mut other = party(8);
    other.port.priority = 9;
    other.aggregatable = false;
    let steps = [
        // in EXPIRED
        Step::Run(30),
        Step::Is(Fact::State(0x87)),
        Step::Is(Fact::Partner(end(2, 0x07))),
        Step::Link(false),
        Step::Reinit(other),
        Step::Is(Fact::OwnParty(other)),
        Step::Is(Fact::State(0x43)),
        Step::Is(Fact::Partner(zero(0))),
        Step::Is(Fact::PeriodicTimer(10)),
    ];
    walk(
        &rt,
        "a start while the link is down",
        hearing_port(0x0d),
        &steps,
    );
}

/// A port hears this Actor_State, and this many ticks later it is SELECTED and its link goes down; then the partner has
/// this recorded state.
fn goes_down(rt: &impl Abort, actor: u8, ticks: u16, recorded: u8) {
    let steps = [
        Step::Run(ticks),
        Step::Select(SELECTED),
        Step::Periodic,
        Step::Link(false),
        Step::Periodic,
        Step::Is(Fact::PartnerState(recorded)),
        Step::Is(Fact::Receive(ReceiveState::PortDisabled)),
        Step::Is(Fact::PeriodicIn(PeriodicState::NoPeriodic)),
        Step::Is(Fact::Chosen(SELECTED)),
        // its mux machine goes on, to ATTACHED
        Step::Mux(true, 2),
    ];
    walk(rt, "goes down", hearing_port(actor), &steps);
}

#[test]
fn a_link_that_goes_down(rt: HostRuntime) {
    goes_down(&rt, 0x0d, 0, 0x05);
    goes_down(&rt, 0x0f, 0, 0x07);
    goes_down(&rt, 0x0f, 30, 0x07);
    goes_down(&rt, 0x0f, 60, 0x00);
}

const AGES: [Step; 6] = [
    Step::Take(0x07),
    Step::Sends(Some(0x07)),
    Step::Run(3),
    Step::Take(0x07),
    Step::Sends(Some(0x07)),
    Step::Is(Fact::Ages(2, Some(3), Some(0))),
];

#[test]
fn ports_walk_through_their_states(rt: HostRuntime) {
    let cases: [(&str, Port, &[Step]); 7] = [
        ("alone", port(true, true), &ALONE),
        ("passive", port(false, true), &PASSIVE),
        ("long timeouts", port(true, false), &LONG),
        ("a full window", port(true, true), &FULL),
        ("attached", port(true, true), &ATTACHED),
        ("promoted", hearing_port(0x07), &PROMOTED),
        ("ages", quiet_port(true, true), &AGES),
    ];
    for (case, port, steps) in cases {
        walk(&rt, case, port, steps);
    }
}

/// Eleven ticks that begin with tick 0 end with tick 10.
fn values_of_the_window()
    ensures last { within_eleven 0 (0 ∷ 0 ∷ 0 ∷ 10 ∷ []) ≡ 4 }
    ensures beyond { within_eleven 0 (0 ∷ 0 ∷ 0 ∷ 11 ∷ []) ≡ 3 }
    ensures earlier { within_eleven 2 (1 ∷ 2 ∷ 12 ∷ 13 ∷ []) ≡ 2 }
    ensures kept { KeepsWindow (0 ∷ 0 ∷ 0 ∷ 10 ∷ []) → ⊥ }
{}

#[test]
fn the_laws_are_called_and_eleven_ticks_counted(_rt: HostRuntime) {
    window_holds();
    each_call_has_one_effect();
    values_of_the_window();
}
