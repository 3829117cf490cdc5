use crate::of_portmachines::{Fact, Step, end, port_after_a_second, quiet_port, walk};
use portmachines::{PeriodicState, ReceiveState};

const MODES: [Step; 19] = [
    Step::Sends(Some(0xc7)),
    // active and short, as before
    Step::Mode(true, true),
    Step::Is(Fact::Ntt(false)),
    Step::Mode(true, false),
    Step::Is(Fact::Ntt(true)),
    Step::Is(Fact::CurrentWhile(20)),
    Step::Sends(Some(0xc5)),
    Step::Mode(false, false),
    Step::Sends(Some(0xc4)),
    // three were sent
    Step::Mode(false, true),
    Step::Sends(None),
    Step::Is(Fact::State(0xc6)),
    // the next LACPDU starts current_while with the time that is set
    Step::Mode(false, false),
    Step::Take(0x05),
    Step::Is(Fact::CurrentWhile(900)),
    Step::Mode(false, true),
    Step::Is(Fact::CurrentWhile(900)),
    Step::Take(0x05),
    Step::Is(Fact::CurrentWhile(30)),
];

/// A port in CURRENT whose partner was told Short Timeout, and sends again 30 s after it is told Long Timeout.
fn longer() -> [Step; 13] {
    [
        Step::Told(0x3f, end(1, 0x07)),
        Step::Run(28),
        Step::Is(Fact::CurrentWhile(2)),
        // not by another LACP_Activity
        Step::Mode(false, true),
        Step::Is(Fact::CurrentWhile(2)),
        Step::Mode(false, false),
        Step::Is(Fact::CurrentWhile(900)),
        Step::Run(899),
        Step::Is(Fact::Receive(ReceiveState::Current)),
        Step::Run(1),
        Step::Is(Fact::Receive(ReceiveState::Expired)),
        // the short time, in EXPIRED
        Step::Mode(false, true),
        Step::Is(Fact::CurrentWhile(30)),
    ]
}

/// In EXPIRED the timer goes on, whichever Timeout follows.
fn expired() -> [Step; 5] {
    [
        Step::Told(0x3f, end(1, 0x07)),
        Step::Run(37),
        Step::Is(Fact::Receive(ReceiveState::Expired)),
        Step::Mode(true, false),
        Step::Is(Fact::CurrentWhile(23)),
    ]
}

#[test]
fn modes_are_told_and_timers_run_by_whose_timeout(rt: HostRuntime) {
    walk(&rt, "modes", port_after_a_second(), &MODES);
    walk(&rt, "modes", quiet_port(true, true), &longer());
    walk(&rt, "modes", quiet_port(true, true), &expired());
    let known = end(1, 0x07);
    walk(
        &rt,
        "modes",
        quiet_port(true, true),
        &[Step::Told(0x05, known), Step::Is(Fact::CurrentWhile(30))],
    );
    walk(
        &rt,
        "modes",
        quiet_port(true, false),
        &[Step::Told(0x07, known), Step::Is(Fact::CurrentWhile(900))],
    );
    let steps = [
        Step::Told(0x05, known),
        Step::Periodic,
        Step::Is(Fact::PeriodicIn(PeriodicState::Slow)),
        Step::Told(0x07, known),
        Step::Periodic,
        Step::Is(Fact::PeriodicIn(PeriodicState::Fast)),
        Step::Is(Fact::PeriodicTimer(10)),
    ];
    walk(&rt, "modes", quiet_port(true, true), &steps);
}
