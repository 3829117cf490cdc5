use crate::comparing::same_at;
use crate::worlds::given::{ONE_SHORT, TWO_SHORT, modulo};
use crate::worlds::playing::{plays_lines, runs_lines, world_of};
use crate::worlds::starts::ONE_CABLE;
use crate::worlds::{After, Row, play_after, plays, runs, tells};
use lagtypes::NoMemory;
use lagworld::{Agreement, WorldFault};
use std::alloc::Global;

/// Two cables come up between ports with Short Timeout, and each end hears the other five times (6.4.13, 6.4.15).
const UP: &str = "sense 1 1 => Sensed(true)
sense 1 2 => Sensed(true)
sense 2 1 => Sensed(true)
sense 2 2 => Sensed(true)
tick 1 10 => Ticked
tick 2 10 => Ticked
emit 1 1 => lacpdu c7
deliver 1 2 => Took
emit 1 2 => lacpdu c7
deliver 2 2 => Took
emit 2 1 => lacpdu 07
deliver 1 1 => Took
emit 2 2 => lacpdu 07
deliver 2 1 => Took
tick 1 10 => Ticked
tick 2 10 => Ticked
emit 1 1 => lacpdu 07
deliver 1 2 => Took
emit 1 2 => lacpdu 07
deliver 2 2 => Took
emit 2 1 => lacpdu 07
deliver 1 1 => Took
emit 2 2 => lacpdu 07
deliver 2 1 => Took
tick 1 10 => Ticked
tick 2 10 => Ticked
emit 1 1 => lacpdu 0f
deliver 1 2 => Took
emit 1 2 => lacpdu 0f
deliver 2 2 => Took
emit 2 1 => lacpdu 3f
deliver 1 1 => Took
emit 2 2 => lacpdu 3f
deliver 2 1 => Took
tick 1 10 => Ticked
tick 2 10 => Ticked
emit 1 1 => lacpdu 3f
deliver 1 2 => Took
emit 1 2 => lacpdu 3f
deliver 2 2 => Took
emit 2 1 => lacpdu 3f
deliver 1 1 => Took
emit 2 2 => lacpdu 3f
deliver 2 1 => Took
tick 1 10 => Ticked
tick 2 10 => Ticked
emit 1 1 => lacpdu 3f
deliver 1 2 => Took
emit 1 2 => lacpdu 3f
deliver 2 2 => Took
emit 2 1 => lacpdu 3f
deliver 1 1 => Took
emit 2 2 => lacpdu 3f
deliver 2 1 => Took
";

/// Between ports with Short Timeout that distribute.
const BOTH_UP: [After; 4] = [
    // A dropped frame is not collected.
    (
        "offer 1 1 0200000000200200000000100800 => port 1 serial 0
configure 2 1 2 128 aggregatable => Configured(true)
deliver 1 2 => Dropped
",
        "cable 1 => Some(NotBoth)
cable 2 => Some(Same)
flow 1 1 48 => 1 []
",
    ),
    // A conversation of system 2 moves.
    (
        "offer 2 1 0200000000200200000000100800 => port 1 serial 0
deliver 1 1 => Up(AggId(1))
move 2 1 48 2 => Moved
emit 2 1 => Marker(1, true)
deliver 1 1 => Responded(true)
deliver 1 2 => Released(1)
",
        "cable 1 => Some(Same)
cable 2 => Some(Same)
flow 2 1 48 => 1 [0]
",
    ),
    // Another priority is a change.
    (
        "configure 1 1 1 129 aggregatable => Configured(true)
configure 1 1 1 128 aggregatable => Configured(true)
",
        "cable 1 => Some(NotBoth)
cable 2 => Some(Same)
",
    ),
    // One response releases two conversations.
    (
        "offer 1 1 0200000000200200000000100800 => port 1 serial 0
offer 1 1 0200000000220200000000100800 => port 1 serial 0
move 1 1 48 2 => Moved
move 1 1 50 2 => Moved
emit 1 1 => Marker(1, true)
deliver 1 2 => Up(AggId(1))
deliver 1 2 => Up(AggId(1))
deliver 1 2 => Responded(true)
deliver 1 1 => Released(2)
",
        "cable 1 => Some(Same)
cable 2 => Some(Same)
flow 1 1 48 => 1 [0]
flow 1 1 50 => 1 [0]
",
    ),
];

#[test]
fn what_either_system_does(rt: HostRuntime) -> Result<(), WorldFault> {
    play_after(&rt, rt.alloc(), (TWO_SHORT, UP), &BOTH_UP)
}

const RESPONSE_LOST_ROW: Row = Row {
    setting: TWO_SHORT,
    first: UP,
    rest: "offer 1 1 0200000000200200000000100800 => port 1 serial 0
deliver 1 2 => Up(AggId(1))
move 1 1 48 2 => Moved
offer 2 1 0200000000100200000000200800 => port 1 serial 0
emit 1 1 => Marker(1, true)
deliver 1 2 => Responded(false)
deliver 1 1 => Up(AggId(1))
",
    told: "cable 1 => Some(Same)
cable 2 => Some(Same)
flow 1 1 48 => 1 [0]
flow 2 1 48 => 1 [0]
",
};

#[test]
fn a_full_cable_hands_back_a_response(rt: HostRuntime) -> Result<(), WorldFault> {
    runs(&rt, rt.alloc(), &RESPONSE_LOST_ROW, Some(1), 0)
}

/// An LACPDU of either system says which change of its port it knows of.
const STAMPED_ROW: Row = Row {
    setting: TWO_SHORT,
    first: "configure 2 1 1 127 aggregatable => Configured(true)
configure 1 2 1 126 aggregatable => Configured(true)
",
    rest: UP,
    told: "cable 1 => Some(Same)
cable 2 => Some(Same)
",
};

#[test]
fn an_lacpdu_has_the_change_count_of_its_own_port(rt: HostRuntime) -> Result<(), WorldFault> {
    plays(&rt, rt.alloc(), &STAMPED_ROW)
}

/// A port of one cable that carries gets another value, and its own again, while an LACPDU that names its own is on the cable: equal
/// values are not enough to agree. The system of the port, the other one, and the values.
const CHANGED: [(u8, u8, &str); 4] = [
    (1, 2, "2 128 aggregatable"),
    (1, 2, "1 129 aggregatable"),
    (1, 2, "1 128 individual"),
    (2, 1, "2 128 aggregatable"),
];

/// The lines of such a change.
fn changed(alloc: Global, own: u8, other: u8, values: &str) -> Result<String, NoMemory> {
    let mut lines = String::from_str(alloc, ONE_CABLE)?;
    write!(
        lines,
        "tick {other} 10 => Ticked\nemit {other} 1 => lacpdu 3f\n"
    )?;
    for values in [values, "1 128 aggregatable"] {
        write!(lines, "configure {own} 1 {values} => Configured(true)\n")?;
    }
    write!(lines, "deliver 1 {own} => Took\ntick {own} 20 => Ticked\n")?;
    Ok(lines)
}

#[test]
fn each_value_of_each_system_counts_as_a_change(rt: HostRuntime) -> Result<(), WorldFault> {
    let alloc = rt.alloc();
    for (own, other, values) in CHANGED {
        let lines = changed(alloc, own, other, values)?;
        let mut world = world_of(&rt, alloc, ONE_SHORT, None, modulo, modulo)?;
        plays_lines(&rt, alloc, &mut world, ONE_SHORT, lines.as_str())?;
        tells(&rt, alloc, &world, "cable 1 => Some(Changed)")?;
    }
    Ok(())
}

/// Port 1 of system 1 is changed and agrees again as soon as its LACPDUs were received; the same values once more are no
/// change. The replies are not looked at.
#[test]
fn a_changed_port_agrees_again(rt: HostRuntime) -> Result<(), WorldFault> {
    let alloc = rt.alloc();
    let change = "configure 1 1 1 129 aggregatable => Configured(true)";
    let steps = [
        (UP, Agreement::Same),
        (change, Agreement::NotBoth),
        (UP, Agreement::Same),
        (change, Agreement::Same),
    ];
    let mut world = world_of(&rt, alloc, TWO_SHORT, None, modulo, modulo)?;
    for (place, (lines, wanted)) in steps.iter().enumerate() {
        runs_lines(&rt, alloc, &mut world, TWO_SHORT, *lines)?;
        same_at(
            &rt,
            "agreement after step",
            place,
            &world.agreement(1),
            &Some(*wanted),
        );
    }
    Ok(())
}
