use crate::worlds::given::{INDIVIDUAL, TWO_LONG};
use crate::worlds::starts::COMING_UP;
use crate::worlds::{After, Row, play_after, plays};
use lagworld::WorldFault;

/// Between ports with Long Timeout that distribute.
const BOTH_UP: [After; 3] = [
    // A port that is told of the cut frees its conversations.
    (
        "offer 1 1 0200000000200200000000100800 => port 1 serial 0
cut 1 => Cut
offer 1 1 0200000000200200000000100800 => port 1 serial 1 lost
sense 1 1 => Sensed(false)
offer 1 1 0200000000200200000000100800 => port 2 serial 2
deliver 2 2 => Up(AggId(1))
",
        "cable 1 => Some(NotBoth)
cable 2 => Some(Same)
flow 1 1 48 => 3 [2]
",
    ),
    // A restart empties the cables.
    (
        "offer 1 1 0200000000200200000000100800 => port 1 serial 0
restart 1 => Restarted
deliver 1 2 => Empty
offer 1 1 0200000000200200000000100800 => Refused(NoneDistributing)
offer 2 1 0200000000100200000000200800 => port 1 serial 0
deliver 1 1 => Disabled
",
        "cable 1 => Some(NotBoth)
cable 2 => Some(NotBoth)
flow 1 1 48 => 1 []
flow 2 1 48 => 1 []
",
    ),
    // A restart of system 2 empties the cables.
    (
        "offer 2 1 0200000000100200000000200800 => port 1 serial 0
restart 2 => Restarted
deliver 1 1 => Empty
offer 2 1 0200000000100200000000200800 => Refused(NoneDistributing)
offer 1 1 0200000000200200000000100800 => port 1 serial 0
",
        "cable 1 => Some(NotBoth)
cable 2 => Some(NotBoth)
flow 2 1 48 => 1 []
flow 1 1 48 => 1 []
",
    ),
];

#[test]
fn cuts_and_restarts(rt: HostRuntime) -> Result<(), WorldFault> {
    play_after(&rt, rt.alloc(), (TWO_LONG, COMING_UP), &BOTH_UP)
}

const CONFIGURED_ROW: Row = Row {
    setting: INDIVIDUAL,
    first: "sense 1 1 => Sensed(true)
sense 2 1 => Sensed(true)
tick 1 50 => Ticked
offer 1 1 0200000000200200000000100800 => port 1 serial 0
configure 1 1 2 128 individual => Configured(true)
offer 1 1 0200000000200200000000100800 => Refused(Held)
offer 1 1 0200000000210200000000100800 => Refused(NoneDistributing)
tick 1 20 => Ticked
offer 1 1 0200000000210200000000100800 => port 2 serial 0
",
    rest: "",
    told: "flow 1 1 48 => 1 []
flow 1 1 49 => 1 []
",
};

#[test]
fn a_configure_holds_the_conversations_of_its_port(rt: HostRuntime) -> Result<(), WorldFault> {
    plays(&rt, rt.alloc(), &CONFIGURED_ROW)
}

/// Two cables between ports with Long Timeout, and one marker identifier left.
const LAST_MARKER: &str = r#"
system = [
    { mac = "02-00-00-00-00-01", aggregators = [1], first_marker = 4294967295, port = [
        { number = 1, key = 1, short = false },
        { number = 2, key = 1, short = false },
    ] },
    { mac = "02-00-00-00-00-02", aggregators = [1], port = [{ number = 1, key = 1, short = false }, { number = 2, key = 1, short = false }] },
]
cable = [{ ends = [1, 1] }, { ends = [2, 2] }]
"#;

const SPENT_ROW: Row = Row {
    setting: LAST_MARKER,
    first: COMING_UP,
    rest: "offer 1 1 0200000000200200000000100800 => port 1 serial 0
offer 1 1 0200000000220200000000100800 => port 1 serial 0
move 1 1 48 2 => Moved
emit 1 1 => lacpdu 3d
emit 1 1 => Marker(4294967295, true)
move 1 1 50 2 => Refused(MarkersSpent)
tick 1 30 => Ticked
emit 1 1 => Nothing
offer 1 1 0200000000200200000000100800 => Refused(Held)
cut 1 => Cut
sense 1 1 => Sensed(false)
offer 1 1 0200000000200200000000100800 => port 2 serial 1
offer 1 1 0200000000220200000000100800 => port 2 serial 1
deliver 2 2 => Up(AggId(1))
deliver 2 2 => Up(AggId(1))
",
    told: "flow 1 1 48 => 2 [1]
flow 1 1 50 => 2 [1]
",
};

#[test]
fn no_marker_follows_the_last_identifier(rt: HostRuntime) -> Result<(), WorldFault> {
    plays(&rt, rt.alloc(), &SPENT_ROW)
}
