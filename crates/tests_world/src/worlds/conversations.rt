use crate::worlds::given::TWO_LONG;
use crate::worlds::starts::COMING_UP;
use crate::worlds::{After, Row, play_after, runs, steps};
use lagworld::WorldFault;

pub(crate) const MOVES: &str = "offer 1 1 0200000000200200000000100800 => port 1 serial 0
offer 1 1 0200000000200200000000100800 => port 1 serial 1
offer 1 1 0200000000200200000000100800 => port 1 serial 2
move 1 1 48 2 => Moved
offer 1 1 0200000000200200000000100800 => Refused(Held)
emit 1 1 => lacpdu 3d
emit 1 1 => Marker(1, true)
deliver 1 2 => Up(AggId(1))
deliver 1 2 => Up(AggId(1))
deliver 1 2 => Up(AggId(1))
deliver 1 2 => Took
deliver 1 2 => Responded(true)
offer 1 1 0200000000200200000000100800 => Refused(Held)
deliver 1 1 => Released(1)
offer 1 1 0200000000200200000000100800 => port 2 serial 3
deliver 2 2 => Up(AggId(1))
";

pub(crate) const MOVES_ROW: Row = Row {
    setting: TWO_LONG,
    first: COMING_UP,
    rest: MOVES,
    told: "cable 1 => Some(Same)
cable 2 => Some(Same)
flow 1 1 48 => 4 [0, 1, 2, 3]
",
};

#[test]
fn a_conversation_moves_behind_a_marker(rt: HostRuntime) -> Result<(), WorldFault> {
    for cut in 0..41 {
        runs(&rt, rt.alloc(), &MOVES_ROW, None, cut)?;
    }
    Ok(())
}

#[test]
fn a_conversation_moves_event_by_event(rt: HostRuntime) -> Result<(), WorldFault> {
    steps(&rt, rt.alloc(), &MOVES_ROW, Some(8))
}

/// Between ports with Long Timeout that distribute.
const BOTH_UP: [After; 7] = [
    // A late response releases nothing.
    (
        "offer 1 1 0200000000200200000000100800 => port 1 serial 0
move 1 1 48 2 => Moved
emit 1 1 => lacpdu 3d
emit 1 1 => Marker(1, true)
tick 1 30 => Ticked
emit 1 1 => Marker(2, true)
deliver 1 2 => Up(AggId(1))
deliver 1 2 => Took
deliver 1 2 => Responded(true)
deliver 1 1 => Released(0)
offer 1 1 0200000000200200000000100800 => Refused(Held)
deliver 1 2 => Responded(true)
repeat 1 1 => Released(1)
deliver 1 1 => Released(0)
offer 1 1 0200000000200200000000100800 => port 2 serial 1
deliver 2 2 => Up(AggId(1))
",
        "flow 1 1 48 => 2 [0, 1]
",
    ),
    // A cut loses what is on the cable.
    (
        "offer 1 1 0200000000200200000000100800 => port 1 serial 0
cut 1 => Cut
join 1 => Joined
offer 1 1 0200000000200200000000100800 => port 1 serial 1
move 1 1 48 2 => Moved
emit 1 1 => lacpdu 3d
emit 1 1 => Marker(1, true)
cut 1 => Cut
join 1 => Joined
tick 1 30 => Ticked
emit 1 1 => Marker(2, true)
deliver 1 2 => Responded(true)
deliver 1 1 => Released(1)
offer 1 1 0200000000200200000000100800 => port 2 serial 2
deliver 2 2 => Up(AggId(1))
",
        "flow 1 1 48 => 3 [2]
",
    ),
    // A forced conversation may overtake.
    (
        "offer 1 1 0200000000200200000000100800 => port 1 serial 0
move 1 1 48 2 => Moved
force 1 1 48 => Forced
offer 1 1 0200000000200200000000100800 => port 2 serial 1
deliver 2 2 => Up(AggId(1))
deliver 1 2 => Up(AggId(1))
",
        "flow 1 1 48 => 2 [1, 0] forced
",
    ),
    // A conversation stays forced.
    (
        "offer 1 1 0200000000200200000000100800 => port 1 serial 0
force 1 1 48 => Forced
offer 1 1 0200000000200200000000100800 => port 1 serial 1
force 1 1 48 => Forced
",
        "flow 1 1 48 => 2 [] forced
",
    ),
    // No data frame is repeated.
    (
        "offer 1 1 0200000000200200000000100800 => port 1 serial 0
offer 1 1 0200000000200200000000100800 => port 1 serial 1
offer 1 1 0200000000200200000000100800 => port 1 serial 2
lose 1 2 => Lost
deliver 1 2 => Up(AggId(1))
repeat 1 2 => NotControl
deliver 1 2 => Up(AggId(1))
",
        "flow 1 1 48 => 3 [1, 2]
",
    ),
    // The frames are of conversation 255, the last: octets 5 and 11 give 0x20 xor 0xdf (profile).
    (
        "offer 1 1 0200000000200200000000df0800 => port 2 serial 0
offer 1 1 0200000000200200000000df0800 => port 2 serial 1
deliver 2 2 => Up(AggId(1))
deliver 2 2 => Up(AggId(1))
",
        "flow 1 1 255 => 2 [0, 1]
",
    ),
    // Two frames are one conversation of 256 or two of 4096.
    (
        "offer 1 1 0200000001200200000000100800 => port 1 serial 0
offer 1 1 0200000000200200000000100800 => port 1 serial 1
move 1 1 304 2 => Refused(NotAssigned)
",
        "flow 1 1 48 => 2 []
",
    ),
];

#[test]
fn conversations_of_two_links(rt: HostRuntime) -> Result<(), WorldFault> {
    play_after(&rt, rt.alloc(), (TWO_LONG, COMING_UP), &BOTH_UP)
}

pub(crate) const FULL_ROW: Row = Row {
    setting: TWO_LONG,
    first: COMING_UP,
    rest: "offer 1 1 0200000000200200000000100800 => port 1 serial 0
offer 1 1 0200000000200200000000100800 => port 1 serial 1
offer 1 1 0200000000200200000000100800 => port 1 serial 2 lost
deliver 1 2 => Up(AggId(1))
deliver 1 2 => Up(AggId(1))
deliver 1 2 => Empty
",
    told: "flow 1 1 48 => 3 [0, 1]
",
};

#[test]
fn what_a_full_cable_hands_back_is_lost(rt: HostRuntime) -> Result<(), WorldFault> {
    runs(&rt, rt.alloc(), &FULL_ROW, Some(2), 0)
}

pub(crate) const NARROW_ROW: Row = Row {
    setting: TWO_LONG,
    first: COMING_UP,
    rest: "offer 1 1 0200000000200200000000100800 => port 1 serial 0
offer 1 1 0200000000200200000000100800 => port 1 serial 1 lost
move 1 1 48 2 => Moved
emit 1 1 => lacpdu 3d lost
emit 1 1 => Marker(1, false)
deliver 1 2 => Up(AggId(1))
tick 1 30 => Ticked
emit 1 1 => Marker(2, true)
deliver 1 2 => Responded(true)
deliver 1 1 => Released(1)
offer 1 1 0200000000200200000000100800 => port 2 serial 2
deliver 2 2 => Up(AggId(1))
",
    told: "flow 1 1 48 => 3 [0, 2]
",
};

#[test]
fn a_full_cable_hands_back_a_marker(rt: HostRuntime) -> Result<(), WorldFault> {
    runs(&rt, rt.alloc(), &NARROW_ROW, Some(1), 0)
}

/// `TWO_LONG`, with 4096 conversations in each aggregator of system 1.
const WIDE: &str = r#"
system = [
    { mac = "02-00-00-00-00-01", aggregators = [1], conversations = 4096, port = [
        { number = 1, key = 1, short = false },
        { number = 2, key = 1, short = false },
    ] },
    { mac = "02-00-00-00-00-02", aggregators = [1], port = [{ number = 1, key = 1, short = false }, { number = 2, key = 1, short = false }] },
]
cable = [{ ends = [1, 1] }, { ends = [2, 2] }]
"#;

/// With 4096 conversations in each aggregator of system 1.
const WIDE_FIRST: [After; 2] = [
    // The first frame is of conversation 304 if there are 4096 of them, and of conversation 48 if there are 256: octets 4 and 5 count.
    (
        "offer 1 1 0200000001200200000000100800 => port 1 serial 0
offer 1 1 0200000000200200000000100800 => port 1 serial 0
move 1 1 304 2 => Moved
offer 1 1 0200000001200200000000100800 => Refused(Held)
offer 1 1 0200000000200200000000100800 => port 1 serial 1
move 1 1 4096 2 => Refused(NotAssigned)
",
        "flow 1 1 48 => 2 []
flow 1 1 304 => 1 []
",
    ),
    // System 2 numbers its frames by its own count. The first frame is of conversation 304 too: of octet 4 the low four bits count.
    // The second one would be, if system 2 had 4096 conversations.
    (
        "offer 1 1 02000000f1200200000000100800 => port 1 serial 0
offer 2 1 0200000001100200000000200800 => port 1 serial 0
deliver 1 1 => Up(AggId(1))
move 2 1 304 2 => Refused(NotAssigned)
",
        "flow 1 1 304 => 1 []
flow 2 1 48 => 1 [0]
flow 2 1 304 => 0 []
",
    ),
];

#[test]
fn each_system_numbers_frames_by_its_own_count(rt: HostRuntime) -> Result<(), WorldFault> {
    play_after(&rt, rt.alloc(), (WIDE, COMING_UP), &WIDE_FIRST)
}
