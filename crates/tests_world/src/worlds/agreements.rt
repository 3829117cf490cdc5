use crate::worlds::given::ONE_SHORT;
use crate::worlds::starts::ONE_CABLE;
use crate::worlds::{After, Row, play_after, runs, steps};
use lagworld::WorldFault;

/// From the beginning of one cable between ports with Short Timeout.
const ALONE: [After; 3] = [
    // A port on defaults carries data after 50 ticks.
    (
        "sense 1 1 => Sensed(true)
tick 1 9 => Ticked
emit 1 1 => Nothing
tick 1 1 => Ticked
emit 1 1 => lacpdu c7
tick 1 20 => Ticked
emit 1 1 => lacpdu 47
tick 1 19 => Ticked
offer 1 1 0200000000200200000000100800 => Refused(NoneDistributing)
tick 1 1 => Ticked
offer 1 1 0200000000200200000000100800 => port 1 serial 0
emit 1 1 => lacpdu 7f
",
        "cable 1 => Some(NotBoth)
flow 1 1 48 => 1 []
",
    ),
    // Both ends on defaults.
    (
        "sense 1 1 => Sensed(true)
sense 1 2 => Sensed(true)
tick 1 50 => Ticked
tick 2 50 => Ticked
",
        "cable 1 => Some(Defaults)
",
    ),
    // One cable comes up, and each LACPDU is received twice.
    (
        "sense 1 1 => Sensed(true)
sense 1 2 => Sensed(true)
tick 1 10 => Ticked
tick 2 10 => Ticked
emit 1 1 => lacpdu c7
repeat 1 2 => Took
deliver 1 2 => Took
emit 2 1 => lacpdu 07
repeat 1 1 => Took
deliver 1 1 => Took
tick 1 10 => Ticked
tick 2 10 => Ticked
emit 1 1 => lacpdu 07
repeat 1 2 => Took
deliver 1 2 => Took
tick 1 10 => Ticked
tick 2 10 => Ticked
emit 1 1 => lacpdu 0f
repeat 1 2 => Took
deliver 1 2 => Took
emit 2 1 => lacpdu 3f
repeat 1 1 => Took
deliver 1 1 => Took
emit 1 1 => lacpdu 3f
repeat 1 2 => Took
deliver 1 2 => Took
",
        "cable 1 => Some(Same)
",
    ),
];

#[test]
fn agreements_of_one_cable(rt: HostRuntime) -> Result<(), WorldFault> {
    play_after(&rt, rt.alloc(), (ONE_SHORT, ""), &ALONE)
}

pub(crate) const ONE_CABLE_ROW: Row = Row {
    setting: ONE_SHORT,
    first: ONE_CABLE,
    rest: "",
    told: "cable 1 => Some(Same)
",
};

#[test]
fn two_ends_agree_event_by_event(rt: HostRuntime) -> Result<(), WorldFault> {
    steps(&rt, rt.alloc(), &ONE_CABLE_ROW, None)?;
    steps(&rt, rt.alloc(), &ONE_CABLE_ROW, Some(8))
}

#[test]
fn two_ends_agree_in_one_run_and_in_two(rt: HostRuntime) -> Result<(), WorldFault> {
    for cut in [0, 7] {
        for limit in [None, Some(8)] {
            runs(&rt, rt.alloc(), &ONE_CABLE_ROW, limit, cut)?;
        }
    }
    Ok(())
}
