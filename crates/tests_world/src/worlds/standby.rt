use crate::comparing::same;
use crate::worlds::given::modulo;
use crate::worlds::playing::{plays_lines, world_of};
use crate::worlds::{Row, lines_of, tells};
use cables::AnyCable;
use lagsystem::Choice;
use lagtypes::AggId;
use lagworld::{World, WorldFault};
use std::alloc::Global;
use std::process::Abort;

const SELECTED: Choice = Choice::Selected(AggId(1));

const STANDBY: Choice = Choice::Standby(AggId(1));

/// Two cables between ports with Long Timeout. In both systems an aggregator may have one link.
const BOTH_LIMITED: &str = r#"
system = [
    { mac = "02-00-00-00-00-01", aggregators = [1], max_links = 1, port = [{ number = 1, key = 1, short = false }, { number = 2, key = 1, short = false }] },
    { mac = "02-00-00-00-00-02", aggregators = [1], max_links = 1, port = [{ number = 1, key = 1, short = false }, { number = 2, key = 1, short = false }] },
]
cable = [{ ends = [1, 1] }, { ends = [2, 2] }]
"#;

/// A limit of one link in system 1 only.
const FIRST_LIMITED: &str = r#"
system = [
    { mac = "02-00-00-00-00-01", aggregators = [1], max_links = 1, port = [{ number = 1, key = 1, short = false }, { number = 2, key = 1, short = false }] },
    { mac = "02-00-00-00-00-02", aggregators = [1], port = [{ number = 1, key = 1, short = false }, { number = 2, key = 1, short = false }] },
]
cable = [{ ends = [1, 1] }, { ends = [2, 2] }]
"#;

/// A limit of one link in system 2 only.
const SECOND_LIMITED: &str = r#"
system = [
    { mac = "02-00-00-00-00-01", aggregators = [1], port = [{ number = 1, key = 1, short = false }, { number = 2, key = 1, short = false }] },
    { mac = "02-00-00-00-00-02", aggregators = [1], max_links = 1, port = [{ number = 1, key = 1, short = false }, { number = 2, key = 1, short = false }] },
]
cable = [{ ends = [1, 1] }, { ends = [2, 2] }]
"#;

/// Both cables come up, and each end hears the other.
const HEARD: &str = "sense 1 1 => Sensed(true)
sense 1 2 => Sensed(true)
sense 2 1 => Sensed(true)
sense 2 2 => Sensed(true)
tick 1 10 => Ticked
tick 2 10 => Ticked
emit 1 1 => lacpdu c5
emit 1 2 => lacpdu c5
deliver 1 2 => Took
deliver 2 2 => Took
emit 2 1 => lacpdu 05
emit 2 2 => lacpdu 05
deliver 1 1 => Took
deliver 2 1 => Took
tick 1 20 => Ticked
tick 2 20 => Ticked
";

/// Cable 1 carries frames until it is cut, then cable 2 does; cable 1 comes back, and its ports are STANDBY.
const BOTH_ROW: Row = Row {
    setting: BOTH_LIMITED,
    first: HEARD,
    rest: "emit 1 1 => lacpdu 0d
emit 1 2 => Nothing
deliver 1 2 => Took
deliver 2 2 => Empty
emit 2 1 => lacpdu 3d
emit 2 2 => Nothing
deliver 1 1 => Took
deliver 2 1 => Empty
offer 1 1 0200000000200200000000100800 => port 1 serial 0
cut 1 => Cut
sense 1 1 => Sensed(false)
emit 1 2 => lacpdu 0d
deliver 2 2 => Took
sense 1 2 => Sensed(false)
emit 2 2 => lacpdu 3d
deliver 2 1 => Took
offer 1 1 0200000000200200000000100800 => port 2 serial 1
deliver 2 2 => Up(AggId(1))
join 1 => Joined
sense 1 1 => Sensed(true)
sense 1 2 => Sensed(true)
tick 1 10 => Ticked
emit 1 1 => lacpdu 85
deliver 1 2 => Took
emit 2 1 => lacpdu 05
",
    told: "cable 1 => Some(NotBoth)
cable 2 => Some(Same)
flow 1 1 48 => 2 [1]
",
};

/// Port 2 of system 1 is STANDBY; that of system 2 is in its aggregator, and says so.
const FIRST_ROW: Row = Row {
    setting: FIRST_LIMITED,
    first: HEARD,
    rest: "emit 1 1 => lacpdu 0d
emit 1 2 => Nothing
deliver 1 2 => Took
deliver 2 2 => Empty
emit 2 1 => lacpdu 3d
emit 2 2 => lacpdu 0d
deliver 1 1 => Took
deliver 2 1 => Took
offer 1 1 0200000000200200000000100800 => port 1 serial 0
deliver 1 2 => Up(AggId(1))
cut 1 => Cut
sense 1 1 => Sensed(false)
emit 1 2 => lacpdu 3d
offer 1 1 0200000000200200000000100800 => port 2 serial 1
",
    told: "cable 1 => Some(NotBoth)
cable 2 => Some(NotBoth)
flow 1 1 48 => 2 [0]
",
};

/// Port 2 of system 2 is STANDBY; that of system 1 is in its aggregator, and says so.
const SECOND_ROW: Row = Row {
    setting: SECOND_LIMITED,
    first: HEARD,
    rest: "emit 1 1 => lacpdu 0d
emit 1 2 => lacpdu 0d
deliver 1 2 => Took
deliver 2 2 => Took
emit 2 1 => lacpdu 3d
emit 2 2 => Nothing
deliver 1 1 => Took
deliver 2 1 => Empty
",
    told: "cable 1 => Some(Same)
cable 2 => Some(NotBoth)
",
};

/// Selected of ports 1 and 2 of system 1, and of ports 1 and 2 of system 2.
type Choices = [Choice; 4];

/// Compares Selected of each port with what is expected.
fn chosen<F: Fn(u16, usize) -> usize + Drop>(
    rt: &impl Abort,
    world: &World<AnyCable, F>,
    wanted: Choices,
) {
    let ports = [(1, 1), (1, 2), (2, 1), (2, 2)];
    for ((system, port), wanted) in ports.iter().zip(&wanted) {
        let choice = match world.system(*system) {
            Some(found) => found.choice(*port),
            None => None,
        };
        let came = (*system, *port, choice);
        same(
            rt,
            "system, port and choice",
            &came,
            &(*system, *port, Some(*wanted)),
        );
    }
}

/// Plays a row, and then compares Selected of each port.
fn leads_to(rt: &impl Abort, alloc: Global, row: &Row, wanted: Choices) -> Result<(), WorldFault> {
    let text = lines_of(alloc, row)?;
    let mut world = world_of(rt, alloc, row.setting, None, modulo, modulo)?;
    plays_lines(rt, alloc, &mut world, row.setting, text.as_str())?;
    tells(rt, alloc, &world, row.told)?;
    chosen(rt, &world, wanted);
    Ok(())
}

#[test]
fn a_standby_cable_takes_over_and_the_first_comes_back(rt: HostRuntime) -> Result<(), WorldFault> {
    let ports = [Choice::Unselected, SELECTED, STANDBY, SELECTED];
    leads_to(&rt, rt.alloc(), &BOTH_ROW, ports)
}

#[test]
fn the_limit_is_that_of_its_own_system(rt: HostRuntime) -> Result<(), WorldFault> {
    let first = [Choice::Unselected, SELECTED, SELECTED, SELECTED];
    leads_to(&rt, rt.alloc(), &FIRST_ROW, first)?;
    let second = [SELECTED, SELECTED, SELECTED, STANDBY];
    leads_to(&rt, rt.alloc(), &SECOND_ROW, second)
}
