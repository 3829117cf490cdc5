use crate::comparing::same;
use crate::worlds::given::{ONE_SHORT, TWO_LONG, add_line, empty_direction, modulo, world_config};
use crate::worlds::playing::{plays_lines, runs_lines, step_of, world_of};
use crate::worlds::starts::{COMING_UP, ONE_CABLE};
use crate::worlds::{After, EventLines, Row, play_after, plays, tells};
use cables::AnyCable;
use lagworld::{Event, Reply, World, WorldFault};
use std::alloc::Global;

/// The link of cable 1 is up.
const LINK_UP: EventLines = "sense 1 1 => Sensed(true)
sense 1 2 => Sensed(true)
";

/// Between ports with Long Timeout.
const BEHIND: [After; 2] = [
    // Conversation 48 is forced while it has no port.
    (
        "force 1 1 48 => Refused(NotAssigned)
tick 1 950 => Ticked
tick 2 950 => Ticked
offer 1 1 0200000000200200000000100800 => port 1 serial 0
",
        "cable 1 => Some(Defaults)
flow 1 1 48 => 1 []
",
    ),
    // A cable that is whole is joined once more while an LACPDU is on it.
    (
        "tick 1 10 => Ticked
tick 2 10 => Ticked
emit 1 1 => lacpdu c5
join 1 => Joined
deliver 1 2 => Took
",
        "cable 1 => Some(NotBoth)
",
    ),
];

#[test]
fn events_of_a_link_that_is_up(rt: HostRuntime) -> Result<(), WorldFault> {
    play_after(&rt, rt.alloc(), (TWO_LONG, LINK_UP), &BEHIND)
}

/// Nothing is on a cable.
const NOTHING: &str = "deliver 1 1 => Empty
lose 1 2 => Empty
repeat 1 1 => Empty
sense 1 1 => Sensed(true)
tick 1 9 => Ticked
";

/// After ten ticks the first LACPDU is due.
const FIRST_LOST: &str = "emit 1 1 => Nothing
tick 1 1 => Ticked
emit 1 1 => lacpdu c7
lose 1 2 => Lost
deliver 1 2 => Empty
";

/// Plays `NOTHING`, 0 ticks, which no script has, and `FIRST_LOST`.
#[test]
fn nothing_is_no_event_of_a_cable(rt: HostRuntime) -> Result<(), WorldFault> {
    let alloc = rt.alloc();
    let mut world = world_of(&rt, alloc, ONE_SHORT, None, modulo, modulo)?;
    plays_lines(&rt, alloc, &mut world, ONE_SHORT, NOTHING)?;
    let ticked = step_of(&mut world, &Event::Tick(1, 0));
    same(&rt, "0 ticks", &ticked, &Ok(Reply::Ticked));
    plays_lines(&rt, alloc, &mut world, ONE_SHORT, FIRST_LOST)?;
    tells(&rt, alloc, &world, "cable 1 => Some(NotBoth)")?;
    Ok(())
}

/// Cable 1 joins port 1 of system 1 and port 2 of system 2.
const CROSSING: &str = r#"
system = [
    { mac = "02-00-00-00-00-01", aggregators = [1], port = [{ number = 1, key = 1, short = false }, { number = 2, key = 1, short = false }] },
    { mac = "02-00-00-00-00-02", aggregators = [1], port = [{ number = 1, key = 1, short = false }, { number = 2, key = 1, short = false }] },
]
cable = [{ ends = [1, 2] }]
"#;

/// The ends of the cable hear each other.
const CROSSED: &str = "sense 1 1 => Sensed(true)
sense 1 2 => Sensed(true)
tick 1 10 => Ticked
tick 2 10 => Ticked
emit 1 1 => lacpdu c5
deliver 1 2 => Took
emit 2 1 => Nothing
emit 2 2 => lacpdu 05
deliver 1 1 => Took
";

/// The two ports of `CROSSED` come up: port 1 of system 1 and port 2 of system 2.
const CROSSED_UP: &str = "tick 1 20 => Ticked
tick 2 20 => Ticked
emit 1 1 => lacpdu 0d
deliver 1 2 => Took
emit 2 2 => lacpdu 3d
deliver 1 1 => Took
";

/// Plays the events of a cable between ports of unequal numbers.
#[test]
fn a_cable_joins_ports_of_unequal_numbers(rt: HostRuntime) -> Result<(), WorldFault> {
    let alloc = rt.alloc();
    let mut world = world_of(&rt, alloc, CROSSING, None, modulo, modulo)?;
    plays_lines(&rt, alloc, &mut world, CROSSING, CROSSED)?;
    tells(&rt, alloc, &world, "cable 1 => Some(NotBoth)")?;
    plays_lines(&rt, alloc, &mut world, CROSSING, CROSSED_UP)?;
    tells(&rt, alloc, &world, "cable 1 => Some(Same)")?;
    Ok(())
}

/// The direction of a cable to system 1 holds one frame, that to system 2 two.
const FILLING: &str = "offer 1 1 0200000000200200000000100800 => port 1 serial 0
offer 1 1 0200000000200200000000100800 => port 1 serial 1
offer 1 1 0200000000200200000000100800 => port 1 serial 2 lost
offer 2 1 0200000000100200000000200800 => port 1 serial 0
offer 2 1 0200000000100200000000200800 => port 1 serial 1 lost
";

/// Two cables. Each holds one frame towards system 1, and two towards system 2.
fn unequal(alloc: Global) -> Result<Vec<(AnyCable, AnyCable)>, WorldFault> {
    let mut lines = Vec::new(alloc);
    for _ in 0..2 {
        let to_one = empty_direction(alloc, Some(1))?;
        let to_two = empty_direction(alloc, Some(2))?;
        add_line(&mut lines, to_one, to_two)?;
    }
    Ok(lines)
}

#[test]
fn the_first_direction_leads_to_system_1(rt: HostRuntime) -> Result<(), WorldFault> {
    let alloc = rt.alloc();
    let config = world_config(&rt, alloc, TWO_LONG)?;
    let mut world = World::new(alloc, config, modulo, modulo, unequal(alloc)?)?;
    plays_lines(&rt, alloc, &mut world, TWO_LONG, COMING_UP)?;
    plays_lines(&rt, alloc, &mut world, TWO_LONG, FILLING)
}

/// Two systems with an aggregator for each of their two ports, and two cables.
const TWO_APART: &str = r#"
system = [
    { mac = "02-00-00-00-00-01", aggregators = [1, 2], port = [{ number = 1, key = 1, short = false }, { number = 2, key = 2, short = false }] },
    { mac = "02-00-00-00-00-02", aggregators = [1, 2], port = [{ number = 1, key = 1, short = false }, { number = 2, key = 2, short = false }] },
]
cable = [{ ends = [1, 1] }, { ends = [2, 2] }]
"#;

/// Both aggregators carry conversation 48.
const APART_ROW: Row = Row {
    setting: TWO_APART,
    first: COMING_UP,
    rest: "offer 1 1 0200000000200200000000100800 => port 1 serial 0
offer 1 2 0200000000200200000000100800 => port 2 serial 0
offer 1 2 0200000000200200000000100800 => port 2 serial 1
deliver 2 2 => Up(AggId(2))
deliver 2 2 => Up(AggId(2))
force 1 2 48 => Forced
offer 2 2 0200000000100200000000200800 => port 2 serial 0
",
    told: "flow 1 1 48 => 1 []
flow 1 2 48 => 2 [0, 1] forced
flow 2 1 48 => 0 []
flow 2 2 48 => 1 []
",
};

#[test]
fn each_aggregator_has_its_conversations(rt: HostRuntime) -> Result<(), WorldFault> {
    plays(&rt, rt.alloc(), &APART_ROW)
}

/// One cable between a port of system 1 with values that no other test has and a port of system 2.
const ODD: &str = r#"
system = [
    { mac = "02-00-00-00-00-01", aggregators = [5], port = [{ number = 1, key = 5, priority = 7, aggregatable = false, short = true }] },
    { mac = "02-00-00-00-00-02", aggregators = [1], port = [{ number = 1, key = 1, short = true }] },
]
cable = [{ ends = [1, 1] }]
"#;

/// The port gets the values that it has.
const AS_IT_IS: &str = "configure 1 1 5 7 individual => Configured(false)
";

/// Gives the port the values that it has. The replies before are not looked at.
#[test]
fn the_values_of_a_configuration_are_no_change(rt: HostRuntime) -> Result<(), WorldFault> {
    let alloc = rt.alloc();
    let mut world = world_of(&rt, alloc, ODD, None, modulo, modulo)?;
    runs_lines(&rt, alloc, &mut world, ODD, ONE_CABLE)?;
    tells(&rt, alloc, &world, "cable 1 => Some(Same)")?;
    plays_lines(&rt, alloc, &mut world, ODD, AS_IT_IS)?;
    tells(&rt, alloc, &world, "cable 1 => Some(Same)")?;
    Ok(())
}
