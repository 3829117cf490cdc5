use crate::comparing::{same, same_at};
use crate::worlds::given::{
    INDIVIDUAL, ONE_SHORT, TWO_LONG, add_line, empty_direction, lines, modulo, world_config,
};
use crate::worlds::joined::joined;
use crate::worlds::playing::{plays_lines, run_of, step_of, world_of};
use crate::worlds::starts::COMING_UP;
use crate::worlds::{Row, lines_of, plays, tells};
use cables::{AnyCable, Cable, Item, Stamp};
use lagscript::WorldConfig;
use lagsystem::{BadConfig, PortChange};
use lagtypes::{AggId, Key};
use lagworld::{BadWorld, Event, Reply, RunFault, World, WorldFault};
use std::alloc::Global;
use std::process::Abort;

/// The ports of system 1, those of the other system and its number, the cables between them, this many lines; and why no world can
/// be made of them.
type Given = (
    &'static [u16],
    &'static [u16],
    u8,
    &'static [(u16, u16)],
    usize,
    BadWorld,
);

const NO_PORTS: BadWorld = BadWorld::System {
    side: 1,
    reason: BadConfig::Ports,
};

const FALLING_PORTS: BadWorld = BadWorld::System {
    side: 2,
    reason: BadConfig::PortNumber(2),
};

/// In each, the reasons after the expected one hold too.
const GIVEN: [Given; 7] = [
    (&[], &[], 1, &[(1, 9)], 0, NO_PORTS),
    (&[1], &[2, 1], 1, &[(1, 9)], 0, FALLING_PORTS),
    (&[1], &[1], 1, &[(1, 9)], 0, BadWorld::SameSystem),
    (&[1], &[1], 2, &[(1, 9)], 0, BadWorld::CableEnd(1)),
    (
        &[1, 2],
        &[1, 2],
        2,
        &[(1, 1), (2, 1)],
        0,
        BadWorld::CableEnd(2),
    ),
    (&[1], &[1], 2, &[(1, 1)], 0, BadWorld::Lines),
    (&[1], &[1], 2, &[(1, 1)], 2, BadWorld::Lines),
];

/// Why no world can be made of this; None if one can.
fn refusal(
    alloc: Global,
    config: WorldConfig,
    lines: Vec<(AnyCable, AnyCable)>,
) -> Option<WorldFault> {
    World::new(alloc, config, modulo, modulo, lines).err()
}

fn refuses(rt: &impl Abort, alloc: Global, place: usize, given: &Given) -> Result<(), WorldFault> {
    let (first, second, number, cables, count, reason) = *given;
    let config = joined(alloc, number, first, second, cables)?;
    let came = refusal(alloc, config, lines(alloc, count, None)?);
    same_at(
        rt,
        "row",
        place,
        &came,
        &Some(WorldFault::BadConfig(reason)),
    );
    Ok(())
}

#[test]
fn every_reason_to_make_no_world(rt: HostRuntime) -> Result<(), WorldFault> {
    for (place, given) in GIVEN.iter().enumerate() {
        refuses(&rt, rt.alloc(), place, given)?;
    }
    Ok(())
}

/// One direction of a cable, with or without an item.
fn direction(alloc: Global, full: bool) -> Result<AnyCable, WorldFault> {
    let mut direction = empty_direction(alloc, None)?;
    if full {
        let bytes = Vec::new(alloc);
        let stamp = Stamp::Control(0);
        if direction.push(Item { bytes, stamp }).is_err() {
            return Err(WorldFault::NoMemory);
        }
    }
    Ok(direction)
}

/// One cable, with or without an item on its direction to system 1, and on that to system 2.
fn line(alloc: Global, full: (bool, bool)) -> Result<Vec<(AnyCable, AnyCable)>, WorldFault> {
    let to_one = direction(alloc, full.0)?;
    let to_two = direction(alloc, full.1)?;
    let mut lines = Vec::new(alloc);
    add_line(&mut lines, to_one, to_two)?;
    Ok(lines)
}

/// Compares why no world can be made with this line with the expected reason.
fn compare_line_refusal(
    rt: &impl Abort,
    alloc: Global,
    full: (bool, bool),
    wanted: Option<WorldFault>,
) -> Result<(), WorldFault> {
    let config = world_config(rt, alloc, ONE_SHORT)?;
    let came = refusal(alloc, config, line(alloc, full)?);
    same(
        rt,
        "items of a line, and its refusal",
        &(full, came),
        &(full, wanted),
    );
    Ok(())
}

#[test]
fn a_line_with_an_item_is_refused(rt: HostRuntime) -> Result<(), WorldFault> {
    let wanted = Some(WorldFault::BadConfig(BadWorld::Lines));
    compare_line_refusal(&rt, rt.alloc(), (false, false), None)?;
    compare_line_refusal(&rt, rt.alloc(), (true, false), wanted)?;
    compare_line_refusal(&rt, rt.alloc(), (false, true), wanted)
}

/// Events of which each names a system or a cable that does not exist, and why they are refused. No script has them.
fn events_not_there(alloc: Global) -> [(Event, WorldFault); 17] {
    let agg = AggId(1);
    let change = PortChange {
        key: Key(1),
        priority: 128,
        aggregatable: true,
    };
    [
        (Event::Cut(0), WorldFault::NoCable),
        (Event::Join(2), WorldFault::NoCable),
        (Event::Deliver(2, 3), WorldFault::NoCable),
        (Event::Deliver(1, 3), WorldFault::NoSystem),
        (Event::Lose(2, 1), WorldFault::NoCable),
        (Event::Lose(1, 0), WorldFault::NoSystem),
        (Event::Repeat(0, 2), WorldFault::NoCable),
        (Event::Repeat(1, 3), WorldFault::NoSystem),
        (Event::Sense(2, 1), WorldFault::NoCable),
        (Event::Sense(1, 0), WorldFault::NoSystem),
        (Event::Tick(0, 1), WorldFault::NoSystem),
        (Event::Emit(3, 1), WorldFault::NoSystem),
        (Event::Restart(3), WorldFault::NoSystem),
        (Event::Configure(0, 1, change), WorldFault::NoSystem),
        (Event::Offer(3, agg, Vec::new(alloc)), WorldFault::NoSystem),
        (Event::Move(0, agg, 48, 1), WorldFault::NoSystem),
        (Event::Force(3, agg, 48), WorldFault::NoSystem),
    ]
}

/// Plays each of these events by `step` in one world.
#[test]
fn events_of_what_does_not_exist(rt: HostRuntime) -> Result<(), WorldFault> {
    let alloc = rt.alloc();
    let mut world = world_of(&rt, alloc, ONE_SHORT, None, modulo, modulo)?;
    for (place, (event, fault)) in events_not_there(alloc).iter().enumerate() {
        let came = step_of(&mut world, event);
        same_at(&rt, "row", place, &came, &Err(*fault));
    }
    Ok(())
}

/// The third event names a cable that does not exist.
const STOPPING: [Event; 4] = [
    Event::Tick(1, 0),
    Event::Cut(1),
    Event::Cut(2),
    Event::Join(1),
];

#[test]
fn a_run_stops_at_the_first_fault(rt: HostRuntime) -> Result<(), WorldFault> {
    let alloc = rt.alloc();
    let mut world = world_of(&rt, alloc, ONE_SHORT, None, modulo, modulo)?;
    let stop = RunFault {
        done: 2,
        fault: WorldFault::NoCable,
    };
    let stopped = run_of(&mut world, &STOPPING).err();
    same(&rt, "run", &stopped, &Some(stop));
    let sensed = step_of(&mut world, &Event::Sense(1, 1));
    same(&rt, "step", &sensed, &Ok(Reply::Sensed(false)));
    Ok(())
}

/// Events before any port distributes. One frame has 13 octets, another one is of the slow protocols.
const REFUSED_ROW: Row = Row {
    setting: INDIVIDUAL,
    first: "sense 1 1 => Sensed(true)
sense 2 1 => Sensed(true)
emit 1 9 => Refused(NoPort)
configure 1 9 1 128 aggregatable => Refused(NoPort)
configure 1 1 1 128 individual => Configured(false)
offer 1 2 0200000000200200000000100800 => Refused(NoAggregator)
offer 1 1 02000000002002000000001008 => Refused(FrameLength)
offer 1 1 0180c20000020200000000018809 => Refused(SlowFrame)
offer 1 1 0200000000200200000000100800 => Refused(NoneDistributing)
force 1 1 48 => Refused(NotAssigned)
",
    rest: "tick 1 50 => Ticked
offer 1 1 0200000000200200000000100800 => port 1 serial 0
move 1 1 48 1 => Refused(SamePort)
move 1 1 48 2 => Refused(NotDistributing)
configure 1 1 2 128 individual => Configured(true)
offer 1 1 0200000000200200000000100800 => Refused(Held)
",
    told: "cable 1 => Some(NotBoth)
",
};

#[test]
fn refusals_of_a_system_are_replies(rt: HostRuntime) -> Result<(), WorldFault> {
    plays(&rt, rt.alloc(), &REFUSED_ROW)
}

/// Triples of system, aggregator and conversation, in each of which one does not exist.
const NO_FLOWS: [(u8, u16, u16); 9] = [
    (0, 1, 48),
    (3, 1, 48),
    (1, 0, 48),
    (2, 0, 48),
    (1, 2, 48),
    (2, 2, 48),
    (1, 1, 256),
    (2, 1, 256),
    (2, 1, 304),
];

/// Each system sends a frame of conversation 48, which the other collects, and then the conversation is forced.
const FORCED_ROW: Row = Row {
    setting: TWO_LONG,
    first: COMING_UP,
    rest: "offer 1 1 0200000000200200000000100800 => port 1 serial 0
offer 2 1 0200000000100200000000200800 => port 1 serial 0
deliver 1 1 => Up(AggId(1))
deliver 1 2 => Up(AggId(1))
force 1 1 48 => Forced
force 2 1 48 => Forced
",
    told: "flow 1 1 48 => 1 [0] forced
flow 2 1 48 => 1 [0] forced
",
};

/// Checks what a world returns for a conversation that does not exist.
fn tells_no_flow<F: Fn(u16, usize) -> usize + Drop>(
    rt: &impl Abort,
    world: &World<AnyCable, F>,
    flow: (u8, u16, u16),
) {
    let (system, agg, conv) = flow;
    let sent = world.sent(system, AggId(agg), conv).len();
    let collected = world.collected(system, AggId(agg), conv).len();
    let forced = world.forced(system, AggId(agg), conv);
    let came = (flow, sent, collected, forced);
    same(
        rt,
        "system, aggregator and conversation",
        &came,
        &(flow, 0, 0, false),
    );
}

/// Checks which systems a world has.
fn tells_systems<F: Fn(u16, usize) -> usize + Drop>(rt: &impl Abort, world: &World<AnyCable, F>) {
    for (place, there) in [false, true, true, false].iter().enumerate() {
        let number = place as u8;
        same_at(rt, "system", place, &world.system(number).is_some(), there);
    }
}

/// Plays the row, and asks for what does not exist.
#[test]
fn readers_of_what_does_not_exist(rt: HostRuntime) -> Result<(), WorldFault> {
    let alloc = rt.alloc();
    let text = lines_of(alloc, &FORCED_ROW)?;
    let mut world = world_of(&rt, alloc, FORCED_ROW.setting, None, modulo, modulo)?;
    plays_lines(&rt, alloc, &mut world, FORCED_ROW.setting, text.as_str())?;
    tells(&rt, alloc, &world, FORCED_ROW.told)?;
    same(&rt, "cable 0", &world.agreement(0), &None);
    same(&rt, "cable 3", &world.agreement(3), &None);
    for flow in &NO_FLOWS {
        tells_no_flow(&rt, &world, *flow);
    }
    tells_systems(&rt, &world);
    Ok(())
}

const NUMBERS: [(WorldFault, u8); 5] = [
    (WorldFault::NoCable, 1),
    (WorldFault::NoSystem, 2),
    (WorldFault::Spent, 4),
    (WorldFault::NoMemory, 5),
    (WorldFault::BadConfig(BadWorld::Lines), 6),
];

#[test]
fn each_fault_has_its_number(rt: HostRuntime) {
    for (place, (fault, number)) in NUMBERS.iter().enumerate() {
        same_at(&rt, "row", place, &fault.number(), number);
    }
}

#[test]
fn refusals_of_an_event_come_in_order(rt: HostRuntime) {
    let cases = [
        (false, false, true, Some(WorldFault::NoCable)),
        (false, false, false, Some(WorldFault::NoCable)),
        (false, true, true, Some(WorldFault::NoCable)),
        (false, true, false, Some(WorldFault::NoCable)),
        (true, false, true, Some(WorldFault::NoSystem)),
        (true, false, false, Some(WorldFault::NoSystem)),
        (true, true, true, Some(WorldFault::Spent)),
        (true, true, false, None),
    ];
    for (place, (cable, system, spent, expected)) in cases.iter().enumerate() {
        let first = WorldFault::first_of_event(*cable, *system, *spent);
        same_at(&rt, "row", place, &first, expected);
    }
}
