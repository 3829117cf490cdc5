ghost use Rattle.distributor.specs.Calls.{PicksIndexes};

use crate::comparing::same;
use crate::worlds::conversations::MOVES_ROW;
use crate::worlds::given::{events, modulo};
use crate::worlds::playing::{run_of, runs_part, world_of};
use crate::worlds::{Row, compare_part, lines_of, tells};
use cables::AnyCable;
use lagsystem::{
    AggId, Choice, Group, Info, MuxState, Party, PortStatus, ReceiveState, State, System,
};
use lagworld::{Event, World, WorldFault};
use std::alloc::Global;
use std::process::Abort;

/// What the readers return for a port.
#[derive(Clone, Copy, Debug, PartialEq)]
struct Seen {
    party: Option<Party>,
    partner: Option<Info>,
    group: Option<Group>,
    defaulted: Option<bool>,
    distributes: Option<bool>,
    choice: Option<Choice>,
    state: Option<State>,
    status: Option<PortStatus>,
    machines: (Option<MuxState>, Option<ReceiveState>),
    up: Option<bool>,
    due: Option<bool>,
    timers: (Option<u16>, Option<u8>, Option<bool>),
}

fn look<F: Fn(u16, usize) -> usize + Drop>(system: &System<F>, port: u16) -> Seen {
    Seen {
        party: system.party(port),
        partner: system.partner(port),
        group: system.group(port),
        defaulted: system.defaulted(port),
        distributes: system.distributes(port),
        choice: system.choice(port),
        state: system.state(port),
        status: system.port_status(port),
        machines: (system.mux_state(port), system.receive_state(port)),
        up: system.is_up(port),
        due: system.is_due(port),
        timers: (
            system.current_while(port),
            system.wait_while(port),
            system.ntt(port),
        ),
    }
}

/// Compares what the readers return for two systems with ports 1 and 2.
fn same_system<F: Fn(u16, usize) -> usize + Drop>(
    rt: &impl Abort,
    one: &System<F>,
    other: &System<F>,
) {
    for port in 1..=2 {
        same(rt, "a port", &look(one, port), &look(other, port));
    }
    let states = (
        one.conversation_state(AggId(1), 48),
        other.conversation_state(AggId(1), 48),
    );
    same(rt, "conversation_state", &states.0, &states.1);
    same(rt, "next_marker", &one.next_marker(), &other.next_marker());
}

/// Compares the agreements and conversation 48 of system 1 in two worlds with two cables.
fn same_flows<F: Fn(u16, usize) -> usize + Drop>(
    rt: &impl Abort,
    one: &World<AnyCable, F>,
    other: &World<AnyCable, F>,
) {
    let agg = AggId(1);
    same(rt, "cable 1", &one.agreement(1), &other.agreement(1));
    same(rt, "cable 2", &one.agreement(2), &other.agreement(2));
    same(rt, "sent", &one.sent(1, agg, 48), &other.sent(1, agg, 48));
    let collected = (one.collected(1, agg, 48), other.collected(1, agg, 48));
    same(rt, "collected", &collected.0, &collected.1);
    let forced = (one.forced(1, agg, 48), other.forced(1, agg, 48));
    same(rt, "forced", &forced.0, &forced.1);
}

/// Compares what the readers return for two worlds with two cables.
fn same_world<F: Fn(u16, usize) -> usize + Drop>(
    rt: &impl Abort,
    one: &World<AnyCable, F>,
    other: &World<AnyCable, F>,
) {
    same_flows(rt, one, other);
    for number in 1..=2 {
        match (one.system(number), other.system(number)) {
            (Some(one), Some(other)) => same_system(rt, one, other),
            _ => same(rt, "both systems are there", &false, &true),
        }
    }
}

/// A world where memory was refused must be as this new one after the same events, and the rest is run after them.
fn goes_on<F: Fn(u16, usize) -> usize + Drop>(
    rt: &impl Abort,
    alloc: Global,
    world: &mut World<AnyCable, F>,
    mut twin: World<AnyCable, F>,
    text: &str,
    parts: (&[Event], &[Event]),
) -> Result<(), WorldFault>
    requires one { PicksIndexes (F.pre world.old.one) (F.post world.old.one) }
    requires two { PicksIndexes (F.pre world.old.two) (F.post world.old.two) }
    requires twin_one { PicksIndexes (F.pre twin.one) (F.post twin.one) }
    requires twin_two { PicksIndexes (F.pre twin.two) (F.post twin.two) }
{
    let (now, later) = parts;
    runs_part(rt, alloc, &mut twin, text, 0, now)?;
    same_world(rt, world, &twin);
    runs_part(rt, alloc, world, text, now.len(), later)
}

/// Runs the events of a row. If memory is refused, the world must be one that ran the events before, and the rest is
/// run after them.
fn resumes(rt: &impl Abort, alloc: Global, row: &Row) -> Result<(), WorldFault> {
    let text = lines_of(alloc, row)?;
    let text = text.as_str();
    let events = events(rt, alloc, row.setting, text)?;
    let mut world = world_of(rt, alloc, row.setting, None, modulo, modulo)?;
    match run_of(&mut world, &events) {
        Ok(replies) => compare_part(rt, alloc, text, (0, events.len()), &replies)?,
        Err(stop) => {
            same(rt, "fault", &stop.fault, &WorldFault::NoMemory);
            let parts = events.split_at(stop.done.min(events.len()));
            let twin = world_of(rt, alloc, row.setting, None, modulo, modulo)?;
            goes_on(rt, alloc, &mut world, twin, text, parts)?;
        }
    }
    tells(rt, alloc, &world, row.told)?;
    Ok(())
}

/// Passes whichever allocation is refused.
#[test]
fn refused_memory_leaves_what_the_events_before_made(rt: HostRuntime) {
    if let Err(fault) = resumes(&rt, rt.alloc(), &MOVES_ROW) {
        same(&rt, "fault", &fault, &WorldFault::NoMemory);
    }
}

/// Fails if an allocation is refused.
#[test]
fn memory_for_a_world_is_granted(rt: HostRuntime) {
    let came = resumes(&rt, rt.alloc(), &MOVES_ROW);
    same(&rt, "a row", &came, &Ok(()));
}
