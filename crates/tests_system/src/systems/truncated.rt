use crate::comparing::{same, same_in_row};
use crate::systems::conversations::COMING_UP;
use crate::systems::frames::response_frame;
use crate::systems::plan::{Plan, plan_of_all};
use crate::systems::{DATA, PortFacts, Row, config, joined, look, modulo};
use lagsystem::{AggId, Assignment, NoMemory, Received, System, SystemFault, WireFault};
use std::alloc::Global;
use std::process::Abort;

/// What all readers return for a system with ports 1 and 2 and aggregators 1 and 2.
#[derive(Debug, Drop, PartialEq)]
struct Told {
    ports: Vec<u16>,
    seen: [PortFacts; 2],
    loads: [Result<u32, SystemFault>; 2],
    aggregators: usize,
    in_first: Vec<u16>,
    in_second: Vec<u16>,
    conversations: Vec<Option<Assignment>>,
    next_marker: Option<u32>,
}

/// The states of the conversations of aggregator 1, and then of aggregator 2.
fn conversations<F: Fn(u16, usize) -> usize + Drop>(
    alloc: Global,
    system: &System<F>,
) -> Result<Vec<Option<Assignment>>, NoMemory> {
    let mut all = Vec::with_capacity(alloc, 512)?;
    for agg in [1, 2] {
        for conv in 0..256 {
            all.push(system.conversation_state(AggId(agg), conv))?;
        }
    }
    Ok(all)
}

fn all_told<F: Fn(u16, usize) -> usize + Drop>(
    alloc: Global,
    system: &System<F>,
) -> Result<Told, NoMemory> {
    Ok(Told {
        ports: Vec::from_slice(alloc, system.ports().as_slice())?,
        seen: [look(system, 1), look(system, 2)],
        loads: [system.load(1), system.load(2)],
        aggregators: system.aggregators(),
        in_first: Vec::from_slice(alloc, system.distributing(AggId(1)).as_slice())?,
        in_second: Vec::from_slice(alloc, system.distributing(AggId(2)).as_slice())?,
        conversations: conversations(alloc, system)?,
        next_marker: system.next_marker(),
    })
}

/// The expected result of `receive` for the first octets of a control frame, this many.
fn answer_to(count: usize) -> Received {
    if count < 14 {
        Received::Dropped
    } else {
        Received::Ignored(WireFault::Short {
            have: count.saturating_sub(14),
        })
    }
}

/// Two ports come up, and a conversation waits for the response to the last marker.
fn waiting(alloc: Global) -> Result<Plan, NoMemory> {
    const ROWS: [Row<'static>; 3] = [
        Row::Offers(1, &DATA, Ok(1)),
        Row::Moves(1, 48, 2, Ok(())),
        Row::Marks(1, 4_294_967_295),
    ];
    plan_of_all(alloc, &joined(alloc, &[&COMING_UP, &ROWS])?)
}

/// A beginning of the response changes nothing that the readers return.
fn changes_nothing<F: Fn(u16, usize) -> usize + Drop>(
    rt: &impl Abort,
    alloc: Global,
    system: &mut System<F>,
    octets: &[u8],
    before: &Told,
) -> Result<(), NoMemory> {
    let came = system.receive(1, octets);
    same_in_row(rt, octets.len(), &came, &Ok(answer_to(octets.len())));
    same_in_row(rt, octets.len(), &all_told(alloc, system)?, before);
    Ok(())
}

/// The response that a conversation waits for frees it; no shorter beginning of that frame changes anything.
#[test]
fn a_response_cut_at_every_length(rt: HostRuntime) -> Result<(), SystemFault> {
    let alloc = rt.alloc();
    let mut given = config(alloc, &[1, 2], 2)?;
    given.first_marker = 4_294_967_295;
    let mut system = System::new(alloc, given, modulo)?;
    let plan = waiting(alloc)?;
    let replies = system.drive(alloc, &plan.calls)?;
    same(
        &rt,
        "replies",
        &replies.as_slice(),
        &plan.replies.as_slice(),
    );
    let before = all_told(alloc, &system)?;
    let frame = response_frame();
    for count in 0..124 {
        changes_nothing(&rt, alloc, &mut system, &frame[..count], &before)?;
    }
    let came = system.receive(1, &frame);
    same(&rt, "whole", &came, &Ok(Received::Released(1)));
    Ok(())
}
