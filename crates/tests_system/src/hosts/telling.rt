use crate::comparing::{same, same_at};
use crate::hosts::playing::{come_up, config};
use crate::systems::{Response, Row, modulo, play};
use lagsystem::{AggId, System, SystemFault};
use std::process::Abort;

/// A conversation, its port, and whether that is another one than before.
type Told = (usize, u16, bool);

/// For an aggregator `conversation_ports` answers this, and then its lists have these entries.
fn tells_ports<F: Fn(u16, usize) -> usize + Drop>(
    rt: &impl Abort,
    system: &System<F>,
    ports: &mut [u16],
    changed: &mut [bool],
    (agg, answer): (u16, Result<u16, SystemFault>),
    told: &[Told],
) {
    let came = system.conversation_ports(AggId(agg), ports, changed);
    same(rt, "how many changed", &came, &answer);
    for (conv, port, is_changed) in told {
        same_at(rt, "the port", *conv, &ports.get(*conv), &Some(port));
        let came = changed.get(*conv);
        same_at(rt, "the change", *conv, &came, &Some(is_changed));
    }
}

#[test]
fn each_conversation_tells_its_port_at_once(rt: HostRuntime) -> Result<(), SystemFault> {
    const ROWS: [Row<'static>; 3] = [
        Row::OffersConversation(1, 0, Ok(3)),
        Row::OffersConversation(1, 101, Ok(7)),
        Row::OffersConversation(1, 255, Ok(7)),
    ];
    let alloc = rt.alloc();
    let mut system = System::new(alloc, config(alloc, 5)?, modulo)?;
    play(&rt, alloc, &mut system, "come up", &come_up())?;
    let mut ports = [0; 256];
    let mut changed = [true; 256];
    let told = [(255, 0, false)];
    tells_ports(&rt, &system, &mut ports, &mut changed, (1, Ok(0)), &told);
    play(&rt, alloc, &mut system, "offered", &ROWS)?;
    let told = [(0, 3, true), (1, 0, false), (101, 7, true), (255, 7, true)];
    tells_ports(&rt, &system, &mut ports, &mut changed, (1, Ok(3)), &told);
    // a conversation that waits has no port, and what it prefers is none either
    play(
        &rt,
        alloc,
        &mut system,
        "moved",
        &[Row::Moves(1, 101, 3, Ok(()))],
    )?;
    let told = [(0, 3, false), (101, 0, true), (255, 7, false)];
    tells_ports(&rt, &system, &mut ports, &mut changed, (1, Ok(1)), &told);
    let told = [(0, 3, false), (101, 0, false), (255, 7, false)];
    tells_ports(&rt, &system, &mut ports, &mut changed, (1, Ok(0)), &told);
    let none = (3, Err(SystemFault::NoAggregator));
    tells_ports(&rt, &system, &mut ports, &mut changed, none, &told);
    Ok(())
}

#[test]
fn rows_are_told_as_far_as_both_lists_go(rt: HostRuntime) -> Result<(), SystemFault> {
    const ROWS: [Row<'static>; 2] = [
        Row::OffersConversation(1, 2, Ok(3)),
        Row::OffersConversation(1, 3, Ok(7)),
    ];
    let alloc = rt.alloc();
    let mut system = System::new(alloc, config(alloc, 5)?, modulo)?;
    play(&rt, alloc, &mut system, "come up", &come_up())?;
    play(&rt, alloc, &mut system, "offered", &ROWS)?;
    let mut ports = [19; 4];
    let mut changed = [true; 3];
    let told = [(0, 0, true), (1, 0, true), (2, 3, true)];
    tells_ports(&rt, &system, &mut ports, &mut changed, (1, Ok(3)), &told);
    same(&rt, "a port behind the flags", &ports[3], &19);
    let mut busy = [true; 2];
    let mut freed = [false; 5];
    let told = [(0, false, true), (1, false, true)];
    tells_released(&rt, &system, &mut busy, &mut freed, (1, Ok(2)), &told);
    let behind = &freed[2..];
    same(&rt, "flags behind", &behind, &[false; 3].as_slice());
    Ok(())
}

/// A conversation, whether it is On, Wanted or Flushing, and whether it became free.
type Freed = (usize, bool, bool);

/// For an aggregator `released` answers this, and then its lists have these entries.
fn tells_released<F: Fn(u16, usize) -> usize + Drop>(
    rt: &impl Abort,
    system: &System<F>,
    busy: &mut [bool],
    freed: &mut [bool],
    (agg, answer): (u16, Result<u16, SystemFault>),
    told: &[Freed],
) {
    let came = system.released(AggId(agg), busy, freed);
    same(rt, "how many are free", &came, &answer);
    for (conv, is_busy, is_freed) in told {
        let came = busy.get(*conv);
        same_at(rt, "whether it is busy", *conv, &came, &Some(is_busy));
        let came = freed.get(*conv);
        same_at(rt, "whether it is free", *conv, &came, &Some(is_freed));
    }
}

/// After the moves.
const MOVED: [Freed; 5] = [
    (40, true, false),
    (41, false, false),
    (42, true, false),
    (43, true, false),
    (45, true, false),
];

/// The response to the marker of port 3 frees the one that waited behind it.
const ANSWERED: [Freed; 4] = [
    (40, true, false),
    (42, false, true),
    (43, true, false),
    (45, true, false),
];

/// The link of port 7 goes down: both of its conversations are free.
const DOWN: [Freed; 4] = [
    (40, true, false),
    (42, false, false),
    (43, false, true),
    (45, false, true),
];

#[test]
fn what_a_call_sets_free_is_told(rt: HostRuntime) -> Result<(), SystemFault> {
    const WAITING: [Row<'static>; 6] = [
        Row::OffersConversation(1, 40, Ok(3)),
        Row::OffersConversation(1, 42, Ok(3)),
        Row::OffersConversation(1, 43, Ok(7)),
        Row::OffersConversation(1, 45, Ok(7)),
        Row::Moves(1, 42, 7, Ok(())),
        Row::Moves(1, 45, 3, Ok(())),
    ];
    const ANSWERS: [Row<'static>; 2] = [Row::Marks(3, 5), Row::Releases(3, Response(3, 1, 5), 1)];
    let alloc = rt.alloc();
    let mut system = System::new(alloc, config(alloc, 5)?, modulo)?;
    play(&rt, alloc, &mut system, "come up", &come_up())?;
    let mut busy = [false; 256];
    let mut freed = [true; 256];
    play(&rt, alloc, &mut system, "waiting", &WAITING)?;
    tells_released(&rt, &system, &mut busy, &mut freed, (1, Ok(0)), &MOVED);
    play(&rt, alloc, &mut system, "answers", &ANSWERS)?;
    tells_released(&rt, &system, &mut busy, &mut freed, (1, Ok(1)), &ANSWERED);
    play(&rt, alloc, &mut system, "down", &[Row::Link(7, false)])?;
    tells_released(&rt, &system, &mut busy, &mut freed, (1, Ok(2)), &DOWN);
    let told = [(40, true, false)];
    tells_released(&rt, &system, &mut busy, &mut freed, (1, Ok(0)), &told);
    let none = (0, Err(SystemFault::NoAggregator));
    tells_released(&rt, &system, &mut busy, &mut freed, none, &told);
    Ok(())
}
