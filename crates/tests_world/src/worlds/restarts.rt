use crate::comparing::same_at;
use crate::worlds::conversations::MOVES;
use crate::worlds::given::{TWO_LONG, events, modulo};
use crate::worlds::playing::{step_of, world_of};
use crate::worlds::starts::COMING_UP;
use cables::AnyCable;
use lagtypes::{AggId, NoMemory};
use lagworld::{Agreement, World, WorldFault};
use std::alloc::Global;
use std::process::Abort;

/// The events in which a conversation moves, and this restart before the event of the move at this index, or after the last.
fn with_restart(alloc: Global, restart: &str, place: usize) -> Result<String, NoMemory> {
    let mut lines = String::from_str(alloc, COMING_UP)?;
    let mut count = 0usize;
    for line in MOVES.lines() {
        if count == place {
            write!(lines, "{restart}\n")?;
        }
        write!(lines, "{line}\n")?;
        count = count.saturating_add(1);
    }
    if count <= place {
        write!(lines, "{restart}\n")?;
    }
    Ok(lines)
}

/// Whether the first list is a subsequence of the second.
fn is_subsequence(part: &[u64], whole: &[u64]) -> bool {
    let mut rest = part;
    for item in whole {
        match rest.split_first() {
            Some((first, later)) if *first == *item => rest = later,
            _ => {}
        }
    }
    rest.is_empty()
}

/// Checks what must hold after the event at this place, counted from 1: the ends of no cable have different groups, and what
/// system 2 collected is in order.
fn keeps<F: Fn(u16, usize) -> usize + Drop>(
    rt: &impl Abort,
    world: &World<AnyCable, F>,
    place: usize,
) {
    let differ = Some(Agreement::Differ);
    for (cable, what) in [
        (1, "cable 1 differs after event"),
        (2, "cable 2 differs after event"),
    ] {
        same_at(rt, what, place, &(world.agreement(cable) == differ), &false);
    }
    let sent = world.sent(1, AggId(1), 48);
    let collected = world.collected(1, AggId(1), 48);
    let in_order = is_subsequence(collected, sent);
    same_at(
        rt,
        "collected in order after event",
        place,
        &in_order,
        &true,
    );
}

/// Restarts a system before the event of the move at this index. The replies are not compared.
fn restarts(rt: &impl Abort, alloc: Global, restart: &str, place: usize) -> Result<(), WorldFault> {
    let text = with_restart(alloc, restart, place)?;
    let events = events(rt, alloc, TWO_LONG, text.as_str())?;
    let mut world = world_of(rt, alloc, TWO_LONG, None, modulo, modulo)?;
    let mut place = 0usize;
    for event in &events {
        step_of(&mut world, event)?;
        place = place.saturating_add(1);
        keeps(rt, &world, place);
    }
    Ok(())
}

#[test]
fn a_restart_at_each_place_of_a_move(rt: HostRuntime) -> Result<(), WorldFault> {
    for place in 0..=16 {
        restarts(&rt, rt.alloc(), "restart 1", place)?;
        restarts(&rt, rt.alloc(), "restart 2", place)?;
    }
    Ok(())
}
