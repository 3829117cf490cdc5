//! Calls of a world. Their contracts say only what the next call requires, so that a test that makes several stays cheap to prove.
ghost use Rattle.std.specs.Prelude.{◌≡◌, IfOk};
ghost use Rattle.distributor.specs.Calls.{PicksIndexes};

use crate::comparing::same;
use crate::worlds::given::{events, lines, world_config};
use crate::worlds::{compare_run, compare_run_of};
use cables::AnyCable;
use lagworld::{Event, Reply, RunFault, World, WorldFault};
use std::alloc::Global;
use std::process::Abort;

/// A new world of the systems and cables of these tables, with empty cables of this limit.
pub(crate) fn world_of<F: Fn(u16, usize) -> usize + Drop>(
    rt: &impl Abort,
    alloc: Global,
    setting: &str,
    limit: Option<u16>,
    one: F,
    two: F,
) -> Result<World<AnyCable, F>, WorldFault>
    requires one { PicksIndexes (F.pre one) (F.post one) }
    requires two { PicksIndexes (F.pre two) (F.post two) }
    ensures algorithm_one { IfOk result (λ world. world.one ≡ one) }
    ensures algorithm_two { IfOk result (λ world. world.two ≡ two) }
{
    let config = world_config(rt, alloc, setting)?;
    let lines = lines(alloc, config.cables.len(), limit)?;
    World::new(alloc, config, one, two, lines)
}

/// `step`.
pub(crate) fn step_of<F: Fn(u16, usize) -> usize + Drop>(
    world: &mut World<AnyCable, F>,
    event: &Event,
) -> Result<Reply, WorldFault>
    requires one { PicksIndexes (F.pre world.old.one) (F.post world.old.one) }
    requires two { PicksIndexes (F.pre world.old.two) (F.post world.old.two) }
    ensures algorithm_one { world.new.one ≡ world.old.one }
    ensures algorithm_two { world.new.two ≡ world.old.two }
{
    world.step(event)
}

/// `run`.
pub(crate) fn run_of<F: Fn(u16, usize) -> usize + Drop>(
    world: &mut World<AnyCable, F>,
    events: &[Event],
) -> Result<Vec<Reply>, RunFault>
    requires one { PicksIndexes (F.pre world.old.one) (F.post world.old.one) }
    requires two { PicksIndexes (F.pre world.old.two) (F.post world.old.two) }
    ensures algorithm_one { world.new.one ≡ world.old.one }
    ensures algorithm_two { world.new.two ≡ world.old.two }
{
    world.run(events)
}

/// Plays some of the events of these lines by one `run`, and compares the replies with theirs; so many events come before.
pub(crate) fn runs_part<F: Fn(u16, usize) -> usize + Drop>(
    rt: &impl Abort,
    alloc: Global,
    world: &mut World<AnyCable, F>,
    lines: &str,
    before: usize,
    events: &[Event],
) -> Result<(), WorldFault>
    requires one { PicksIndexes (F.pre world.old.one) (F.post world.old.one) }
    requires two { PicksIndexes (F.pre world.old.two) (F.post world.old.two) }
    ensures algorithm_one { world.new.one ≡ world.old.one }
    ensures algorithm_two { world.new.two ≡ world.old.two }
{
    let came = run_of(world, events);
    compare_run_of(rt, alloc, lines, (before, events.len()), came)?;
    Ok(())
}

/// Plays these lines by one `run`, and compares the replies with theirs.
pub(crate) fn plays_lines<F: Fn(u16, usize) -> usize + Drop>(
    rt: &impl Abort,
    alloc: Global,
    world: &mut World<AnyCable, F>,
    setting: &str,
    lines: &str,
) -> Result<(), WorldFault>
    requires one { PicksIndexes (F.pre world.old.one) (F.post world.old.one) }
    requires two { PicksIndexes (F.pre world.old.two) (F.post world.old.two) }
    ensures algorithm_one { world.new.one ≡ world.old.one }
    ensures algorithm_two { world.new.two ≡ world.old.two }
{
    let events = events(rt, alloc, setting, lines)?;
    let came = run_of(world, &events);
    compare_run(rt, alloc, lines, came)?;
    Ok(())
}

/// Plays these lines by one `run`. The replies are not looked at.
pub(crate) fn runs_lines<F: Fn(u16, usize) -> usize + Drop>(
    rt: &impl Abort,
    alloc: Global,
    world: &mut World<AnyCable, F>,
    setting: &str,
    lines: &str,
) -> Result<(), WorldFault>
    requires one { PicksIndexes (F.pre world.old.one) (F.post world.old.one) }
    requires two { PicksIndexes (F.pre world.old.two) (F.post world.old.two) }
    ensures algorithm_one { world.new.one ≡ world.old.one }
    ensures algorithm_two { world.new.two ≡ world.old.two }
{
    let events = events(rt, alloc, setting, lines)?;
    same(rt, "run", &run_of(world, &events).is_ok(), &true);
    Ok(())
}
