ghost use Rattle.std.specs.Prelude.{◌≡◌, ◌≤◌, None, IfErr, IfOk, length, true};
ghost use Rattle.cables.specs.AnyCable.{any_items, any_limit};
ghost use Rattle.distributor.specs.Calls.{PicksIndexes};
ghost use Rattle.lagscript.specs.Configs.{world_refusal};
ghost use Rattle.lagworld.specs.Events.{WorldRuns, most_events};
ghost use Rattle.lagworld.specs.Making.{IsMade, are_empty_lines};
ghost use Rattle.lagworld.specs.Sound.{IsSound, IsStart, both_algorithms};
ghost use Rattle.lagworld.specs.declared.fault.WorldFault.TheVariants.{NoMemory};
ghost use Rattle.lagtool_jobs.specs.Naming.{AllNameExisting};

use crate::progress::Watch;
use cables::AnyCable;
use lagworld::{Event, Reply, World, WorldConfig, WorldFault};
use std::alloc::Global;

/// Makes a world from a configuration that is accepted, and an empty line for each cable. Only memory can be refused:
/// `World::new` has more faults, and this contract says that none of them comes here.
pub(crate) fn make_world<F: Fn(u16, usize) -> usize + Drop>(
    alloc: Global,
    config: WorldConfig,
    one: F,
    two: F,
    lines: Vec<(AnyCable, AnyCable)>,
) -> Result<World<AnyCable, F>, WorldFault>
    requires one { PicksIndexes (F.pre one) (F.post one) }
    requires two { PicksIndexes (F.pre two) (F.post two) }
    requires accepted { world_refusal config ≡ None }
    requires lines { are_empty_lines any_items config.cables.items lines.items ≡ true }
    ensures made { IfOk result (λ world. IsMade any_items any_limit config lines.items world.state) }
    ensures start { IfOk result (λ world. IsStart world.state) }
    ensures algorithm_one { IfOk result (λ world. world.one ≡ one) }
    ensures algorithm_two { IfOk result (λ world. world.two ≡ two) }
    ensures refused { IfErr result (λ fault. fault ≡ NoMemory) }
{
    World::new(alloc, config, one, two, lines)
}

/// How many events are played before the watch is shown again how many have acted.
const AT_ONCE: usize = 16;

// promise: events played by several calls of `World::run` are one run
// contract: `run_events` (`ran`, `sound`)
/// Plays events from the start of a world. What comes of them is what one call of `World::run` with all of them gives. It
/// calls `run` for sixteen at a time, and then shows the watch how many have acted. Each event names a cable and a system that
/// exist. Only memory can be refused: `World::run` has more faults, and this contract says that none of them comes here.
pub(crate) fn run_events<F: Fn(u16, usize) -> usize + Drop, P: Watch>(
    alloc: Global,
    world: &mut World<AnyCable, F>,
    events: &[Event],
    watch: &P,
) -> Result<Vec<Reply>, WorldFault>
    requires one { PicksIndexes (F.pre world.old.one) (F.post world.old.one) }
    requires two { PicksIndexes (F.pre world.old.two) (F.post world.old.two) }
    requires sound { IsSound world.old.state }
    requires acted { world.old.state.acted ≡ 0 }
    requires named { AllNameExisting (length world.old.state.links) events.now }
    requires few { length events.now ≤ most_events }
    ensures ran { IfOk result (λ replies. WorldRuns (both_algorithms (F.post world.old.one) (F.post world.old.two))
        world.old.state events.now
        replies.items world.new.state) }
    ensures sound { IsSound world.new.state }
    ensures stopped { IfErr result (λ fault. fault ≡ NoMemory) }
{
    let mut replies = Vec::new(alloc);
    for piece in events.chunks(AT_ONCE) {
        match world.run(piece) {
            Ok(mut more) => replies.append(&mut more)?,
            Err(stop) => return Err(stop.fault),
        }
        watch.show(replies.len() as u64);
    }
    Ok(replies)
}
