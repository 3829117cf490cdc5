ghost use Rattle.std.specs.Prelude.{◌≡◌};
ghost use Rattle.distributor.specs.Calls.{PicksIndexes};

use crate::comparing::same;
use crate::given::{TWO_LONG, modulo, read};
use crate::playing::{agree, plays_lines, run_of, world_of};
use cables::AnyCable;
use lagprogress::play_host_rounds;
use lagworld::{Event, Reply, World, WorldFault};
use std::alloc::Global;
use std::process::Abort;
use std::test::Fail;

/// The links of both cables are up.
const LINKS_UP: &str = "sense 1 1 => Sensed(true)
sense 1 2 => Sensed(true)
sense 2 1 => Sensed(true)
sense 2 2 => Sensed(true)
";

/// A healthy round as hosts play it: each system ticks and then asks its ports, frames are offered, a conversation is moved, items
/// arrive between the ticks, and ports are asked again after what arrives. The replies are those of round 356.
const ROUND: &str = "offer 1 1 0200000000200200000000100800 => port 2 serial 325
tick 1 1 => Ticked
emit 1 1 => Nothing
emit 1 2 => Nothing
move 1 1 48 2 => Refused(SamePort)
deliver 2 2 => Up(AggId(1))
tick 2 1 => Ticked
emit 2 1 => Nothing
offer 2 1 0200000000200200000000100800 => port 2 serial 326
emit 2 2 => Nothing
deliver 1 1 => Empty
deliver 1 2 => Empty
deliver 2 1 => Up(AggId(1))
deliver 2 2 => Empty
emit 1 1 => Nothing
emit 1 2 => Nothing
emit 2 1 => Nothing
emit 2 2 => Nothing
deliver 1 1 => Empty
deliver 1 2 => Empty
deliver 2 1 => Empty
deliver 2 2 => Empty
emit 1 1 => Nothing
emit 1 2 => Nothing
emit 2 1 => Nothing
emit 2 2 => Nothing
deliver 1 1 => Empty
deliver 1 2 => Empty
deliver 2 1 => Empty
deliver 2 2 => Empty
deliver 1 1 => Empty
deliver 1 2 => Empty
deliver 2 1 => Empty
deliver 2 2 => Empty
";

/// Plays a round, after which nothing is left on a cable.
fn leaves_nothing<F: Fn(u16, usize) -> usize + Drop>(
    rt: &impl Abort,
    world: &mut World<AnyCable, F>,
    round: &[Event],
)
    requires one { PicksIndexes (F.pre world.old.one) (F.post world.old.one) }
    requires two { PicksIndexes (F.pre world.old.two) (F.post world.old.two) }
    ensures algorithm_one { world.new.one ≡ world.old.one }
    ensures algorithm_two { world.new.two ≡ world.old.two }
{
    match run_of(world, round) {
        Ok(replies) => {
            for reply in replies.iter().skip(30) {
                same(rt, "the end of a round", reply, &Reply::Empty);
            }
        }
        Err(stop) => same(rt, "a round", &Some(stop), &None),
    }
}

/// Plays so many of these rounds between two systems with two ports and one aggregator each: nothing is left on a cable after any
/// of them, the frames of the last one arrive, and then both cables agree.
fn share(rt: &impl Abort, alloc: Global, rounds: u16) -> Result<(), WorldFault> {
    let (_, round) = read(rt, alloc, TWO_LONG, ROUND)?;
    let mut world = world_of(rt, alloc, TWO_LONG, modulo, modulo)?;
    plays_lines(rt, alloc, &mut world, TWO_LONG, LINKS_UP)?;
    for _ in 1..rounds {
        leaves_nothing(rt, &mut world, &round);
    }
    plays_lines(rt, alloc, &mut world, TWO_LONG, ROUND)?;
    agree(rt, &world, 2);
    Ok(())
}

/// Plays so many rounds of hosts between the same systems; then both cables agree.
fn play(rt: &impl Abort, alloc: Global, rounds: u16) -> Result<(), WorldFault> {
    let mut world = world_of(rt, alloc, TWO_LONG, modulo, modulo)?;
    plays_lines(rt, alloc, &mut world, TWO_LONG, LINKS_UP)?;
    let came = play_host_rounds(&mut world, rounds);
    same(rt, "the rounds", &came, &Ok(()));
    agree(rt, &world, 2);
    Ok(())
}

#[test]
fn cables_of_one_aggregator_agree_in_356_rounds_with_data(rt: HostRuntime) -> Result<(), Fail> {
    share(&rt, rt.alloc(), 356)?;
    Ok(())
}

#[test]
fn cables_of_one_aggregator_agree_in_356_rounds_of_hosts(rt: HostRuntime) -> Result<(), Fail> {
    play(&rt, rt.alloc(), 356)?;
    Ok(())
}
