use crate::comparing::same_at;
use crate::given::{EventLines, ONE_LONG, ONE_SHORT, Setting, modulo};
use crate::playing::{agree, plays_lines, plays_rounds, world_of};
use lagworld::WorldFault;
use std::alloc::Global;
use std::process::Abort;
use std::test::Fail;

/// The tables of a script, and the events of its cable, of which the first are played before the rest.
type Row = (Setting, EventLines, EventLines);

/// One cable comes up between ports with Short Timeout (6.4.13, 6.4.15).
const ONE_CABLE: &str = "sense 1 1 => Sensed(true)
sense 1 2 => Sensed(true)
tick 1 10 => Ticked
tick 2 10 => Ticked
emit 1 1 => lacpdu c7
deliver 1 2 => Took
emit 2 1 => lacpdu 07
deliver 1 1 => Took
tick 1 10 => Ticked
tick 2 10 => Ticked
emit 1 1 => lacpdu 07
deliver 1 2 => Took
tick 1 10 => Ticked
tick 2 10 => Ticked
emit 1 1 => lacpdu 0f
deliver 1 2 => Took
emit 2 1 => lacpdu 3f
deliver 1 1 => Took
emit 1 1 => lacpdu 3f
deliver 1 2 => Took
";

/// Both links are up, and nothing was sent.
const STARTED_ROW: Row = (
    ONE_LONG,
    "sense 1 1 => Sensed(true)
sense 1 2 => Sensed(true)
",
    "",
);

/// Both ends run on defaults, and an LACPDU is on the cable.
const ON_DEFAULTS_ROW: Row = (
    ONE_SHORT,
    "sense 1 1 => Sensed(true)
sense 1 2 => Sensed(true)
tick 1 60 => Ticked
tick 2 60 => Ticked
emit 1 1 => lacpdu 7f
",
    "",
);

/// The cable is cut and joined again. System 1 alone learns both.
const MENDED_ROW: Row = (
    ONE_SHORT,
    ONE_CABLE,
    "cut 1 => Cut
sense 1 1 => Sensed(false)
join 1 => Joined
sense 1 1 => Sensed(true)
",
);

/// Plays a row and this many healthy rounds. Then the cable agrees, and both ends distribute. The number is no constant here: the
/// prover would unfold each of these rounds.
fn comes_up(rt: &impl Abort, alloc: Global, row: Row, rounds: u16) -> Result<(), WorldFault> {
    let (setting, first, rest) = row;
    let mut world = world_of(rt, alloc, setting, modulo, modulo)?;
    plays_lines(rt, alloc, &mut world, setting, first)?;
    plays_lines(rt, alloc, &mut world, setting, rest)?;
    plays_rounds(rt, &mut world, rounds);
    agree(rt, &world, 1);
    for number in [1, 2] {
        let distributes = match world.system(number) {
            Some(system) => system.distributes(1),
            None => None,
        };
        let place = usize::from(number);
        same_at(rt, "system", place, &distributes, &Some(true));
    }
    Ok(())
}

#[test]
fn a_link_comes_up_in_356_healthy_rounds(rt: HostRuntime) -> Result<(), Fail> {
    comes_up(&rt, rt.alloc(), STARTED_ROW, 356)?;
    comes_up(&rt, rt.alloc(), ON_DEFAULTS_ROW, 356)?;
    comes_up(&rt, rt.alloc(), MENDED_ROW, 356)?;
    Ok(())
}

#[test]
fn a_link_stays_up_in_more_healthy_rounds(rt: HostRuntime) -> Result<(), Fail> {
    comes_up(&rt, rt.alloc(), STARTED_ROW, 353)?;
    comes_up(&rt, rt.alloc(), MENDED_ROW, 662)?;
    Ok(())
}
