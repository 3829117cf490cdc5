//! Calls of a world. Their contracts say only what the next call requires, so that a test that makes several stays cheap to prove.
ghost use Rattle.std.specs.Prelude.{◌≡◌, IfOk};
ghost use Rattle.distributor.specs.Calls.{PicksIndexes};

use crate::comparing::{same, same_at};
use crate::given::{lines, parts, read};
use bitflags::Flags;
use cables::AnyCable;
use lagprogress::play_rounds;
use lagtypes::NoMemory;
use lagworld::{Agreement, Event, Reply, RunFault, World, WorldFault};
use std::alloc::Global;
use std::process::Abort;

/// The text of a reply: of an LACPDU its Actor_State, of an offered frame the port that it was sent on and its serial number, each
/// with `lost` behind it if no cable accepted it; and else the reply as Rust has it.
fn text_of(alloc: Global, reply: Reply) -> Result<String, NoMemory> {
    match reply {
        Reply::Lacpdu(state, true) => format!(in alloc; "lacpdu {:02x}", state.bits()),
        Reply::Lacpdu(state, false) => format!(in alloc; "lacpdu {:02x} lost", state.bits()),
        Reply::Port(port, serial, true) => format!(in alloc; "port {port} serial {serial}"),
        Reply::Port(port, serial, false) => format!(in alloc; "port {port} serial {serial} lost"),
        _ => format!(in alloc; "{reply:?}"),
    }
}

/// Compares the reply to an event with the expected one; the line is at this place, counted from 0.
fn compare(
    rt: &impl Abort,
    alloc: Global,
    place: usize,
    line: &str,
    came: Reply,
) -> Result<(), NoMemory> {
    let (event, wanted) = parts(line);
    let text = text_of(alloc, came)?;
    same_at(rt, event, place, &text.as_str(), &wanted);
    Ok(())
}

/// Compares replies with those of these lines.
fn compare_all(
    rt: &impl Abort,
    alloc: Global,
    lines: &str,
    came: &[Reply],
) -> Result<(), NoMemory> {
    let mut place = 0usize;
    for line in lines.lines() {
        if let Some(reply) = came.get(place) {
            compare(rt, alloc, place, line, *reply)?;
        }
        place = place.saturating_add(1);
    }
    same(rt, "how many replies", &came.len(), &place);
    Ok(())
}

/// Compares the result of a run of all events of these lines.
fn compare_run(
    rt: &impl Abort,
    alloc: Global,
    lines: &str,
    came: Result<Vec<Reply>, RunFault>,
) -> Result<(), NoMemory> {
    match came {
        Ok(replies) => compare_all(rt, alloc, lines, &replies),
        Err(stop) => {
            same(rt, "the stop", &Some(stop), &None);
            Ok(())
        }
    }
}

/// A new world of the systems and cables of these tables, with empty cables.
pub(crate) fn world_of<F: Fn(u16, usize) -> usize + Drop>(
    rt: &impl Abort,
    alloc: Global,
    setting: &str,
    one: F,
    two: F,
) -> Result<World<AnyCable, F>, WorldFault>
    requires one { PicksIndexes (F.pre one) (F.post one) }
    requires two { PicksIndexes (F.pre two) (F.post two) }
    ensures algorithm_one { IfOk result (λ world. world.one ≡ one) }
    ensures algorithm_two { IfOk result (λ world. world.two ≡ two) }
{
    let (config, _) = read(rt, alloc, setting, "")?;
    let lines = lines(alloc, config.cables.len())?;
    World::new(alloc, config, one, two, lines)
}

/// `run`.
pub(crate) fn run_of<F: Fn(u16, usize) -> usize + Drop>(
    world: &mut World<AnyCable, F>,
    events: &[Event],
) -> Result<Vec<Reply>, RunFault>
    requires one { PicksIndexes (F.pre world.old.one) (F.post world.old.one) }
    requires two { PicksIndexes (F.pre world.old.two) (F.post world.old.two) }
    ensures algorithm_one { world.new.one ≡ world.old.one }
    ensures algorithm_two { world.new.two ≡ world.old.two }
{
    world.run(events)
}

/// Plays these lines by one `run`, and compares the replies with theirs.
pub(crate) fn plays_lines<F: Fn(u16, usize) -> usize + Drop>(
    rt: &impl Abort,
    alloc: Global,
    world: &mut World<AnyCable, F>,
    setting: &str,
    lines: &str,
) -> Result<(), WorldFault>
    requires one { PicksIndexes (F.pre world.old.one) (F.post world.old.one) }
    requires two { PicksIndexes (F.pre world.old.two) (F.post world.old.two) }
    ensures algorithm_one { world.new.one ≡ world.old.one }
    ensures algorithm_two { world.new.two ≡ world.old.two }
{
    let (_, events) = read(rt, alloc, setting, lines)?;
    let came = run_of(world, &events);
    compare_run(rt, alloc, lines, came)?;
    Ok(())
}

/// Plays so many healthy rounds.
pub(crate) fn plays_rounds<F: Fn(u16, usize) -> usize + Drop>(
    rt: &impl Abort,
    world: &mut World<AnyCable, F>,
    rounds: u16,
)
    requires one { PicksIndexes (F.pre world.old.one) (F.post world.old.one) }
    requires two { PicksIndexes (F.pre world.old.two) (F.post world.old.two) }
{
    let came = play_rounds(world, rounds);
    same(rt, "the rounds", &came, &Ok(()));
}

/// Both ends of each cable up to this one agree.
pub(crate) fn agree<F: Fn(u16, usize) -> usize + Drop>(
    rt: &impl Abort,
    world: &World<AnyCable, F>,
    last: u16,
) {
    for cable in 1..=last {
        let agreement = world.agreement(cable);
        let number = usize::from(cable);
        same_at(rt, "cable", number, &agreement, &Some(Agreement::Same));
    }
}
