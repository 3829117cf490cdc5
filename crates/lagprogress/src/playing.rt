ghost use Rattle.std.specs.Prelude.{◌≡◌, ◌<◌, ◌≤◌, ◌&&◌, false, IfErr, IfOk, length, true};
ghost use Rattle.std.specs.List.{AllByRecursion};
ghost use Rattle.distributor.specs.Calls.{PicksIndexes};
ghost use Rattle.lagworld.specs.Events.{most_events};
ghost use Rattle.lagworld.specs.ModelWorld.{world_setup};
ghost use Rattle.lagworld.specs.Sound.{both_algorithms};
ghost use Rattle.lagprogress.specs.Bundle.{BothAreActive, OneIsActive};
ghost use Rattle.lagprogress.specs.Played.{Delivers, EachAgrees, EachDistributes, IsOutOfMemoryOrSpent, IsRefused, LeadsTo, NamesNoCable};
ghost use Rattle.lagprogress.specs.Played.{NothingStaysHeld, PlaysPart, RefusesDelivery, RunsAll, RunsPart, StopsInRound, found_nothing};
ghost use Rattle.lagprogress.specs.Rounds.{IsRound, NothingInFlight, Rounds, asks_all, freed_if_both_active, freed_if_one_is, up_if_both_active, up_if_one_is};

use cables::Cable;
use lagworld::{Event, Reply, World, WorldFault};

/// Plays these events; the replies are dropped.
pub(crate) fn play<C: Cable, F: Fn(u16, usize) -> usize + Drop>(
    world: &mut World<C, F>,
    events: &[Event],
) -> Result<(), WorldFault>
    requires one { PicksIndexes (F.pre world.old.one) (F.post world.old.one) }
    requires two { PicksIndexes (F.pre world.old.two) (F.post world.old.two) }
    ensures all { IfOk result (λ done. RunsAll (both_algorithms (F.post world.old.one) (F.post world.old.two)) events.now world.old.state
        world.new.state) }
    ensures part { IfErr result (λ fault. RunsPart (both_algorithms (F.post world.old.one) (F.post world.old.two)) events.now
        fault world.old.state world.new.state) }
    ensures refused { IfErr result (λ fault. AllByRecursion NamesNoCable events.now → IsOutOfMemoryOrSpent fault world.new.state) }
    ensures fixed { world_setup world.new.state ≡ world_setup world.old.state }
    ensures algorithm_one { world.new.one ≡ world.old.one }
    ensures algorithm_two { world.new.two ≡ world.old.two }
{
    let mut acted = 0;
    while acted < events.len() {
        world.step(&events[acted])?;
        acted += 1;
    }
    Ok(())
}

/// Asks both ends of each of `count` cables twice for what they have to send.
fn ask_all<C: Cable, F: Fn(u16, usize) -> usize + Drop>(
    world: &mut World<C, F>,
    count: u16,
) -> Result<(), WorldFault>
    requires one { PicksIndexes (F.pre world.old.one) (F.post world.old.one) }
    requires two { PicksIndexes (F.pre world.old.two) (F.post world.old.two) }
    requires counted { count ≡ length world.old.state.links }
    ensures all { IfOk result (λ done. RunsAll (both_algorithms (F.post world.old.one) (F.post world.old.two))
        (asks_all world.old.state.links) world.old.state world.new.state) }
    ensures part { IfErr result (λ fault. RunsPart (both_algorithms (F.post world.old.one) (F.post world.old.two))
        (asks_all world.old.state.links) fault world.old.state world.new.state) }
    ensures refused { IfErr result (λ fault. IsOutOfMemoryOrSpent fault world.new.state) }
    ensures fixed { world_setup world.new.state ≡ world_setup world.old.state }
    ensures algorithm_one { world.new.one ≡ world.old.one }
    ensures algorithm_two { world.new.two ≡ world.old.two }
{
    let mut asked = 0;
    while asked < count {
        // There is one, since there are `count`.
        let Some((one, two)) = world.ends(asked + 1) else {
            return Err(WorldFault::NoCable);
        };
        let asks = [
            Event::Emit(1, one),
            Event::Emit(1, one),
            Event::Emit(2, two),
            Event::Emit(2, two),
        ];
        play(world, &asks)?;
        asked += 1;
    }
    Ok(())
}

/// Whether a Deliver event found nothing on its cable.
fn found_nothing(reply: Reply) -> bool
    ensures { result ≡ found_nothing reply }
{
    match reply {
        Reply::Empty => true,
        _ => false,
    }
}

/// Whether nothing was found so far, and by the next two Deliver events neither.
fn all_empty(so_far: bool, first: Reply, second: Reply) -> bool
    ensures { result ≡ ((so_far && found_nothing first) && found_nothing second) }
{
    so_far && found_nothing(first) && found_nothing(second)
}

/// Delivers the first item in each direction of each of `count` cables. Whether there was none.
pub(crate) fn deliver_each<C: Cable, F: Fn(u16, usize) -> usize + Drop>(
    world: &mut World<C, F>,
    count: u16,
) -> Result<bool, WorldFault>
    requires one { PicksIndexes (F.pre world.old.one) (F.post world.old.one) }
    requires two { PicksIndexes (F.pre world.old.two) (F.post world.old.two) }
    requires counted { count ≡ length world.old.state.links }
    ensures delivers { Delivers (both_algorithms (F.post world.old.one) (F.post world.old.two)) world.old.state world.new.state }
    ensures next { IfErr result (λ fault. RefusesDelivery fault world.new.state) }
    ensures empties { IfOk result (λ empty. empty ≡ true → NothingInFlight world.new.state) }
    ensures empty { IfOk result (λ empty. empty ≡ true → NothingInFlight world.old.state) }
    ensures acted { IfOk result (λ empty. empty ≡ false → world.old.state.acted < world.new.state.acted) }
    ensures few { IfOk result (λ empty. empty ≡ false → world.new.state.acted ≤ most_events) }
    ensures refused { IfErr result (λ fault. IsOutOfMemoryOrSpent fault world.new.state) }
    ensures fixed { world_setup world.new.state ≡ world_setup world.old.state }
    ensures algorithm_one { world.new.one ≡ world.old.one }
    ensures algorithm_two { world.new.two ≡ world.old.two }
{
    let mut empty = true;
    let mut seen = 0;
    while seen < count {
        let first = world.step(&Event::Deliver(seen + 1, 1))?;
        let second = world.step(&Event::Deliver(seen + 1, 2))?;
        empty = all_empty(empty, first, second);
        seen += 1;
    }
    Ok(empty)
}

/// Delivers what is on each of `count` cables until nothing is on any.
fn deliver_all<C: Cable, F: Fn(u16, usize) -> usize + Drop>(
    world: &mut World<C, F>,
    count: u16,
) -> Result<(), WorldFault>
    requires one { PicksIndexes (F.pre world.old.one) (F.post world.old.one) }
    requires two { PicksIndexes (F.pre world.old.two) (F.post world.old.two) }
    requires counted { count ≡ length world.old.state.links }
    ensures delivers { Delivers (both_algorithms (F.post world.old.one) (F.post world.old.two)) world.old.state world.new.state }
    ensures next { IfErr result (λ fault. RefusesDelivery fault world.new.state) }
    ensures empties { IfOk result (λ done. NothingInFlight world.new.state) }
    ensures refused { IfErr result (λ fault. IsOutOfMemoryOrSpent fault world.new.state) }
    ensures fixed { world_setup world.new.state ≡ world_setup world.old.state }
    ensures algorithm_one { world.new.one ≡ world.old.one }
    ensures algorithm_two { world.new.two ≡ world.old.two }
{
    loop {
        if deliver_each(world, count)? {
            return Ok(());
        }
    }
}

// promise: `play_round` plays a healthy round, `play_rounds` the given number in turn, in any world
// contract: `play_round` (`round`), `play_rounds` (`rounds`)
// premises: both algorithms meet [the condition](#lagsystem). That it is not refused tests show
// promise: healthy rounds are refused as `NoCable` above 65,535 cables, with nothing played; else as `World::step` refuses the next event of a round:
//    as `Spent`, or after both ticks and where there is a cable as `NoMemory`
// contract: `play_round` (`refused`, `part`), `play_rounds` (`stopped`)
/// Plays one healthy round of a world: both systems tick, both ends of each cable are asked twice, since an LACPDU goes before a
/// marker, and what is on the cables is delivered until nothing is. Where it is not refused, this is a healthy round, as
/// `hosts_play_rounds` has it, from whatever state the world was in. `NoMemory` or `Spent` if `World::step` refuses an event of the
/// round so; then the events before it have been played, and no other. So `NoMemory` comes after both ticks, and only where there is
/// a cable. `NoCable`, before any event, if there are more than 65,535 cables, since no event can name the others (profile).
pub fn play_round<C: Cable, F: Fn(u16, usize) -> usize + Drop>(
    world: &mut World<C, F>,
) -> Result<(), WorldFault>
    requires one { PicksIndexes (F.pre world.old.one) (F.post world.old.one) }
    requires two { PicksIndexes (F.pre world.old.two) (F.post world.old.two) }
    ensures round { IfOk result (λ done. IsRound (both_algorithms (F.post world.old.one) (F.post world.old.two)) world.old.state
        world.new.state) }
    ensures part { IfErr result (λ fault. PlaysPart (both_algorithms (F.post world.old.one) (F.post world.old.two)) fault
        world.old.state world.new.state) }
    ensures refused { IfErr result (λ fault. IsRefused fault world.old.state world.new.state) }
    ensures fixed { world_setup world.new.state ≡ world_setup world.old.state }
    ensures algorithm_one { world.new.one ≡ world.old.one }
    ensures algorithm_two { world.new.two ≡ world.old.two }
{
    let Ok(count) = u16::try_from(world.cables()) else {
        return Err(WorldFault::NoCable);
    };
    let ticks = [Event::Tick(1, 1), Event::Tick(2, 1)];
    play(world, &ticks)?;
    ask_all(world, count)?;
    deliver_all(world, count)
}

// promise: **from a new world:** after `World::new`, any events and `play_rounds` with a count, both ports of each healthy cable are up and
//    its `agreement` is `Same` (356 | 657), and no conversation is held (386 | 687) where an identifier is left
// contract: `play_rounds` (`distributes_both`, `agrees_both`, `frees_both`, and `_one` of each: `LeadsTo`)
// premises: no round was refused; before them `AllHeard`, `HasAggregators` and `EnoughLinks` hold (`IsReady`)
/// Plays so many healthy rounds, as `play_round` plays one, and stops in the first that is refused.
pub fn play_rounds<C: Cable, F: Fn(u16, usize) -> usize + Drop>(
    world: &mut World<C, F>,
    count: u16,
) -> Result<(), WorldFault>
    requires one { PicksIndexes (F.pre world.old.one) (F.post world.old.one) }
    requires two { PicksIndexes (F.pre world.old.two) (F.post world.old.two) }
    ensures rounds { IfOk result (λ done. Rounds (both_algorithms (F.post world.old.one) (F.post world.old.two)) count world.old.state
        world.new.state) }
    ensures distributes_both { IfOk result (λ done. LeadsTo C.items C.limit EachDistributes BothAreActive up_if_both_active
        (both_algorithms (F.post world.old.one) (F.post world.old.two)) count world.old.state world.new.state) }
    ensures agrees_both { IfOk result (λ done. LeadsTo C.items C.limit EachAgrees BothAreActive up_if_both_active
        (both_algorithms (F.post world.old.one) (F.post world.old.two)) count world.old.state world.new.state) }
    ensures frees_both { IfOk result (λ done. LeadsTo C.items C.limit NothingStaysHeld BothAreActive freed_if_both_active
        (both_algorithms (F.post world.old.one) (F.post world.old.two)) count world.old.state world.new.state) }
    ensures distributes_one { IfOk result (λ done. LeadsTo C.items C.limit EachDistributes OneIsActive up_if_one_is
        (both_algorithms (F.post world.old.one) (F.post world.old.two)) count world.old.state world.new.state) }
    ensures agrees_one { IfOk result (λ done. LeadsTo C.items C.limit EachAgrees OneIsActive up_if_one_is
        (both_algorithms (F.post world.old.one) (F.post world.old.two)) count world.old.state world.new.state) }
    ensures frees_one { IfOk result (λ done. LeadsTo C.items C.limit NothingStaysHeld OneIsActive freed_if_one_is
        (both_algorithms (F.post world.old.one) (F.post world.old.two)) count world.old.state world.new.state) }
    ensures stopped { IfErr result (λ fault. StopsInRound (both_algorithms (F.post world.old.one) (F.post world.old.two)) fault count
        world.old.state world.new.state) }
    ensures fixed { world_setup world.new.state ≡ world_setup world.old.state }
    ensures algorithm_one { world.new.one ≡ world.old.one }
    ensures algorithm_two { world.new.two ≡ world.old.two }
{
    let mut done = 0;
    while done < count {
        play_round(world)?;
        done += 1;
    }
    Ok(())
}
