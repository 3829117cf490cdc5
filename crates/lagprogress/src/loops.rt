ghost use Rattle.std.specs.Prelude.{◌≡◌, ◌≤◌, ℕ, IfErr, IfOk, Some, length, true};
ghost use Rattle.distributor.specs.Calls.{PicksIndexes};
ghost use Rattle.lagmodel.specs.World.{Side};
ghost use Rattle.lagworld.specs.Events.{has_system, most_events};
ghost use Rattle.lagworld.specs.ModelWorld.{world_setup};
ghost use Rattle.lagworld.specs.Sound.{both_algorithms};
ghost use Rattle.lagprogress.specs.Bundle.{BothAreActive, OneIsActive};
ghost use Rattle.lagprogress.specs.HostFreed.{DrainingRounds, IsDrainingRound, sent_nothing};
ghost use Rattle.lagprogress.specs.HostRounds.{HostRounds, IsHostRound};
ghost use Rattle.lagprogress.specs.Played.{EachAgrees, EachDistributes, IsOutOfMemoryOrSpent, IsRefused, LeadsTo, NothingStaysHeld};
ghost use Rattle.lagprogress.specs.PlayedByHosts.{AsksEnds, AsksPort, EmptiesCables, PlaysHostPart, PlaysHostRound, PlaysHostRounds, StopsBetween, StopsInHostRounds};
ghost use Rattle.lagprogress.specs.Rounds.{freed_if_both_active, freed_if_one_is, up_if_both_active, up_if_one_is};
ghost use Rattle.lagprogress.specs.Steady.{IsSteady};

use crate::playing::{deliver_each, play};
use cables::Cable;
use lagworld::{Event, Reply, World, WorldFault};

/// Whether an Emit event sent nothing.
fn sent_nothing(reply: Reply) -> bool
    ensures { result ≡ sent_nothing reply }
{
    match reply {
        Reply::Lacpdu(_, _) => false,
        Reply::Marker(_, _) => false,
        _ => true,
    }
}

/// Asks a port of a system until it sends nothing.
fn ask_port<C: Cable, F: Fn(u16, usize) -> usize + Drop>(
    world: &mut World<C, F>,
    system: u8,
    port: u16,
) -> Result<(), WorldFault>
    requires one { PicksIndexes (F.pre world.old.one) (F.post world.old.one) }
    requires two { PicksIndexes (F.pre world.old.two) (F.post world.old.two) }
    requires named { has_system (Some system) ≡ true }
    ensures asks { IfOk result (λ done. AsksPort (both_algorithms (F.post world.old.one) (F.post world.old.two)) system port
        world.old.state world.new.state) }
    ensures part { IfErr result (λ fault. StopsBetween (both_algorithms (F.post world.old.one) (F.post world.old.two)) fault
        world.old.state world.new.state) }
    ensures refused { IfErr result (λ fault. IsOutOfMemoryOrSpent fault world.new.state) }
    ensures risen { world.old.state.acted ≤ world.new.state.acted }
    ensures few { world.old.state.acted ≤ most_events → world.new.state.acted ≤ most_events }
    ensures fixed { world_setup world.new.state ≡ world_setup world.old.state }
    ensures algorithm_one { world.new.one ≡ world.old.one }
    ensures algorithm_two { world.new.two ≡ world.old.two }
{
    loop {
        let reply = world.step(&Event::Emit(system, port))?;
        if sent_nothing(reply) {
            return Ok(());
        }
    }
}

/// Asks both ends of each of `count` cables until they send nothing.
fn ask_ends<C: Cable, F: Fn(u16, usize) -> usize + Drop>(
    world: &mut World<C, F>,
    count: u16,
) -> Result<(), WorldFault>
    requires one { PicksIndexes (F.pre world.old.one) (F.post world.old.one) }
    requires two { PicksIndexes (F.pre world.old.two) (F.post world.old.two) }
    requires counted { count ≡ length world.old.state.links }
    ensures asks { IfOk result (λ done. AsksEnds (both_algorithms (F.post world.old.one) (F.post world.old.two)) count
        world.old.state world.new.state) }
    ensures part { IfErr result (λ fault. StopsBetween (both_algorithms (F.post world.old.one) (F.post world.old.two)) fault
        world.old.state world.new.state) }
    ensures refused { IfErr result (λ fault. IsOutOfMemoryOrSpent fault world.new.state) }
    ensures risen { world.old.state.acted ≤ world.new.state.acted }
    ensures few { world.old.state.acted ≤ most_events → world.new.state.acted ≤ most_events }
    ensures fixed { world_setup world.new.state ≡ world_setup world.old.state }
    ensures algorithm_one { world.new.one ≡ world.old.one }
    ensures algorithm_two { world.new.two ≡ world.old.two }
{
    let mut asked = 0;
    while asked < count {
        // There is one, since there are `count`.
        let Some((one, two)) = world.ends(asked + 1) else {
            return Err(WorldFault::NoCable);
        };
        let first = ask_port(world, 1, one)?;
        let second = ask_port(world, 2, two)?;
        asked += 1;
    }
    Ok(())
}

/// Delivers what is on each of `count` cables, one item in each direction at a time, and asks the ends of all cables after
/// that, until nothing is on any.
fn deliver_and_ask<C: Cable, F: Fn(u16, usize) -> usize + Drop>(
    world: &mut World<C, F>,
    count: u16,
) -> Result<(), WorldFault>
    requires one { PicksIndexes (F.pre world.old.one) (F.post world.old.one) }
    requires two { PicksIndexes (F.pre world.old.two) (F.post world.old.two) }
    requires counted { count ≡ length world.old.state.links }
    ensures plays { IfOk result (λ done. EmptiesCables (both_algorithms (F.post world.old.one) (F.post world.old.two)) count
        world.old.state world.new.state) }
    ensures part { IfErr result (λ fault. StopsBetween (both_algorithms (F.post world.old.one) (F.post world.old.two)) fault
        world.old.state world.new.state) }
    ensures refused { IfErr result (λ fault. IsOutOfMemoryOrSpent fault world.new.state) }
    ensures fixed { world_setup world.new.state ≡ world_setup world.old.state }
    ensures algorithm_one { world.new.one ≡ world.old.one }
    ensures algorithm_two { world.new.two ≡ world.old.two }
{
    loop {
        if deliver_each(world, count)? {
            return Ok(());
        }
        ask_ends(world, count)?;
    }
}

// promise: `play_host_round` plays such a round, whatever the conversation, `play_host_rounds` so many; the first asks the ends of all cables
// contract: `play_host_round` (`round`, `drains`, `plays`), `play_host_rounds` (`plays`, `rounds`, `drains`)
// premises: both algorithms meet the condition; steady
// promise: rounds of hosts are refused as `NoCable` above 65,535 cables, with nothing played; else as `Spent`, or after both ticks as `NoMemory`
// contract: `play_host_round` (`refused`, `part`), `play_host_rounds` (`stopped`)
// premises: the condition
/// Plays one healthy round of a world as two hosts do: both systems tick, the ends of all cables are asked until they send
/// nothing, and while anything is on a cable, it is delivered and they are asked again. Where it is not refused, this is a round
/// as `hosts_play_rounds` and `held_conversations_are_freed_by_hosts` want it, if the systems are sound, their timers within
/// their bounds and no port held, as in each world that events lead to from a start. `NoMemory` or `Spent` if `World::step` refuses an event of
/// the round so; then the events before it have been played, and no other. So `NoMemory` comes after both ticks. `NoCable`, before any
/// event, if there are more than 65,535 cables, since no event can name the others (profile).
pub fn play_host_round<C: Cable, F: Fn(u16, usize) -> usize + Drop>(
    world: &mut World<C, F>,
) -> Result<(), WorldFault>
    requires one { PicksIndexes (F.pre world.old.one) (F.post world.old.one) }
    requires two { PicksIndexes (F.pre world.old.two) (F.post world.old.two) }
    ensures plays { IfOk result (λ done. PlaysHostRound (both_algorithms (F.post world.old.one) (F.post world.old.two))
        world.old.state world.new.state) }
    ensures round { IfOk result (λ done. IsSteady world.old.state → IsHostRound (both_algorithms (F.post world.old.one)
        (F.post world.old.two)) world.old.state world.new.state) }
    ensures drains { IfOk result (λ done. IsSteady world.old.state → (s : Side) (g k : ℕ) → IsDrainingRound s g k
        (both_algorithms (F.post world.old.one) (F.post world.old.two)) world.old.state world.new.state) }
    ensures part { IfErr result (λ fault. PlaysHostPart (both_algorithms (F.post world.old.one) (F.post world.old.two)) fault
        world.old.state world.new.state) }
    ensures refused { IfErr result (λ fault. IsRefused fault world.old.state world.new.state) }
    ensures fixed { world_setup world.new.state ≡ world_setup world.old.state }
    ensures algorithm_one { world.new.one ≡ world.old.one }
    ensures algorithm_two { world.new.two ≡ world.old.two }
{
    let Ok(count) = u16::try_from(world.cables()) else {
        return Err(WorldFault::NoCable);
    };
    let ticks = [Event::Tick(1, 1), Event::Tick(2, 1)];
    play(world, &ticks)?;
    ask_ends(world, count)?;
    deliver_and_ask(world, count)
}

// promise: **from a new world:** as `play_rounds` has it
// contract: `play_host_rounds` (`distributes_both`, `agrees_both`, `frees_both`, and `_one` of each)
// premises: the same
/// Plays so many healthy rounds, as `play_host_round` plays one, and stops in the first that is refused.
pub fn play_host_rounds<C: Cable, F: Fn(u16, usize) -> usize + Drop>(
    world: &mut World<C, F>,
    count: u16,
) -> Result<(), WorldFault>
    requires one { PicksIndexes (F.pre world.old.one) (F.post world.old.one) }
    requires two { PicksIndexes (F.pre world.old.two) (F.post world.old.two) }
    ensures plays { IfOk result (λ done. PlaysHostRounds (both_algorithms (F.post world.old.one) (F.post world.old.two)) count
        world.old.state world.new.state) }
    ensures rounds { IfOk result (λ done. IsSteady world.old.state → HostRounds (both_algorithms (F.post world.old.one)
        (F.post world.old.two)) count world.old.state world.new.state) }
    ensures drains { IfOk result (λ done. IsSteady world.old.state → (s : Side) (g k : ℕ) → DrainingRounds s g k
        (both_algorithms (F.post world.old.one) (F.post world.old.two)) count world.old.state world.new.state) }
    ensures distributes_both { IfOk result (λ done. LeadsTo C.items C.limit EachDistributes BothAreActive up_if_both_active
        (both_algorithms (F.post world.old.one) (F.post world.old.two)) count world.old.state world.new.state) }
    ensures agrees_both { IfOk result (λ done. LeadsTo C.items C.limit EachAgrees BothAreActive up_if_both_active
        (both_algorithms (F.post world.old.one) (F.post world.old.two)) count world.old.state world.new.state) }
    ensures frees_both { IfOk result (λ done. LeadsTo C.items C.limit NothingStaysHeld BothAreActive freed_if_both_active
        (both_algorithms (F.post world.old.one) (F.post world.old.two)) count world.old.state world.new.state) }
    ensures distributes_one { IfOk result (λ done. LeadsTo C.items C.limit EachDistributes OneIsActive up_if_one_is
        (both_algorithms (F.post world.old.one) (F.post world.old.two)) count world.old.state world.new.state) }
    ensures agrees_one { IfOk result (λ done. LeadsTo C.items C.limit EachAgrees OneIsActive up_if_one_is
        (both_algorithms (F.post world.old.one) (F.post world.old.two)) count world.old.state world.new.state) }
    ensures frees_one { IfOk result (λ done. LeadsTo C.items C.limit NothingStaysHeld OneIsActive freed_if_one_is
        (both_algorithms (F.post world.old.one) (F.post world.old.two)) count world.old.state world.new.state) }
    ensures stopped { IfErr result (λ fault. StopsInHostRounds (both_algorithms (F.post world.old.one) (F.post world.old.two)) fault
        count world.old.state world.new.state) }
    ensures fixed { world_setup world.new.state ≡ world_setup world.old.state }
    ensures algorithm_one { world.new.one ≡ world.old.one }
    ensures algorithm_two { world.new.two ≡ world.old.two }
{
    let mut done = 0;
    while done < count {
        play_host_round(world)?;
        done += 1;
    }
    Ok(())
}
