//! After a warm start each conversation goes back to the port on which the data plane has it.
ghost use Rattle.std.specs.Prelude.{◌≡◌, IfOk, Ok};
ghost use Rattle.distributor.specs.declared.assignment.Assignment.{Assignment};
ghost use Rattle.distributor.specs.Calls.{PicksIndexes};
ghost use Rattle.lagsystem.specs.Offers.{GivesOrRefuses, has_aggregator, in_system};
ghost use Rattle.dataplane.specs.Adopting.{IsFreeIn, IsPlaced, adopt_result, adopted};

use lagsystem::{AggId, Assignment, System, SystemFault};

/// The state of a conversation in this state after a port adopted it, or the first reason to refuse.
fn adopted(
    next: Option<u32>,
    ports: &[u16],
    port: u16,
    state: Assignment,
) -> Result<Assignment, SystemFault>
    ensures { result ≡ in_system (adopted next ports.now port state) }
{
    match state {
        Assignment::Free { .. } if !ports.contains(&port) => Err(SystemFault::NotDistributing),
        Assignment::Free { .. } if next.is_none() => Err(SystemFault::MarkersSpent),
        Assignment::Free { .. } => Ok(Assignment::On(port)),
        Assignment::On(given) if given == port => Ok(Assignment::On(port)),
        Assignment::On(_) | Assignment::Wanted { .. } | Assignment::Flushing { .. } => {
            Err(SystemFault::Held)
        }
    }
}

/// Whether a system has this aggregator.
fn has_aggregator<F: Fn(u16, usize) -> usize + Drop>(system: &System<F>, agg: AggId) -> bool
    ensures { result ≡ has_aggregator system.now.state agg }
{
    agg.0 > 0 && usize::from(agg.0) <= system.aggregators()
}

/// What `adopt` makes of a conversation.
fn adoption<F: Fn(u16, usize) -> usize + Drop>(
    system: &System<F>,
    agg: AggId,
    conv: u16,
    port: u16,
) -> Result<Assignment, SystemFault>
    ensures { result ≡ adopt_result system.now.state agg conv port }
{
    if !has_aggregator(system, agg) {
        return Err(SystemFault::NoAggregator);
    }
    if system.machines(port).is_none() {
        return Err(SystemFault::NoPort);
    }
    let Some(state) = system.conversation_state(agg, conv) else {
        return Err(SystemFault::NotAssigned);
    };
    adopted(
        system.next_marker(),
        system.distributing(agg).as_slice(),
        port,
        state,
    )
}

/// Puts a free conversation on a port that distributes. Where the algorithm picks another, the conversation leaves it at once: no
/// frame and no marker is sent there.
fn place_on<F: Fn(u16, usize) -> usize + Drop>(
    system: &mut System<F>,
    agg: AggId,
    conv: u16,
    port: u16,
) -> Result<(), SystemFault>
    requires usable { PicksIndexes (F.pre system.old.algorithm) (F.post system.old.algorithm) }
    requires free { IsFreeIn system.old.state agg conv }
    requires accepted { adopt_result system.old.state agg conv port ≡ Ok (Assignment.On port) }
    ensures done { result ≡ Ok tt }
    ensures placed { IsPlaced agg conv port system.old.state system.new.state }
    ensures algorithm { system.new.algorithm ≡ system.old.algorithm }
{
    let picked = system.offer_conversation(agg, conv)?;
    if picked == port {
        return Ok(());
    }
    system.move_conversation(agg, conv, port)?;
    system.force(agg, conv)?;
    system.offer_conversation(agg, conv)?;
    Ok(())
}

// promise: **adopted**: what is free is On the port of the chip, and every other conversation, the ports and the next marker stay. To the law
//    of two systems it is one offer of a frame that goes on that port. What is On it already stays
// contract: `adopt` (`gives`: `adopt_result`; `offers`: `IsPlaced`; `same`)
/// Puts a conversation of an aggregator on the port on which the host's data plane has it, whichever port the algorithm picks: after a
/// warm start, before another frame of it is offered. No frame and no marker is sent. One that is on the port already stays. Refused in
/// this order: `NoAggregator`; `NoPort`; `NotAssigned` if there is no conversation of this number; `Held` if it is on another port, or
/// waits for a marker's response; `NotDistributing` if the port does not distribute in the aggregator; `MarkersSpent` if no marker
/// identifier is left (profile).
pub fn adopt<F: Fn(u16, usize) -> usize + Drop>(
    system: &mut System<F>,
    agg: AggId,
    conv: u16,
    port: u16,
) -> Result<(), SystemFault>
    requires usable { PicksIndexes (F.pre system.old.algorithm) (F.post system.old.algorithm) }
    ensures gives { GivesOrRefuses agg conv (adopt_result system.old.state agg conv port) system.old.state result system.new.state }
    ensures offers { IfOk result (λ done. IsFreeIn system.old.state agg conv → IsPlaced agg conv port system.old.state system.new.state) }
    ensures same { (IsFreeIn system.old.state agg conv → ⊥) → system.new.state ≡ system.old.state }
    ensures algorithm { system.new.algorithm ≡ system.old.algorithm }
{
    adoption(system, agg, conv, port)?;
    match system.conversation_state(agg, conv) {
        Some(Assignment::Free { .. }) => place_on(system, agg, conv, port),
        Some(_) | None => Ok(()),
    }
}

ghost use Rattle.std.specs.Prelude.{◌≢◌, ℕ, IsSome, List, Option, Some};
ghost use Rattle.lagmodel.specs.Succession.{IsAlikeSetup, IsSuccessor, KeepsParties};
ghost use Rattle.lagmodel.specs.View.{PortFacts, SystemSetup, View};
ghost use Rattle.lagmodel.specs.World.{TakenLacpdu, party_at};
ghost use Rattle.lagsystem.specs.declared.config.Config.{Config};
ghost use Rattle.lagsystem.specs.ModelView.{model_setup, model_view};
ghost use Rattle.lagsystem.specs.State.{SystemState};
ghost use Rattle.dataplane.specs.declared.resuming.SavedPort.{SavedPort};
ghost use Rattle.dataplane.specs.Adopting.{Adoption, Adopts, IsWarmStart};
ghost use Rattle.dataplane.specs.Resuming.{IsResumed};

// promise: **a warm start may follow**: a system that `resume` made of the LACPDUs that ports took last, with each conversation that had a
//    port adopted there, goes on where the one before it was, if that had its identifier, keys of aggregators and ports, whatever its first
//    marker was: it is a takeover of `headline_through_succession` (`IsSuccessor`) and of lagnetwork (`IsNetworkSuccessor`), so order,
//    agreement and one partner stay. Whatever `resume` and `adopt` accept follows some system
// contract: `a_warm_start_may_follow` (`follows`: `IsAlikeSetup`, `IsWarmStart`; `parties`, `apart`, `possible`)
// not said: that a host saved the last LACPDUs, and adopted each conversation that had a port
/// A system may take the place of the one before it (`follows`). `setup` is what was set up before the stop, and the configuration of `new`
/// what is set up after it: this has the same identifier, the same aggregators with the same keys, and ports of the same numbers
/// (`IsAlikeSetup`). The first marker, and the own parameters that the ports start with, may differ. `resume` was given LACPDUs that the
/// ports took last, and as first marker the next one of the system before or a higher one; and each conversation that had a port was adopted
/// there (`IsWarmStart`). The ports of the new system have the own parameters that they had at the stop, if these are the configured ones
/// (`parties`); and none that is in an aggregator has its own system as its partner (`apart`). Whatever was resumed and adopted may take the
/// place of a system that looked like it (`possible`; 6.2.4, 6.3.6, 6.4.9; profile).
pub fn a_warm_start_may_follow<F: Fn(u16, usize) -> usize>()
    ensures follows { (algorithm : F) (setup : SystemSetup) (before : View) (taken : ℕ → Option TakenLacpdu) (new : SystemState)
        → IsAlikeSetup setup (model_setup new) → IsWarmStart (F.post algorithm) before taken new
        → IsSuccessor setup before taken (model_view new) }
    ensures parties { (algorithm : F) (before : View) (taken : ℕ → Option TakenLacpdu) (new : SystemState)
        → IsWarmStart (F.post algorithm) before taken new → ((p : ℕ) → party_at before p ≡ (model_setup new).party p)
        → KeepsParties before (model_view new) }
    ensures apart { (algorithm : F) (before : View) (taken : ℕ → Option TakenLacpdu) (new : SystemState) (p : ℕ) (a : PortFacts)
        → IsWarmStart (F.post algorithm) before taken new → (model_view new).port p ≡ Some a → IsSome a.aggregator
        → a.partner.system ≢ a.party.system }
    ensures possible { (algorithm : F) (config : Config) (saved : List SavedPort) (resumed new : SystemState) (adoptions : List Adoption)
        → IsResumed (F.post algorithm) config saved resumed → Adopts resumed adoptions new
        → (taken : ℕ → Option TakenLacpdu) × IsWarmStart (F.post algorithm) (model_view new) taken new }
{}
