ghost use Rattle.std.specs.Prelude.{◌≡◌, IfErr, IfOk, IsTrue, MatchOption, None, is_some};
ghost use Rattle.dataplane.specs.Notes.{nobody_asked};
ghost use Rattle.lagffi.specs.Holding.{held_value};
ghost use Rattle.lagffi.specs.Made.{holds_system_already, made_with_status, refusal_of};
ghost use Rattle.lagffi.specs.Resuming.{IsNotResumed, IsResumedOf, MayNotResume, not_resumed};
ghost use Rattle.lagffi.specs.Algorithms.{is_algorithm};

use crate::handle::{Block, Lag};
use crate::made::{HOLDS_SYSTEM_ALREADY, LAST_ALGORITHM, LagConfig, LagMade, LagPort, config_of};
use crate::refusal::refusal;
use crate::stored::{Stored, by_number};
use crate::values::OK;
use dataplane::{ResumeFault, SavedPort, resume};
use lagsystem::{System, SystemFault};
use std::alloc::Global;

/// A port does not come to distribute.
const NOT_DISTRIBUTING: u32 = 7;
/// The LACPDU of a port is as old as the port's timeout, or older.
const STALE: u32 = 23;

/// The warm start is refused for this reason.
fn not_resumed(fault: &ResumeFault) -> LagMade
    ensures { result ≡ not_resumed fault.now }
{
    match fault {
        ResumeFault::Stale(port) => LagMade {
            status: STALE,
            reason: 0,
            place: usize::from(*port),
        },
        ResumeFault::New(fault) => LagMade::refused(fault),
        ResumeFault::NotDistributing(port) => LagMade {
            status: NOT_DISTRIBUTING,
            reason: 0,
            place: usize::from(*port),
        },
    }
}

/// Makes the system of a warm start, with no algorithm.
fn resumed(
    alloc: Global,
    config: &LagConfig,
    keys: &[u16],
    ports: &[LagPort],
    saved: &[SavedPort],
) -> Result<System<()>, LagMade>
    requires accepted { refusal_of config.now keys.now ports.now ≡ None }
    requires algorithm { IsTrue (is_algorithm config.now.algorithm) }
    ensures resumed { IfOk result (λ system. IsResumedOf config.now keys.now ports.now saved.now system.state) }
    ensures refused { IfErr result (MayNotResume config.now keys.now ports.now saved.now) }
{
    let Ok(config) = config_of(alloc, config, keys, ports) else {
        return Err(LagMade::refused(&SystemFault::NoMemory));
    };
    match resume(alloc, config, by_number, saved) {
        Ok(system) => Ok(system.with_algorithm(())),
        Err(fault) => Err(not_resumed(&fault)),
    }
}

// promise: `lagffi_resume` puts the system of a warm start into an empty handle; else the handle stays as it was, with 14 if it holds one,
//    what `lagffi_new` refuses, or the port that `resume` refuses
// contract: `lagffi_resume` (`resumed`: `IsResumedOf`, `MayNotResume`; `live`)
/// A warm start: puts a system into an empty handle whose saved ports distribute in their aggregators, as their peers know them, and have
/// what is left of their timeouts. `saved` has the aggregator and the last LACPDU of each port that distributed in the system before it.
/// `first_marker` is niw_next_marker of that one, or higher. The ports send nothing between the two systems; every conversation is free.
/// `place` of the answer has the port that is refused.
/// Refuses: NIW_HAS_SYSTEM, NIW_BAD_CONFIG, NIW_NO_MEMORY, NIW_STALE, NIW_NOT_DISTRIBUTING.
#[unsafe(no_mangle)]
pub extern "C" fn lagffi_resume(
    alloc: Global,
    lag: &mut Lag,
    config: &LagConfig,
    keys: &[u16],
    ports: &[LagPort],
    saved: &[SavedPort],
) -> LagMade
    ensures live { IsTrue (is_some (held_value lag.old.held.kept)) → (result ≡ made_with_status holds_system_already)
        × (held_value lag.new.held.kept ≡ held_value lag.old.held.kept) }
    ensures resumed { held_value lag.old.held.kept ≡ None → MatchOption (held_value lag.new.held.kept)
        (MayNotResume config.now keys.now ports.now saved.now result)
        (λ h. IsResumedOf config.now keys.now ports.now saved.now h.state × (h.algorithm ≡ config.now.algorithm)
        × (h.answering ≡ nobody_asked) × (result ≡ made_with_status 0)) }
{
    if let Some((system, block)) = lag.take(alloc, ()) {
        lag.put(system, block);
        return LagMade::with_status(HOLDS_SYSTEM_ALREADY);
    }
    if let Some(reason) = refusal(config, keys, ports) {
        return LagMade::refused(&SystemFault::BadConfig(reason));
    }
    if config.algorithm > LAST_ALGORITHM {
        return LagMade::no_algorithm();
    }
    let Ok(room) = Block::new(alloc, Stored::under(config.algorithm)) else {
        return LagMade::refused(&SystemFault::NoMemory);
    };
    match resumed(alloc, config, keys, ports, saved) {
        Ok(system) => {
            lag.put(system, room);
            LagMade::with_status(OK)
        }
        Err(refused) => {
            drop(room.free());
            refused
        }
    }
}
