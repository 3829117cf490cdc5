ghost use Rattle.std.specs.Prelude.{◌≡◌, ◌≢◌, [], All, IfErr, IfOk, Some};
ghost use Rattle.cables.specs.AnyCable.{any_items, any_limit};
ghost use Rattle.cables.specs.declared.ring.CableFault.TheVariants.{NoMemory};
ghost use Rattle.lagworld.specs.Making.{first_link};
ghost use Rattle.lagtool_jobs.specs.ReplayReport.{empty_link};
ghost use Rattle.lagtool_jobs.specs.ReplaySteps.{AreEmptyDirections};

use cables::{AnyCable, CableFault, ListCable, RingCable};
use std::alloc::Global;

/// One direction of a cable with this limit, empty.
fn direction(alloc: Global, limit: Option<u16>) -> Result<AnyCable, CableFault>
    requires { limit ≢ Some 0 }
    ensures empty { IfOk result (λ cable. any_items cable ≡ []) }
    ensures limit { IfOk result (λ cable. any_limit cable ≡ limit) }
    ensures err { IfErr result (λ fault. fault ≡ NoMemory) }
{
    match limit {
        None => Ok(AnyCable::List(ListCable::new(alloc))),
        Some(limit) => Ok(AnyCable::Ring(RingCable::new(alloc, limit)?)),
    }
}

/// The two directions of a cable, empty, each with this limit.
#[tactic(auto, using(crate::proofs::StartLemmas::empty_line))]
fn both_directions(alloc: Global, limit: Option<u16>) -> Result<(AnyCable, AnyCable), CableFault>
    requires { limit ≢ Some 0 }
    ensures ok { IfOk result (λ line. first_link any_items any_limit (0, 0) line ≡ empty_link (0, 0) limit) }
    ensures err { IfErr result (λ fault. fault ≡ NoMemory) }
{
    let to_one = direction(alloc, limit)?;
    let to_two = direction(alloc, limit)?;
    Ok((to_one, to_two))
}

// promise: `NoMemory` means that memory was refused: a plan, its world and its events are refused for nothing else
// contract: `all_directions` (`err`), `make_world` (`refused`), `run_events` (`stopped`); `AllNameExisting`
/// The two directions of each cable, with these limits, in order.
pub(crate) fn all_directions(
    alloc: Global,
    limits: &[Option<u16>],
) -> Result<Vec<(AnyCable, AnyCable)>, CableFault>
    requires { All (λ limit. limit ≢ Some 0) limits.now }
    ensures ok { IfOk result (λ lines. AreEmptyDirections limits.now lines.items) }
    ensures err { IfErr result (λ fault. fault ≡ NoMemory) }
{
    let mut lines = Vec::with_capacity(alloc, limits.len())?;
    for limit in limits {
        let line = both_directions(alloc, *limit)?;
        lines.push_reserved(line);
    }
    Ok(lines)
}
