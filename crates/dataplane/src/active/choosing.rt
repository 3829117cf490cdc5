//! The choice of the aggregator that carries.
ghost use Rattle.std.specs.Prelude.{◌≡◌, ◌≤◌, length, option_map};
ghost use Rattle.lagtypes.specs.declared.identifiers.AggId.{AggId};
ghost use Rattle.dataplane.specs.Choice.{Carries, IsAggregator, aggregator_or_none, better, is_before, is_other, lesser, rank_in};

use lagsystem::{AggId, Group, System};
use std::cmp::Reverse;

/// How an aggregator ranks among those that may carry a client's frames; the least carries (profile).
#[derive(Clone, Copy, Debug, PartialEq, Eq, PartialOrd, Ord)]
pub(crate) struct Rank {
    /// Whether the first port that distributes in the aggregator runs on defaults.
    pub(crate) on_defaults: bool,
    /// How many ports distribute in the aggregator.
    pub(crate) ports: Reverse<usize>,
    /// False only if this aggregator carries now.
    pub(crate) is_other: bool,
    /// The LAG ID of the aggregator.
    pub(crate) group: Group,
    /// The number of the aggregator.
    pub(crate) agg: AggId,
}

impl Rank {
    /// Whether this rank comes before another.
    fn is_before(&self, other: &Rank) -> bool
        ensures { result ≡ is_before self.now other.now }
    {
        self.cmp(other).is_lt()
    }
}

/// Whether an aggregator is not the one that carries now; true if none does.
fn is_other(now: Option<AggId>, agg: AggId) -> bool
    ensures { result ≡ is_other now agg }
{
    match now {
        Some(carrying) => carrying.0 != agg.0,
        None => true,
    }
}

/// The rank of an aggregator; `None` if no port distributes in it.
fn rank_in<F: Fn(u16, usize) -> usize + Drop>(
    now: Option<AggId>,
    system: &System<F>,
    agg: AggId,
) -> Option<Rank>
    ensures { result ≡ rank_in now system.now.state agg }
{
    let ports = system.distributing(agg);
    let first = *ports.first()?;
    let machines = system.machines(first)?;
    Some(Rank {
        on_defaults: machines.is_defaulted(),
        ports: Reverse(ports.len()),
        is_other: is_other(now, agg),
        group: Group::of(&machines.party(), &machines.partner().party()),
        agg,
    })
}

/// The last number that an aggregator of the system can have: how many there are, at most 65,535.
pub(crate) fn last_aggregator<F: Fn(u16, usize) -> usize + Drop>(system: &System<F>) -> u16
    ensures most { result ≤ length system.now.state.keys }
    ensures all { (agg : AggId) → IsAggregator system.now.state agg → agg.0 ≤ result }
{
    let count = system.aggregators();
    if count < 65_536 {
        count as u16
    } else {
        u16::MAX
    }
}

/// The lesser of two ranks, the first of which may be missing.
fn lesser(best: Option<Rank>, rank: Rank) -> Rank
    ensures { result ≡ lesser best rank }
{
    match best {
        Some(least) if least.is_before(&rank) => least,
        Some(_) | None => rank,
    }
}

/// The lesser of two ranks, either of which may be missing.
fn better(best: Option<Rank>, next: Option<Rank>) -> Option<Rank>
    ensures { result ≡ better best next }
{
    match next {
        Some(rank) => Some(lesser(best, rank)),
        None => best,
    }
}

/// The aggregator of a rank, if there is one.
fn aggregator_of(best: Option<Rank>) -> Option<AggId>
    ensures { result ≡ option_map (λ r. r.agg) best }
{
    Some(best?.agg)
}

// promise: the aggregator that carries has the least rank: a partner before defaults, more ports before fewer, the one that carries now
//    before others, the lesser LAG ID, the lower number; one where no port distributes has no rank, and None exactly if none has
// contract: `active_aggregator` (`Carries`)
/// The aggregator that carries the frames of a client, where `now` carried them before: one in which ports distribute with a
/// partner before one that runs on defaults, and of those the one with the most ports. `now` stays unless another has strictly
/// more; of several others the one with the least LAG ID is taken, then the lowest number. `None` if no port distributes (profile).
pub fn active_aggregator<F: Fn(u16, usize) -> usize + Drop>(
    system: &System<F>,
    now: Option<AggId>,
) -> Option<AggId>
    ensures { Carries now system.now.state result }
{
    let last = last_aggregator(system);
    let mut best = None;
    for number in 0..last {
        let next = rank_in(now, system, AggId(number + 1));
        best = better(best, next);
    }
    aggregator_of(best)
}

/// The aggregator with this number; 0 is none, as for one that carried before (profile).
pub fn aggregator_or_none(agg: u16) -> Option<AggId>
    ensures { result ≡ aggregator_or_none agg }
{
    match agg {
        0 => None,
        _ => Some(AggId(agg)),
    }
}
