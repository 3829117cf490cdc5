ghost use Rattle.std.specs.Prelude.{◌≡◌};
ghost use Rattle.lagworld.specs.Agreement.{agreement_at, agreement_of, end_facts, is_stamp, same_groups};
ghost use Rattle.lagworld.specs.WorldCalls.{world_state};
ghost use Rattle.lagworld.specs.Inner.{half_state};
ghost use Rattle.lagworld.specs.State.{change_count_in, taken_in};

use crate::half::Half;
use crate::histories::{PortHistory, StampedLacpdu, history_of};
use crate::inner::Inner;
use crate::link::link_status;
use cables::Cable;
use lagtypes::Group;

/// How the two ends of a cable stand to each other; the first variant that holds. A port's change count is how many
/// events changed its own parameters; each LACPDU has its sender's count as its stamp (profile).
#[derive(Clone, Copy, Debug, PartialEq, Eq)]
pub enum Agreement {
    /// An end does not distribute.
    NotBoth,
    /// An end has a defaulted partner: no LACPDU set it.
    Defaults,
    /// An end's parameters changed since it sent the LACPDU that its peer took last (its change count is not that
    /// LACPDU's stamp), or its peer took none.
    Changed,
    /// Both ends have the same Link Aggregation Group (6.3.6).
    Same,
    /// The ends have different groups. It is proved that this is never returned.
    Differ,
}

/// The values of one end that `agreement` compares.
#[derive(Clone, Copy, Debug, PartialEq, Eq)]
pub(crate) struct EndFacts {
    distributes: bool,
    defaulted: bool,
    count: u64,
    taken: Option<StampedLacpdu>,
    group: Option<Group>,
}

/// The change count in a history; 0 if there is none.
fn change_count_in(history: Option<PortHistory>) -> u64
    ensures { result ≡ change_count_in history }
{
    match history {
        Some(history) => history.count,
        None => 0,
    }
}

/// The LACPDU that a port took last, from its history.
fn taken_in(history: Option<PortHistory>) -> Option<StampedLacpdu>
    ensures { result ≡ taken_in history }
{
    match history {
        Some(history) => history.taken,
        None => None,
    }
}

/// Whether the change count of an end is the stamp of the LACPDU that its peer took last.
fn is_stamp(count: u64, taken: Option<StampedLacpdu>) -> bool
    ensures { result ≡ is_stamp count taken }
{
    match taken {
        Some(lacpdu) => lacpdu.stamp == count,
        None => false,
    }
}

/// Whether there are two groups, and they are one Link Aggregation Group (6.3.6).
fn same_groups(one: Option<Group>, two: Option<Group>) -> bool
    ensures { result ≡ same_groups one two }
{
    match (one, two) {
        (Some(one), Some(two)) => one == two,
        _ => false,
    }
}

/// How these two ends stand to each other.
fn agreement_of(one: &EndFacts, two: &EndFacts) -> Agreement
    ensures { result ≡ agreement_of one.now two.now }
{
    if !one.distributes || !two.distributes {
        return Agreement::NotBoth;
    }
    if one.defaulted || two.defaulted {
        return Agreement::Defaults;
    }
    if !is_stamp(one.count, two.taken) || !is_stamp(two.count, one.taken) {
        return Agreement::Changed;
    }
    if same_groups(one.group, two.group) {
        Agreement::Same
    } else {
        Agreement::Differ
    }
}

impl<F: Fn(u16, usize) -> usize + Drop> Half<F> {
    /// The values of a port that `agreement` compares.
    fn end_facts(&self, port: u16) -> EndFacts
        ensures { result ≡ end_facts (half_state self.now) port }
    {
        let history = history_of(&self.histories, port);
        EndFacts {
            distributes: self.system.distributes(port).unwrap_or(false),
            defaulted: self.system.defaulted(port).unwrap_or(false),
            count: change_count_in(history),
            taken: taken_in(history),
            group: self.system.group(port),
        }
    }
}

impl<C: Cable, F: Fn(u16, usize) -> usize + Drop> Inner<C, F> {
    /// How the ends of a cable stand to each other; None if there is no such cable.
    pub(crate) fn agreement(&self, cable: u16) -> Option<Agreement>
        ensures { result ≡ agreement_at (world_state C.items C.limit self.now) cable }
    {
        if !self.has_cable(Some(cable)) {
            return None;
        }
        let status = link_status(&self.links, self.link_index_of(cable));
        let one = self.one.end_facts(status.one);
        let two = self.two.end_facts(status.two);
        Some(agreement_of(&one, &two))
    }
}
