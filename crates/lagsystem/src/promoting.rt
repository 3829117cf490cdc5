ghost use Rattle.std.specs.Prelude.{◌≡◌, ◌≤◌, ◌<◌, ◌+◌, ◌==◌, ℕ, None, Some, cond, get_or, length, not, position};
ghost use Rattle.std.specs.List.{list_any};
ghost use Rattle.std.specs.Bool.{OnFalse, OnTrue};
ghost use Rattle.lagtypes.specs.declared.identifiers.AggId.{AggId};
ghost use Rattle.lagtypes.specs.Choices.{is_selected, is_standby};
ghost use Rattle.selection.specs.Limits.{is_below, next_standby_index};
ghost use Rattle.lagsystem.specs.Settling.{PromotesAll, PromotesFirst, PromotesNext};
ghost use Rattle.lagsystem.specs.Promoting.{CountsMembers, count_standby};
ghost use Rattle.lagsystem.specs.Views.{views};

use crate::system_ports::SystemPort;
use lagtypes::{AggId, Choice};
use selection::{Aggregators, PortView};

/// Aggregators 1 to 64 are counted, each in the entry of its number; entry 0 counts nothing.
const ENTRIES: usize = 65;

/// Counts one member more of an aggregator.
fn add(counts: &mut [u8; 65], agg: AggId)
    requires few { (g : ℕ) → get_or counts.old g 0 < 255 }
    ensures { (g : ℕ) → g < 65 → get_or counts.new g 0 ≡ get_or counts.old g 0 + cond (agg.0 == g) 1 0 }
{
    let entry = usize::from(agg.0);
    if entry < ENTRIES {
        counts[entry] += 1;
    }
}

/// How many members each of the aggregators 1 to 64 has, in the entry of its number.
fn member_counts(system_ports: &[SystemPort]) -> [u8; 65]
    requires { length system_ports.now ≤ 64 }
    ensures { CountsMembers system_ports.now result }
{
    let mut counts = [0; 65];
    for system_port in system_ports {
        if let Choice::Selected(agg) = system_port.port.choice() {
            add(&mut counts, agg);
        }
    }
    counts
}

/// Whether the aggregator has fewer members than the limit; true if they are not counted.
fn may_have_room(counts: &[u8; 65], max_links: Option<u16>, agg: AggId) -> bool
    ensures counted { OnFalse result (agg.0 < 65) }
    ensures exact { agg.0 < 65 → result ≡ is_below max_links (get_or counts.now agg.0 0) }
{
    let entry = usize::from(agg.0);
    match max_links {
        Some(most) => entry >= ENTRIES || u16::from(counts[entry]) < most,
        None => true,
    }
}

/// Whether the port is STANDBY.
fn is_standby(system_port: &SystemPort) -> bool
    ensures { result ≡ is_standby system_port.now.port.choice }
{
    match system_port.port.choice() {
        Choice::Standby(_) => true,
        Choice::Unselected | Choice::Selected(_) => false,
    }
}

/// Whether some port is STANDBY.
fn any_standby(system_ports: &[SystemPort]) -> bool
    ensures { result ≡ list_any (λ s. is_standby s.port.choice) system_ports.now }
{
    system_ports
        .iter()
        .any(|system_port| is_standby(system_port))
}

/// False only if no STANDBY port can be promoted: each aggregator of one has no room. `first` is the index of the first port that
/// is not SELECTED.
pub(crate) fn may_promote(
    aggregators: &Aggregators,
    system_ports: &[SystemPort],
    first: usize,
) -> bool
    requires few { length system_ports.now ≤ 64 }
    requires first { position (λ s. not (is_selected s.port.choice)) system_ports.now ≡ Some first }
    ensures { OnFalse result ((agg : AggId) → next_standby_index aggregators.now (views system_ports.now) agg ≡ None) }
{
    let rest = &system_ports[first..];
    any_standby(rest) && some_may_have_room(aggregators, system_ports, first)
}

/// False only if no aggregator of a STANDBY port has room for one more member. `first` is the index of the first port that is not
/// SELECTED. The members are counted once, however many aggregators there are.
fn some_may_have_room(aggregators: &Aggregators, system_ports: &[SystemPort], first: usize) -> bool
    requires few { length system_ports.now ≤ 64 }
    requires first { position (λ s. not (is_selected s.port.choice)) system_ports.now ≡ Some first }
    ensures { OnFalse result ((agg : AggId) → next_standby_index aggregators.now (views system_ports.now) agg ≡ None) }
{
    let counts = member_counts(system_ports);
    let max_links = aggregators.max_links();
    for place in first..system_ports.len() {
        if let Choice::Standby(agg) = system_ports[place].port.choice() {
            if may_have_room(&counts, max_links, agg) {
                return true;
            }
        }
    }
    false
}

/// Makes the STANDBY port that comes next in the aggregator SELECTED; false if none comes next. The list of the views of
/// all ports is updated.
fn promote_next(
    aggregators: &Aggregators,
    system_ports: &mut [SystemPort],
    port_views: &mut [PortView],
    agg: AggId,
) -> bool
    requires { port_views.old ≡ views system_ports.old }
    ensures promoted { OnTrue result (PromotesNext aggregators.now agg system_ports.old system_ports.new) }
    ensures rest { OnFalse result (next_standby_index aggregators.now (views system_ports.old) agg ≡ None) }
    ensures same { OnFalse result (system_ports.new ≡ system_ports.old) }
    ensures fewer { OnTrue result (count_standby agg system_ports.new + 1 ≡ count_standby agg system_ports.old) }
    ensures port_views { port_views.new ≡ views system_ports.new }
{
    match aggregators.next_standby_index(port_views, agg) {
        Some(place) => {
            let choice = Choice::Selected(agg);
            let system_port = &mut system_ports[place];
            system_port.port.select(choice);
            port_views[place].choice = choice;
            true
        }
        None => false,
    }
}

/// Makes STANDBY ports of the aggregator SELECTED until none comes next.
fn promote_all(
    aggregators: &Aggregators,
    system_ports: &mut [SystemPort],
    port_views: &mut [PortView],
    agg: AggId,
)
    requires { port_views.old ≡ views system_ports.old }
    ensures promoted { PromotesAll aggregators.now agg system_ports.old system_ports.new }
    ensures port_views { port_views.new ≡ views system_ports.new }
{
    while promote_next(aggregators, system_ports, port_views, agg) {}
}

/// Makes STANDBY ports SELECTED in each aggregator in turn, until no aggregator has both room and a STANDBY port.
pub(crate) fn promote_each(
    aggregators: &Aggregators,
    system_ports: &mut [SystemPort],
    port_views: &mut [PortView],
)
    requires { port_views.old ≡ views system_ports.old }
    ensures promoted { PromotesFirst aggregators.now (length aggregators.now.keys) system_ports.old system_ports.new }
    ensures port_views { port_views.new ≡ views system_ports.new }
{
    for before in 0..aggregators.count() {
        let agg = AggId(before as u16 + 1);
        promote_all(aggregators, system_ports, port_views, agg);
    }
}
