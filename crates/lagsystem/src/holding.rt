ghost use Rattle.std.specs.Prelude.{◌≡◌, ◌<◌, ◌≤◌, [], length, slice_set};
ghost use Rattle.distributor.specs.Changes.{ChangesAssignments};
ghost use Rattle.lagsystem.specs.Calls.{FreesIfDown};
ghost use Rattle.lagsystem.specs.Holding.{after_holding, aggregators_in_use, has_stopped, stopped};

use crate::distributing_ports::{collecting, distributes_in};
use crate::system_ports::SystemPort;
use arrayvec::ArrayVec;
use distributor::Distributor;
use lagtypes::AggId;

/// Lists for each port, in order, the aggregator in which it distributes, or None. The caller has the list, which has room for 64
/// ports, and would be copied if it were returned.
pub(crate) fn list_aggregators_in_use(
    system_ports: &[SystemPort],
    found: &mut ArrayVec<Option<AggId>, 64>,
)
    requires few { length system_ports.now ≤ 64 }
    requires empty { found.old.items ≡ [] }
    ensures { found.new.items ≡ aggregators_in_use system_ports.now }
{
    for system_port in system_ports {
        found.push(collecting(&system_port.port));
    }
}

/// Lists the aggregators as they were when the port at this index distributed in `was`.
pub(crate) fn list_aggregators_in_use_before(
    system_ports: &[SystemPort],
    place: usize,
    was: Option<AggId>,
    found: &mut ArrayVec<Option<AggId>, 64>,
)
    requires few { length system_ports.now ≤ 64 }
    requires within { place < length system_ports.now }
    requires empty { found.old.items ≡ [] }
    ensures { found.new.items ≡ slice_set (aggregators_in_use system_ports.now) place was }
{
    list_aggregators_in_use(system_ports, found);
    let all = found.as_mut_slice();
    all[place] = was;
}

/// Whether a port distributed in this aggregator, and no longer does.
fn has_stopped(was: Option<AggId>, system_port: &SystemPort) -> bool
    ensures { result ≡ has_stopped was system_port.now }
{
    match was {
        Some(agg) => !distributes_in(system_port, agg),
        None => false,
    }
}

/// Step 6 of settling. Conversations of each port that stopped distributing become Wanted: On becomes Wanted. `before`
/// has for each port the aggregator in which it distributed before the call.
pub(crate) fn hold_conversations<F: Fn(u16, usize) -> usize + Drop>(
    distributor: &mut Distributor<F>,
    system_ports: &[SystemPort],
    before: &[Option<AggId>],
)
    requires { length before.now ≡ length system_ports.now }
    ensures changed { ChangesAssignments distributor.old.table distributor.new.table (after_holding (stopped before.now system_ports.now)) }
    ensures algorithm { distributor.new.algorithm ≡ distributor.old.algorithm }
{
    for place in 0..before.len() {
        let system_port = &system_ports[place];
        if has_stopped(before[place], system_port) {
            distributor.leave(system_port.number);
        }
    }
}

/// Step 6 of settling, where only the port at this index may have changed: it distributed in the aggregator `was` before the call.
pub(crate) fn hold_conversations_at<F: Fn(u16, usize) -> usize + Drop>(
    distributor: &mut Distributor<F>,
    system_ports: &[SystemPort],
    place: usize,
    was: Option<AggId>,
)
    requires { place < length system_ports.now }
    ensures changed { ChangesAssignments distributor.old.table distributor.new.table
        (after_holding (stopped (slice_set (aggregators_in_use system_ports.now) place was) system_ports.now)) }
    ensures algorithm { distributor.new.algorithm ≡ distributor.old.algorithm }
{
    let system_port = &system_ports[place];
    if has_stopped(was, system_port) {
        distributor.leave(system_port.number);
    }
}

/// Frees every conversation of a port if its link is down now.
pub(crate) fn free_conversations_if_down<F: Fn(u16, usize) -> usize + Drop>(
    distributor: &mut Distributor<F>,
    port: u16,
    up: bool,
)
    ensures frees { FreesIfDown up port distributor.old.table distributor.new.table }
    ensures algorithm { distributor.new.algorithm ≡ distributor.old.algorithm }
{
    if !up {
        distributor.down(port);
    }
}
