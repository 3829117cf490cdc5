ghost use Rattle.std.specs.Prelude.{◌≡◌, ◌≤◌, ◌<◌, ◌&&◌, not, length, false, position, slice_get, None, Some};
ghost use Rattle.std.specs.Bool.{OnFalse};
ghost use Rattle.std.specs.List.{list_any};
ghost use Rattle.lagtypes.specs.Choices.{is_selected};
ghost use Rattle.portmachines.specs.Rows.{RunsToRest};
ghost use Rattle.portmachines.specs.Mux.{mux_rows};
ghost use Rattle.portmachines.specs.Periodic.{RunsPeriodic};
ghost use Rattle.selection.specs.Views.{has_waited};
ghost use Rattle.lagsystem.specs.Views.{may_choose, selection_view, views};
ghost use Rattle.lagsystem.specs.Promoting.{NextOnlyIfUnselected};
ghost use Rattle.lagsystem.specs.Settling.{PortsChangeBy, SettlesPorts, after_choice_at, after_choices, ready_of};
ghost use Rattle.lagsystem.specs.Settling.{ChoosesAndRunsMux, ChoosesIn, choice_in, is_restless};
ghost use Rattle.lagsystem.specs.State.{SystemState, aggregators_value, with_system_ports};

use crate::promoting::{may_promote, promote_each};
use crate::system_ports::{
    SystemPort, is_selected, is_unselected, list_views, may_choose, member_has_waited,
};
use arrayvec::ArrayVec;
use lagtypes::{AggId, Choice};
use selection::{Aggregators, PortView};

/// Step 1: each mux machine runs with Ready false, so that ports leave their aggregators before any port chooses.
fn run_mux_not_ready(system_ports: &mut [SystemPort])
    ensures { PortsChangeBy (RunsToRest (mux_rows false)) system_ports.old system_ports.new }
{
    for system_port in system_ports.iter_mut() {
        let _fired = system_port.port.mux(false);
    }
}

/// The index of the first port that is not SELECTED. Where each is, none is promoted and none chooses.
fn first_not_selected(system_ports: &[SystemPort]) -> Option<usize>
    ensures { result ≡ position (λ s. not (is_selected s.port.choice)) system_ports.now }
{
    system_ports
        .iter()
        .position(|system_port| !is_selected(system_port))
}

/// Whether some port may choose an aggregator.
fn any_may_choose(system_ports: &[SystemPort]) -> bool
    ensures { result ≡ list_any (λ s. may_choose s) system_ports.now }
{
    system_ports
        .iter()
        .any(|system_port| may_choose(system_port))
}

/// Whether some port may choose an aggregator. `first` is the index of the first port that is not SELECTED: none before it
/// may.
fn any_may_choose_from(system_ports: &[SystemPort], first: usize) -> bool
    requires { position (λ s. not (is_selected s.port.choice)) system_ports.now ≡ Some first }
    ensures { result ≡ list_any (λ s. may_choose s) system_ports.now }
{
    let rest = &system_ports[first..];
    any_may_choose(rest)
}

/// What a port becomes that takes the aggregator: SELECTED if that has room, else STANDBY.
fn choice_in(aggregators: &Aggregators, port_views: &[PortView], agg: AggId) -> Choice
    ensures { result ≡ choice_in aggregators.now port_views.now agg }
{
    if aggregators.room(port_views, agg) {
        Choice::Selected(agg)
    } else {
        Choice::Standby(agg)
    }
}

/// Lets the port at this index choose an aggregator, if it may. The list of the views of all ports is
/// updated, so that the ports after it see the choice.
fn choose_one(
    aggregators: &Aggregators,
    system_ports: &mut [SystemPort],
    port_views: &mut [PortView],
    place: usize,
)
    requires port_views { port_views.old ≡ views system_ports.old }
    requires within { place < length system_ports.old }
    ensures chosen { system_ports.new ≡ after_choice_at aggregators.now system_ports.old place (slice_get system_ports.old place) }
    ensures port_views { port_views.new ≡ views system_ports.new }
{
    if !may_choose(&system_ports[place]) {
        return;
    }
    let system_port = &mut system_ports[place];
    if let Some(agg) = aggregators.choose(port_views, system_port.number) {
        let choice = choice_in(aggregators, port_views, agg);
        system_port.port.select(choice);
        port_views[place].choice = choice;
    }
}

/// Lets each port in turn choose an aggregator, if it may.
fn choose_each(
    aggregators: &Aggregators,
    system_ports: &mut [SystemPort],
    port_views: &mut [PortView],
)
    requires { port_views.old ≡ views system_ports.old }
    ensures { system_ports.new ≡ after_choices aggregators.now (length system_ports.old) system_ports.old }
{
    for place in 0..system_ports.len() {
        choose_one(aggregators, system_ports, port_views, place);
    }
}

/// Step 2: STANDBY ports become SELECTED where there is room; then each port that may choose does so, in order;
/// each sees the choices made before it.
fn choose_all(aggregators: &Aggregators, system_ports: &mut [SystemPort])
    requires { length system_ports.old ≤ 64 }
    ensures { ChoosesIn aggregators.now system_ports.old system_ports.new }
{
    match first_not_selected(system_ports) {
        Some(first) => choose_some(aggregators, system_ports, first),
        None => {}
    }
}

/// Step 2 where some port is not SELECTED. `first` is the index of the first one. Not inlined, so that `choose_all` is small
/// where each port is SELECTED.
#[inline(never)]
fn choose_some(aggregators: &Aggregators, system_ports: &mut [SystemPort], first: usize)
    requires few { length system_ports.old ≤ 64 }
    requires first { position (λ s. not (is_selected s.port.choice)) system_ports.old ≡ Some first }
    ensures { ChoosesIn aggregators.now system_ports.old system_ports.new }
{
    if may_promote(aggregators, system_ports, first) {
        promote_and_choose(aggregators, system_ports);
    } else if any_may_choose_from(system_ports, first) {
        choose_only(aggregators, system_ports);
    }
}

/// Step 2 where a STANDBY port may be promoted. This function, `choose_only` and `run_mux_by_ready` are not inlined, so that a
/// settling that makes no list of views reserves no stack for one.
#[inline(never)]
fn promote_and_choose(aggregators: &Aggregators, system_ports: &mut [SystemPort])
    requires { length system_ports.old ≤ 64 }
    ensures { ChoosesIn aggregators.now system_ports.old system_ports.new }
{
    let mut port_views = ArrayVec::new();
    list_views(system_ports, &mut port_views);
    promote_each(aggregators, system_ports, port_views.as_mut_slice());
    choose_each(aggregators, system_ports, port_views.as_mut_slice());
}

/// Lets each port in turn choose an aggregator; none is promoted.
#[inline(never)]
fn choose_only(aggregators: &Aggregators, system_ports: &mut [SystemPort])
    requires { length system_ports.old ≤ 64 }
    ensures { system_ports.new ≡ after_choices aggregators.now (length system_ports.old) system_ports.old }
{
    let mut port_views = ArrayVec::new();
    list_views(system_ports, &mut port_views);
    choose_each(aggregators, system_ports, port_views.as_mut_slice());
}

/// Whether some member of an aggregator is in WAITING and its wait_while has expired.
fn any_member_has_waited(system_ports: &[SystemPort]) -> bool
    ensures { result ≡ list_any (λ s. is_selected s.port.choice && has_waited (selection_view s).stage) system_ports.now }
{
    system_ports
        .iter()
        .any(|system_port| member_has_waited(system_port))
}

/// Steps 3 and 4: Ready is worked out for every aggregator; then each mux machine runs with it.
fn run_mux(aggregators: &Aggregators, system_ports: &mut [SystemPort])
    requires { length system_ports.old ≤ 64 }
    ensures { PortsChangeBy (λ p q. RunsToRest (mux_rows (ready_of aggregators.now.keys (views system_ports.old) p.choice)) p q)
        system_ports.old system_ports.new }
{
    if any_member_has_waited(system_ports) {
        run_mux_by_ready(aggregators, system_ports);
    } else {
        // An aggregator can only be Ready if a member has waited long enough. STANDBY ports stay in WAITING.
        run_mux_not_ready(system_ports);
    }
}

/// Steps 3 and 4 where the wait_while of some member in WAITING has expired.
#[inline(never)]
fn run_mux_by_ready(aggregators: &Aggregators, system_ports: &mut [SystemPort])
    requires { length system_ports.old ≤ 64 }
    ensures { PortsChangeBy (λ p q. RunsToRest (mux_rows (ready_of aggregators.now.keys (views system_ports.old) p.choice)) p q)
        system_ports.old system_ports.new }
{
    let mut port_views = ArrayVec::new();
    list_views(system_ports, &mut port_views);
    run_each_mux(aggregators, system_ports, port_views.as_slice());
}

/// Runs each mux machine; Ready is worked out from the views before the first of them ran.
fn run_each_mux(aggregators: &Aggregators, system_ports: &mut [SystemPort], port_views: &[PortView])
    ensures { PortsChangeBy (λ p q. RunsToRest (mux_rows (ready_of aggregators.now.keys port_views.now p.choice)) p q)
        system_ports.old system_ports.new }
{
    for system_port in system_ports.iter_mut() {
        let ready = ready_of(aggregators, port_views, system_port.port.choice());
        let _fired = system_port.port.mux(ready);
    }
}

/// Ready of the aggregator of which the port is a member; false if it is of none.
fn ready_of(aggregators: &Aggregators, port_views: &[PortView], choice: Choice) -> bool
    ensures { result ≡ ready_of aggregators.now.keys port_views.now choice }
{
    match choice {
        Choice::Unselected | Choice::Standby(_) => false,
        Choice::Selected(agg) => aggregators.ready(port_views, agg),
    }
}

/// Whether a port is UNSELECTED, or is a member in WAITING with wait_while expired.
fn is_restless(system_port: &SystemPort) -> bool
    ensures { result ≡ is_restless system_port.now }
{
    is_unselected(system_port) || member_has_waited(system_port)
}

/// Whether some port is restless: UNSELECTED, or a member in WAITING with wait_while expired.
fn any_restless(system_ports: &[SystemPort]) -> bool
    ensures { result ≡ list_any (λ s. is_restless s) system_ports.now }
{
    system_ports
        .iter()
        .any(|system_port| is_restless(system_port))
}

/// Steps 2 to 4, behind step 1, which has run each mux machine with Ready false. Where no port is restless they change nothing,
/// but with `more_room`: then a STANDBY port may come next.
fn choose_and_run_mux(aggregators: &Aggregators, system_ports: &mut [SystemPort], more_room: bool)
    requires few { length system_ports.old ≤ 64 }
    requires ran { PortsChangeBy (RunsToRest (mux_rows false)) system_ports.old system_ports.old }
    requires next { OnFalse more_room (NextOnlyIfUnselected aggregators.now system_ports.old) }
    ensures { ChoosesAndRunsMux aggregators.now system_ports.old system_ports.new }
{
    if more_room || any_restless(system_ports) {
        choose_all(aggregators, system_ports);
        run_mux(aggregators, system_ports);
    }
}

/// Step 5: each periodic machine runs.
fn run_each_periodic(system_ports: &mut [SystemPort])
    ensures { PortsChangeBy RunsPeriodic system_ports.old system_ports.new }
{
    for system_port in system_ports.iter_mut() {
        system_port.port.periodic();
    }
}

/// Steps 1 to 5 of settling (profile), which read and change ports only. The cost is linear in the ports, except in two
/// cases. For each port that may choose the views of all ports are searched for an aggregator; a port that finds none is tried
/// again in each settling. And if some SELECTED port is in WAITING with wait_while expired, the views are searched once for
/// each SELECTED port. Step 6, the conversations, is in holding.rt. Nothing is promoted where no port is UNSELECTED, but with
/// `more_room`: then a STANDBY port may come next though no port has left its aggregator.
pub(crate) fn settle_ports(
    aggregators: &Aggregators,
    system_ports: &mut [SystemPort],
    more_room: bool,
)
    requires few { length system_ports.old ≤ 64 }
    requires next { OnFalse more_room (NextOnlyIfUnselected aggregators.now system_ports.old) }
    ensures { (base : SystemState) → aggregators_value base ≡ aggregators.now → base.system_ports ≡ system_ports.old
        → SettlesPorts base (with_system_ports base system_ports.new) }
{
    run_mux_not_ready(system_ports);
    choose_and_run_mux(aggregators, system_ports, more_room);
    run_each_periodic(system_ports);
}
