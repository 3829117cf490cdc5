ghost use Rattle.std.specs.Prelude.{◌≡◌, ◌<◌, ◌≤◌, ◌&&◌, IfSome, [], length};
ghost use Rattle.std.specs.List.Sorted.{IsStrictlyIncreasing};
ghost use Rattle.lagsystem.specs.Views.{may_choose, stage_of, selection_view, views};
ghost use Rattle.lagsystem.specs.State.{port_index, port_numbers};
ghost use Rattle.lagsystem.specs.First.{HasJustStarted, setup_of};
ghost use Rattle.lagtypes.specs.Choices.{is_selected, is_unselected};
ghost use Rattle.selection.specs.Views.{has_waited, is_eligible};

use crate::config::PortConfig;
use arrayvec::ArrayVec;
use lagtypes::{Choice, Party, PortId, SystemId};
use portmachines::{MuxState, Port, ReceiveState, Setup};
use selection::{PortView, Stage};

/// One port of a system: its number, its MAC address, its machines, and whether the host holds it.
#[derive(Drop)]
pub(crate) struct SystemPort {
    /// The port number.
    pub(crate) number: u16,
    /// The MAC address of the port.
    pub(crate) mac: [u8; 6],
    /// The machines of the port, with their variables.
    pub(crate) port: Port,
    /// Whether the host holds the port: it stays UNSELECTED until it is let go.
    pub(crate) held: bool,
}

/// The index of the port with this number, or None. Nearly always the ports have the numbers from 1 on without a gap, so
/// the index below the number is looked at first.
pub(crate) fn port_index(system_ports: &[SystemPort], number: u16) -> Option<usize>
    requires { IsStrictlyIncreasing (port_numbers system_ports.now) }
    ensures place { result ≡ port_index number system_ports.now }
    ensures within { IfSome result (λ place. place < length system_ports.now) }
{
    let guess = usize::from(number.saturating_sub(1));
    if guess < system_ports.len() && system_ports[guess].number == number {
        return Some(guess);
    }
    system_ports
        .iter()
        .position(|system_port| system_port.number == number)
}

/// The stage that the Selection Logic sees, by the state of the mux machine and the ticks that wait_while has left.
fn stage_of(mux: MuxState, wait_while: u8) -> Stage
    ensures { result ≡ stage_of mux wait_while }
{
    match mux {
        MuxState::Detached => Stage::Detached,
        MuxState::Waiting => Stage::Waiting {
            expired: wait_while == 0,
        },
        MuxState::Attached | MuxState::CollectingDistributing => Stage::Joined,
    }
}

/// How far the mux machine of a port has come.
pub(crate) fn stage(system_port: &SystemPort) -> Stage
    ensures { result ≡ (selection_view system_port.now).stage }
{
    stage_of(system_port.port.mux_state(), system_port.port.wait_while())
}

/// What the Selection Logic reads of a port.
pub(crate) fn selection_view(system_port: &SystemPort) -> PortView
    ensures { result ≡ selection_view system_port.now }
{
    let port = &system_port.port;
    PortView {
        number: system_port.number,
        party: port.party(),
        partner: port.partner().party(),
        enabled: port.is_enabled(),
        settled: matches!(
            port.receive_state(),
            ReceiveState::Current | ReceiveState::Defaulted
        ),
        stage: stage(system_port),
        choice: port.choice(),
    }
}

/// Lists what the Selection Logic reads of all ports, in order. The caller has the list, which has room for 64 views, and would
/// be copied if it were returned.
pub(crate) fn list_views(system_ports: &[SystemPort], found: &mut ArrayVec<PortView, 64>)
    requires few { length system_ports.now ≤ 64 }
    requires empty { found.old.items ≡ [] }
    ensures { found.new.items ≡ views system_ports.now }
{
    for system_port in system_ports {
        found.push(selection_view(system_port));
    }
}

/// Whether a port is UNSELECTED.
pub(crate) fn is_unselected(system_port: &SystemPort) -> bool
    ensures { result ≡ is_unselected system_port.now.port.choice }
{
    match system_port.port.choice() {
        Choice::Unselected => true,
        Choice::Selected(_) | Choice::Standby(_) => false,
    }
}

/// Whether a port is eligible: the Selection Logic may give it an aggregator. UNSELECTED is asked first: it rules out most ports.
fn is_eligible(system_port: &SystemPort) -> bool
    ensures { result ≡ is_eligible (selection_view system_port.now) }
{
    is_unselected(system_port) && selection_view(system_port).is_eligible()
}

/// Whether a port may choose an aggregator now: it is eligible, and the host does not hold it.
pub(crate) fn may_choose(system_port: &SystemPort) -> bool
    ensures { result ≡ may_choose system_port.now }
{
    is_eligible(system_port) && !system_port.held
}

/// Whether a port is SELECTED.
pub(crate) fn is_selected(system_port: &SystemPort) -> bool
    ensures { result ≡ is_selected system_port.now.port.choice }
{
    match system_port.port.choice() {
        Choice::Selected(_) => true,
        Choice::Unselected | Choice::Standby(_) => false,
    }
}

/// Whether a port is SELECTED, in WAITING, and wait_while has expired.
pub(crate) fn member_has_waited(system_port: &SystemPort) -> bool
    ensures { result ≡ (is_selected system_port.now.port.choice && has_waited (selection_view system_port.now).stage) }
{
    is_selected(system_port) && selection_view(system_port).has_waited()
}

/// The start values of a port's machines, from its configuration.
fn setup_of(system: SystemId, config: &PortConfig) -> Setup
    ensures { result ≡ setup_of system config.now }
{
    Setup {
        party: Party {
            system,
            key: config.key,
            port: PortId {
                priority: config.priority,
                number: config.number,
            },
            aggregatable: config.aggregatable,
        },
        active: config.active,
        short: config.short,
    }
}

impl SystemPort {
    /// A port whose machines have just started, with its link down.
    pub(crate) fn new(system: SystemId, config: &PortConfig) -> SystemPort
        ensures { HasJustStarted system config.now result }
    {
        SystemPort {
            number: config.number,
            mac: config.mac,
            port: Port::new(setup_of(system, config)),
            held: false,
        }
    }

    /// Starts the port again, in place; the host does not hold it.
    pub(crate) fn restart(&mut self, system: SystemId, config: &PortConfig)
        ensures { HasJustStarted system config.now self.new }
    {
        self.number = config.number;
        self.mac = config.mac;
        self.port = Port::new(setup_of(system, config));
        self.held = false;
    }
}
