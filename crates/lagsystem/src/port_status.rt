ghost use Rattle.std.specs.Prelude.{◌≡◌, ◌↔◌, Some, option_map, true};
ghost use Rattle.portmachines.specs.Mux.{same_mux_state};
ghost use Rattle.lagsystem.specs.PortStatus.{port_status_at, status_name, status_number, status_of_port, status_text, status_when_current};
ghost use Rattle.lagsystem.specs.PortStatus.{status_when_selected};
ghost use Rattle.lagsystem.specs.State.{machines_of};

use crate::calls::System;
use crate::system_ports::SystemPort;
use lagtypes::{AggId, Choice};
use portmachines::{MuxState, Port, ReceiveState};
use std::fmt;

/// Whether a port distributes, and else the first reason why not, in the order in which they stand here, but that `Held` comes
/// behind `LinkDown` (profile). The law
/// `port_status_says_why` proves what each says.
#[derive(Clone, Copy, Debug, PartialEq, Eq)]
pub enum PortStatus {
    /// The mux machine is in COLLECTING_DISTRIBUTING, the port is SELECTED, and its partner is synchronized (6.4.15).
    Distributing,
    /// The link of the port is down (6.4.7, port_enabled).
    LinkDown,
    /// The link is up, and the receive machine is EXPIRED (6.4.12).
    NoLacpdu,
    /// The link is up, and the receive machine is DEFAULTED: the port runs on defaults (6.4.12).
    OnDefaults,
    /// The link is up, the receive machine is CURRENT, as in all that follow, and the partner is this very system, so the port
    /// is not eligible (profile).
    OwnSystem,
    /// The port is eligible and UNSELECTED: each aggregator that has its key has an occupant, and one of another group, or the
    /// link of the port is Individual (6.4.8, 6.4.14).
    NoAggregator,
    /// The port is STANDBY: this aggregator has as many members as the limit of links (6.4.8; profile).
    Standby(AggId),
    /// The port is SELECTED and in WAITING. wait_while runs; it has this many ticks left (6.4.10).
    Waiting(u8),
    /// The port is SELECTED and in WAITING. wait_while has expired, but that of another member of its aggregator, in WAITING
    /// too, runs (6.4.14, Ready).
    WaitingForMembers,
    /// The port is SELECTED and in ATTACHED: its recorded partner is not synchronized (6.4.15).
    PartnerNotSynchronized,
    /// The link is up, and the host holds the port, which is UNSELECTED (profile).
    Held,
}

impl PortStatus {
    // promise: a status has its number, name and text
    // contract: `PortStatus::number`, `name`, `Display`
    /// The number of the status, 0 for `Distributing` to 10, in the order in which they stand here (profile).
    pub fn number(&self) -> u8
        ensures { result ≡ status_number self.now }
    {
        match self {
            PortStatus::Distributing => 0,
            PortStatus::LinkDown => 1,
            PortStatus::NoLacpdu => 2,
            PortStatus::OnDefaults => 3,
            PortStatus::OwnSystem => 4,
            PortStatus::NoAggregator => 5,
            PortStatus::Standby(_) => 6,
            PortStatus::Waiting(_) => 7,
            PortStatus::WaitingForMembers => 8,
            PortStatus::PartnerNotSynchronized => 9,
            PortStatus::Held => 10,
        }
    }

    /// The name of the status in one word, as lines of a program have it, `distributing` to `held`; neither
    /// the aggregator of `Standby` nor the ticks of `Waiting` are told (profile).
    pub fn name(&self) -> &'static str
        ensures { result.now ≡ status_name self.now }
    {
        match self {
            PortStatus::Distributing => "distributing",
            PortStatus::LinkDown => "link-down",
            PortStatus::NoLacpdu => "no-lacpdu",
            PortStatus::OnDefaults => "on-defaults",
            PortStatus::OwnSystem => "own-system",
            PortStatus::NoAggregator => "no-aggregator",
            PortStatus::Standby(_) => "standby",
            PortStatus::Waiting(_) => "waiting",
            PortStatus::WaitingForMembers => "waiting-for-members",
            PortStatus::PartnerNotSynchronized => "partner-not-synchronized",
            PortStatus::Held => "held",
        }
    }
}

/// Says of a port whether it distributes, and else why not; neither the aggregator of `Standby` nor the ticks of `Waiting` are
/// told.
impl fmt::Display for PortStatus {
    ghost output = { λ status. Some (status_text status) };

    fn fmt<W: fmt::Write>(&self, f: &mut fmt::Formatter<W>) -> fmt::Result {
        match self {
            PortStatus::Distributing => f.write_str("it distributes"),
            PortStatus::LinkDown => f.write_str("the link is down"),
            PortStatus::NoLacpdu => f.write_str("no LACPDU came in time"),
            PortStatus::OnDefaults => f.write_str("it runs on defaults"),
            PortStatus::OwnSystem => f.write_str("the partner is this very system"),
            PortStatus::NoAggregator => f.write_str(
                "no aggregator has its key, or each that has it has ports of another group",
            ),
            PortStatus::Standby(_) => f.write_str("its aggregator has no room for one more link"),
            PortStatus::Waiting(_) => f.write_str("it waits for wait_while"),
            PortStatus::WaitingForMembers => f.write_str(
                "it waits for other ports of its aggregator",
            ),
            PortStatus::PartnerNotSynchronized => f.write_str("the partner is not synchronized"),
            PortStatus::Held => f.write_str("the host holds it"),
        }
    }
}

/// The status of a port whose receive machine is CURRENT.
fn status_when_current(port: &Port) -> PortStatus
    ensures { result ≡ status_when_current port.now }
{
    if port.partner().system == port.party().system {
        return PortStatus::OwnSystem;
    }
    match port.choice() {
        Choice::Unselected => PortStatus::NoAggregator,
        Choice::Standby(agg) => PortStatus::Standby(agg),
        Choice::Selected(_) => status_when_selected(port),
    }
}

/// The status of a port that is SELECTED, and whose receive machine is CURRENT.
fn status_when_selected(port: &Port) -> PortStatus
    ensures { result ≡ status_when_selected port.now }
{
    if port.mux_state() == MuxState::Attached {
        PortStatus::PartnerNotSynchronized
    } else if port.wait_while() > 0 {
        PortStatus::Waiting(port.wait_while())
    } else {
        PortStatus::WaitingForMembers
    }
}

/// The status of a port.
fn status_of_port(system_port: &SystemPort) -> PortStatus
    ensures { result ≡ status_of_port system_port.now }
{
    let port = &system_port.port;
    if port.distributes() {
        return PortStatus::Distributing;
    }
    if !port.is_enabled() {
        return PortStatus::LinkDown;
    }
    if system_port.held {
        return PortStatus::Held;
    }
    match port.receive_state() {
        ReceiveState::Expired => PortStatus::NoLacpdu,
        ReceiveState::Defaulted => PortStatus::OnDefaults,
        _ => status_when_current(port),
    }
}

impl<F: Fn(u16, usize) -> usize + Drop> System<F> {
    // promise: `port_status` is Distributing, exactly as `distributes` says, or the first reason of the list why not
    // contract: `port_status` (`is`: `status_of_port`; `distributing`)
    /// Whether a port distributes, and else the first reason why not; None if there is no such port (profile).
    /// `Distributing` exactly if `distributes` is true.
    pub fn port_status(&self, port: u16) -> Option<PortStatus>
        ensures is { result ≡ port_status_at port self.now.state }
        ensures distributing { (result ≡ Some PortStatus.Distributing)
            ↔ (option_map (λ p. same_mux_state MuxState.CollectingDistributing p.mux) (machines_of port self.now.state) ≡ Some true) }
    {
        match self.inner.system_port(port) {
            Some(system_port) => Some(status_of_port(system_port)),
            None => None,
        }
    }
}
