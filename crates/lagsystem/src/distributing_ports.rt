ghost use Rattle.std.specs.Prelude.{◌≡◌, ◌≤◌, length};
ghost use Rattle.lagsystem.specs.Readers.{collecting, distributes_in, distributing};

use crate::system_ports::SystemPort;
use arrayvec::ArrayVec;
use lagtypes::{AggId, Choice};
use portmachines::Port;

/// The aggregator in which a port is Collecting, or None (6.2.3).
pub(crate) fn collecting(port: &Port) -> Option<AggId>
    ensures { result ≡ collecting port.now }
{
    match port.choice() {
        Choice::Selected(agg) if port.distributes() => Some(agg),
        Choice::Selected(_) | Choice::Standby(_) | Choice::Unselected => None,
    }
}

/// Whether a port distributes in this aggregator.
pub(crate) fn distributes_in(system_port: &SystemPort, agg: AggId) -> bool
    ensures { result ≡ distributes_in agg system_port.now }
{
    match system_port.port.choice() {
        Choice::Selected(given) => given == agg && system_port.port.distributes(),
        Choice::Standby(_) | Choice::Unselected => false,
    }
}

/// The numbers of the ports that distribute in this aggregator.
pub(crate) fn distributing(system_ports: &[SystemPort], agg: AggId) -> ArrayVec<u16, 64>
    requires { length system_ports.now ≤ 64 }
    ensures { result.items ≡ distributing agg system_ports.now }
{
    let mut found = ArrayVec::new();
    for system_port in system_ports {
        if distributes_in(system_port, agg) {
            found.push(system_port.number);
        }
    }
    found
}
