ghost use Rattle.portmachines.specs.Receive.{receive_rows};
ghost use Rattle.portmachines.specs.Rows.{RunsToRest};
ghost use Rattle.portmachines.specs.Transmit.{count_down};
ghost use Rattle.lagsystem.specs.Settling.{PortsChangeBy};

use crate::system_ports::SystemPort;

/// One tick of every port: its timers count down, its sent LACPDUs get one tick older, and its receive machine runs.
pub(crate) fn tick_each(system_ports: &mut [SystemPort])
    ensures { PortsChangeBy (λ p q. RunsToRest receive_rows (count_down p) q) system_ports.old system_ports.new }
{
    for system_port in system_ports.iter_mut() {
        system_port.port.tick();
    }
}
