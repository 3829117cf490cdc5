ghost use Rattle.std.specs.Prelude.{◌≡◌, ◌<◌, Some, true, length};
ghost use Rattle.std.specs.Bool.{OnFalse, OnTrue};
ghost use Rattle.lagtypes.specs.Same.{same_party};
ghost use Rattle.portmachines.specs.Start.{Starts};
ghost use Rattle.lagsystem.specs.Calls.{ChangesParty, HoldsAtIndex, PortAtChangesBy, changed_party};

use crate::config::PortChange;
use crate::system_ports::SystemPort;
use lagtypes::{Party, PortId};
use portmachines::Port;

/// Gives the port at this index another key, priority or Aggregation bit, and returns whether a value differs.
pub(crate) fn configure_at(
    system_ports: &mut [SystemPort],
    place: usize,
    change: PortChange,
) -> bool
    requires { place < length system_ports.old }
    ensures acted { OnTrue result (PortAtChangesBy (ChangesParty change) (Some place) system_ports.old system_ports.new) }
    ensures stays { OnFalse result (HoldsAtIndex (λ p. same_party (changed_party change p.party) p.party ≡ true)
        (Some place) system_ports.old) }
    ensures unchanged { OnFalse result (system_ports.new ≡ system_ports.old) }
{
    if is_same(&system_ports[place].port, change) {
        return false;
    }
    let system_port = &mut system_ports[place];
    reinit_system_port(system_port, change);
    true
}

/// Whether the change leaves the port's own parameters as they are.
fn is_same(port: &Port, change: PortChange) -> bool
    ensures { result ≡ same_party (changed_party change port.now.party) port.now.party }
{
    let party = port.party();
    changed_party(change, &party) == party
}

/// Gives a port the changed parameters and starts its machines again (BEGIN).
fn reinit_system_port(system_port: &mut SystemPort, change: PortChange)
    ensures kept { system_port.new ≡ record system_port.old { port = system_port.new.port } }
    ensures port { Starts (record system_port.old.port { party = changed_party change system_port.old.port.party }) system_port.new.port }
{
    let party = system_port.port.party();
    system_port.port.reinit(changed_party(change, &party));
}

/// The parameters of a port once the change is made; system and port number stay.
fn changed_party(change: PortChange, party: &Party) -> Party
    ensures { result ≡ changed_party change party.now }
{
    Party {
        system: party.system,
        key: change.key,
        port: PortId {
            priority: change.priority,
            number: party.port.number,
        },
        aggregatable: change.aggregatable,
    }
}
